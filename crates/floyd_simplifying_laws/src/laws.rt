ghost use Rattle.floyd_pure_simplifying.specs.Simpl.{SimplRow};
ghost use Rattle.floyd_pure_soundness.specs.Rows.{IsSoundOnWellFormed};
ghost use Rattle.floyd_simplifying_laws.specs.Laws.{AssertionSimplifyingKeeps};

/// An assertion holds after it was simplified exactly where it did.
pub fn simplifying_keeps_assertions()
    ensures { AssertionSimplifyingKeeps }
{}

/// A goal of any kind holds where the simplified one does.
pub fn simpl_is_sound()
    ensures { IsSoundOnWellFormed SimplRow }
{}
