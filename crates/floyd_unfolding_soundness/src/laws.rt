ghost use Rattle.floyd_predicate_soundness.specs.Rows.{IsSoundOverItems};
ghost use Rattle.floyd_pure_unfolding.specs.Row as row;

/// A goal of any kind holds where it does with what the calls of a function mean in place of these calls.
pub fn unfold_fun_is_sound()
    ensures { IsSoundOverItems (λ defs goal args. Unit {0}) row.Row }
{}
