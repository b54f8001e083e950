ghost use Rattle.floyd_induction_soundness.specs.Rows.{InductionIsGiven};
ghost use Rattle.floyd_predicate_soundness.specs.Rows.{IsSoundOverItems};
ghost use Rattle.floyd_pure_induction.specs.Induction.{InductionRow};

/// The start of a lemma's proof holds where its cases do, in which the lemma holds for the sublist or the subtrees.
pub fn induction_is_sound()
    ensures { IsSoundOverItems InductionIsGiven (λ defs. InductionRow) }
{}
