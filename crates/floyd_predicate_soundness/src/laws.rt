ghost use Rattle.floyd_entail_predicates.specs.Fold as folding;
ghost use Rattle.floyd_entail_predicates.specs.Unfold as unfolding_row;
ghost use Rattle.floyd_predicate_soundness.specs.Rows.{FoldIsGiven, IsSoundOverItems, UnfoldIsGiven};

/// A goal holds where it does with the clause of a predicate in its place.
pub fn unfold_is_sound()
    ensures { IsSoundOverItems UnfoldIsGiven unfolding_row.Row }
{}

/// A goal holds where it does with a predicate in place of the parts of its clause, if the clause's formulas are true.
pub fn fold_is_sound()
    ensures { IsSoundOverItems FoldIsGiven folding.Row }
{}
