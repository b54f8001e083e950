ghost use Rattle.floyd_entail_predicates.specs.Fold as folding;
ghost use Rattle.floyd_entail_predicates.specs.Unfold as unfolding_row;
ghost use Rattle.floyd_formed_predicates.specs.Rows.{KeepsFormsOverItems};
ghost use Rattle.floyd_predicate_soundness.specs.Rows.{FoldIsGiven, UnfoldIsGiven};

/// The goal with the clause of a predicate in its place is well formed.
pub fn unfold_keeps_forms()
    ensures { KeepsFormsOverItems UnfoldIsGiven unfolding_row.Row }
{}

/// The goal with a predicate in place of the parts of its clause, and the goal of the clause's formulas, are well formed.
pub fn fold_keeps_forms()
    ensures { KeepsFormsOverItems FoldIsGiven folding.Row }
{}
