ghost use Rattle.floyd_entail.specs.Intros as intros;
ghost use Rattle.floyd_entail_soundness.specs.Rows.{CancelRow, HasFewNodes};
ghost use Rattle.floyd_formed_entail.specs.Rows.{KeepsFormsWhere};

/// The goal with names for the existentials of its source, and its PROP among the hypotheses, is well formed.
pub fn intros_keeps_forms()
    ensures { KeepsFormsWhere HasFewNodes (λ structs. intros.Row) }
{}

/// The goal of the side formulas that are left of the target is well formed.
pub fn cancel_keeps_forms()
    ensures { KeepsFormsWhere (λ defs goal args. Unit {0}) (λ structs. CancelRow) }
{}
