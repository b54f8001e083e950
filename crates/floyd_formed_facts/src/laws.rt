ghost use Rattle.floyd_entail.specs.Facts as facts;
ghost use Rattle.floyd_formed_entail.specs.Rows.{KeepsFormsWhere};

/// The goal with what a part says among the hypotheses is well formed.
pub fn facts_keeps_forms()
    ensures { KeepsFormsWhere (λ defs goal args. Unit {0}) facts.Row }
{}
