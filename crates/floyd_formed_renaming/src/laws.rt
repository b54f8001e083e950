ghost use Rattle.floyd_entail.specs.Exists as exists;
ghost use Rattle.floyd_entail_soundness.specs.Rows.{IsWitness};
ghost use Rattle.floyd_formed_entail.specs.Rows.{KeepsFormsWhere};

/// The goal with a term for the first existential of its target is well formed.
pub fn exists_keeps_forms()
    ensures { KeepsFormsWhere IsWitness (λ structs. exists.Row) }
{}
