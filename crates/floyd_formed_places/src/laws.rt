ghost use Rattle.floyd_entail.specs.Reroot as reroot;
ghost use Rattle.floyd_entail.specs.Weaken as weaken;
ghost use Rattle.floyd_formed_entail.specs.Rows.{KeepsFormsWhere};

/// The goal with the default value of a part is well formed.
pub fn weaken_keeps_forms()
    ensures { KeepsFormsWhere (λ defs goal args. Unit {0}) weaken.Row }
{}

/// The goal with a part at its own address is well formed.
pub fn reroot_keeps_forms()
    ensures { KeepsFormsWhere (λ defs goal args. Unit {0}) reroot.Row }
{}
