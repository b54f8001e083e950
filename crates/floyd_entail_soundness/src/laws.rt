ghost use Rattle.floyd_entail.specs.Exists as exists;
ghost use Rattle.floyd_entail.specs.Facts as facts;
ghost use Rattle.floyd_entail.specs.Intros as intros;
ghost use Rattle.floyd_entail.specs.Reroot as reroot;
ghost use Rattle.floyd_entail.specs.Valid as valid;
ghost use Rattle.floyd_entail.specs.Weaken as weaken;
ghost use Rattle.floyd_entail_soundness.specs.Rows.{CancelRow, HasFewNodes, IsSound, IsSoundWhere, IsWitness};

/// A goal holds where it does with names for the existentials of its source, and its PROP among the hypotheses.
pub fn intros_is_sound()
    ensures { IsSoundWhere HasFewNodes (λ structs. intros.Row) }
{}

/// An Entail goal holds where it does with a term for the first existential of its target.
pub fn exists_is_sound()
    ensures { IsSoundWhere IsWitness (λ structs. exists.Row) }
{}

/// An Entail goal holds where the side formulas do that are left of its target.
pub fn cancel_is_sound()
    ensures { IsSound (λ structs. CancelRow) }
{}

/// A goal holds where it does with the default value of a part.
pub fn weaken_is_sound()
    ensures { IsSound weaken.Row }
{}

/// A goal holds where it does with a part at its own address.
pub fn reroot_is_sound()
    ensures { IsSound reroot.Row }
{}

/// A goal holds where it does with what a part says among the hypotheses.
pub fn facts_is_sound()
    ensures { IsSound facts.Row }
{}

/// An Entail goal holds where it does with only that the address of a part is valid, or with a part more that says that a
/// value is valid.
pub fn valid_is_sound()
    ensures { IsSound valid.Row }
{}
