ghost use Rattle.floyd_entail.specs.Valid as valid;
ghost use Rattle.floyd_formed_entail.specs.Rows.{KeepsFormsWhere};

/// The side formula, and the goal with only that the address of a part is valid, or with a part more that says that a value is
/// valid, are well formed.
pub fn valid_keeps_forms()
    ensures { KeepsFormsWhere (λ defs goal args. Unit {0}) valid.Row }
{}
