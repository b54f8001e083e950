ghost use Rattle.floyd_formed_entail.specs.Rows.{KeepsFormsWhere};
ghost use Rattle.floyd_formed_forward.specs.Laws.{ForwardRow, IsNoValueReturn};

/// What is left to run behind the next statement is well formed, and so are the goals of what the statement needs, where it
/// returns no value.
pub fn forward_keeps_forms()
    ensures { KeepsFormsWhere IsNoValueReturn ForwardRow }
{}
