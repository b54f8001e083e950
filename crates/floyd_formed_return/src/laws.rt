ghost use Rattle.floyd_formed_entail.specs.Rows.{KeepsFormsWhere};
ghost use Rattle.floyd_formed_forward.specs.Laws.{ForwardRow};
ghost use Rattle.floyd_formed_return.specs.Laws.{IsPlainNext};

/// The goals that `forward` makes are well formed, where a value that the next statement returns is of a scalar type, and not
/// beyond all bounds.
pub fn forward_keeps_all_forms()
    ensures { KeepsFormsWhere IsPlainNext ForwardRow }
{}
