ghost use Rattle.floyd_formed_destruct.specs.Rows.{KeepsFormsOfSmall};
ghost use Rattle.floyd_pure_rewriting.specs.Rewrite.{RewriteRow};

/// The goal with one side of an equation in the place of the other is well formed.
pub fn rewrite_keeps_forms()
    ensures { KeepsFormsOfSmall RewriteRow }
{}
