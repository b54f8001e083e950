ghost use Rattle.floyd_formed_destruct.specs.Rows.{KeepsFormsOfSmall};
ghost use Rattle.floyd_pure_formulas.specs.Destruct.{DestructRow};

/// A goal of any kind is well formed in each case of a hypothesis, and in each case of a variable that is a list or a tree.
pub fn destruct_keeps_forms()
    ensures { KeepsFormsOfSmall DestructRow }
{}
