ghost use Rattle.floyd_formed_pure.specs.Rows.{KeepsForms};
ghost use Rattle.floyd_pure_laws.specs.ByLaw.{LawRow};
ghost use Rattle.floyd_pure_quantifiers.specs.Inject.{InjectRow};
ghost use Rattle.floyd_pure_quantifiers.specs.Split.{SplitRow};

/// The goals of the conjuncts, or of both inequalities, are well formed.
pub fn split_keeps_forms()
    ensures { KeepsForms SplitRow }
{}

/// The goal with the equations of the arguments is well formed.
pub fn inject_keeps_forms()
    ensures { KeepsForms InjectRow }
{}

/// The premises, and the goal with the conclusion, are well formed.
pub fn law_keeps_forms()
    ensures { KeepsForms LawRow }
{}
