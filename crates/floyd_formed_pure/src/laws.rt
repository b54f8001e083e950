ghost use Rattle.floyd_formed_pure.specs.Rows.{KeepsForms};
ghost use Rattle.floyd_pure_formulas.specs.Cut.{CutRow};
ghost use Rattle.floyd_pure_formulas.specs.Discriminate.{DiscriminateRow};
ghost use Rattle.floyd_pure_formulas.specs.LeftRight.{LeftRow, RightRow};
ghost use Rattle.floyd_pure_formulas.specs.Mp.{MpRow};
ghost use Rattle.floyd_pure_formulas.specs.Refl.{ReflRow};
ghost use Rattle.floyd_pure_formulas.specs.Trivial.{TrivialRow};
ghost use Rattle.floyd_pure_laws.specs.Lia.{LiaRow};

/// The formula to prove, and the goal with it, are well formed.
pub fn cut_keeps_forms()
    ensures { KeepsForms CutRow }
{}

/// The premise, and the goal with the conclusion, are well formed.
pub fn mp_keeps_forms()
    ensures { KeepsForms MpRow }
{}

/// The goal of the left side is well formed.
pub fn left_keeps_forms()
    ensures { KeepsForms LeftRow }
{}

/// The goal of the right side is well formed.
pub fn right_keeps_forms()
    ensures { KeepsForms RightRow }
{}

/// No goal is left.
pub fn refl_keeps_forms()
    ensures { KeepsForms ReflRow }
{}

/// No goal is left.
pub fn trivial_keeps_forms()
    ensures { KeepsForms TrivialRow }
{}

/// No goal is left.
pub fn discriminate_keeps_forms()
    ensures { KeepsForms DiscriminateRow }
{}

/// No goal is left.
pub fn lia_keeps_forms()
    ensures { KeepsForms LiaRow }
{}
