ghost use Rattle.floyd_pure_formulas.specs.Cut.{CutRow};
ghost use Rattle.floyd_pure_formulas.specs.Destruct.{DestructRow};
ghost use Rattle.floyd_pure_formulas.specs.Discriminate.{DiscriminateRow};
ghost use Rattle.floyd_pure_formulas.specs.LeftRight.{LeftRow, RightRow};
ghost use Rattle.floyd_pure_formulas.specs.Mp.{MpRow};
ghost use Rattle.floyd_pure_formulas.specs.Refl.{ReflRow};
ghost use Rattle.floyd_pure_formulas.specs.Trivial.{TrivialRow};
ghost use Rattle.floyd_pure_quantifiers.specs.Exists.{ExistsRow};
ghost use Rattle.floyd_pure_quantifiers.specs.Inject.{InjectRow};
ghost use Rattle.floyd_pure_quantifiers.specs.Intro.{IntroRow};
ghost use Rattle.floyd_pure_quantifiers.specs.Specialize.{SpecializeRow};
ghost use Rattle.floyd_pure_quantifiers.specs.Split.{SplitRow};
ghost use Rattle.floyd_pure_soundness.specs.Adding as adding;
ghost use Rattle.floyd_pure_laws.specs.ByLaw.{LawRow};
ghost use Rattle.floyd_pure_laws.specs.Lia.{LiaRow};
ghost use Rattle.floyd_pure_soundness.specs.Rows.{HypothesisCasesRow, IsSound, IsSoundOnPure, IsSoundOnWellFormed};

/// A goal holds where it does with hypotheses more, and with what they follow from.
pub fn adding_is_sound()
    ensures { adding.AddingHolds }
{}

/// A goal holds whose hypotheses are true nowhere.
pub fn refuting_is_sound()
    ensures { adding.RefutingHolds }
{}

/// A goal of any kind holds where the formula is proved, and the goal holds with it.
pub fn cut_is_sound()
    ensures { IsSound CutRow }
{}

/// A goal of any kind holds where the premise is proved, and the goal holds with the conclusion.
pub fn mp_is_sound()
    ensures { IsSound MpRow }
{}

/// A goal of any kind that is closed holds.
pub fn discriminate_is_sound()
    ensures { IsSound DiscriminateRow }
{}

/// A Pure goal that is closed holds.
pub fn refl_is_sound()
    ensures { IsSoundOnPure ReflRow }
{}

/// A Pure goal that is closed holds.
pub fn trivial_is_sound()
    ensures { IsSoundOnPure TrivialRow }
{}

/// A Pure goal holds where that of its left side does.
pub fn left_is_sound()
    ensures { IsSoundOnPure LeftRow }
{}

/// A Pure goal holds where that of its right side does.
pub fn right_is_sound()
    ensures { IsSoundOnPure RightRow }
{}

/// A goal of any kind holds where it does with the instance of a hypothesis.
pub fn specialize_is_sound()
    ensures { IsSound SpecializeRow }
{}

/// A goal of any kind holds where it does with the equations of the arguments of equal constructors.
pub fn inject_is_sound()
    ensures { IsSound InjectRow }
{}

/// A goal of any kind holds where the premises of the law are proved, and the goal holds with its conclusion.
pub fn law_is_sound()
    ensures { IsSound LawRow }
{}

/// A goal of any kind holds where it does in each case of a hypothesis: with both formulas of an `and`, with each of an
/// `or`, and with the formula of an `exists` for a new variable; and in any case where the hypothesis is `False`.
pub fn hypothesis_cases_are_sound()
    ensures { IsSoundOnWellFormed HypothesisCasesRow }
{}

/// A Pure goal holds where that of an instance does.
pub fn exists_is_sound()
    ensures { IsSoundOnPure ExistsRow }
{}

/// A Pure goal holds where it does with its premise as a hypothesis, or with a new variable.
pub fn intro_is_sound()
    ensures { IsSoundOnPure IntroRow }
{}

/// A Pure goal holds where those of both formulas do.
pub fn split_is_sound()
    ensures { IsSoundOnPure SplitRow }
{}

/// A Pure goal holds where it does in each case of a hypothesis, or of a variable that is a list or a tree.
pub fn destruct_is_sound()
    ensures { IsSoundOnPure DestructRow }
{}

/// A Pure goal that a certificate closes holds.
pub fn lia_is_sound()
    ensures { IsSoundOnPure LiaRow }
{}
