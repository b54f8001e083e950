ghost use Rattle.floyd_formed_pure.specs.Rows.{KeepsForms};
ghost use Rattle.floyd_pure_quantifiers.specs.Exists.{ExistsRow};
ghost use Rattle.floyd_pure_quantifiers.specs.Intro.{IntroRow};
ghost use Rattle.floyd_pure_quantifiers.specs.Specialize.{SpecializeRow};
ghost use Rattle.floyd_pure_soundness.specs.Rows.{HypothesisCasesRow};

/// The goal with an instance of a hypothesis is well formed.
pub fn specialize_keeps_forms()
    ensures { KeepsForms SpecializeRow }
{}

/// The goal of an instance is well formed.
pub fn exists_keeps_forms()
    ensures { KeepsForms ExistsRow }
{}

/// The goal under the premise, and the goal with a new variable, are well formed.
pub fn intro_keeps_forms()
    ensures { KeepsForms IntroRow }
{}

/// The goal is well formed in each case of a hypothesis.
pub fn hypothesis_cases_keep_forms()
    ensures { KeepsForms HypothesisCasesRow }
{}
