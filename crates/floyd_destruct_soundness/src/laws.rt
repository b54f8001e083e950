ghost use Rattle.floyd_pure_formulas.specs.Destruct.{DestructRow};
ghost use Rattle.floyd_rewriting_soundness.specs.Small.{IsSoundOnSmall};

/// A goal of any kind holds where it does in each case of a hypothesis, or of a variable that is a list or a tree.
pub fn every_destruct_is_sound()
    ensures { IsSoundOnSmall DestructRow }
{}
