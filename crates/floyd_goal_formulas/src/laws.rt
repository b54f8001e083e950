ghost use Rattle.floyd_goal_formulas.specs.Laws as specs;

/// A well-formed formula that needs no proof is true where the hypotheses are.
pub fn drops_hold()
    ensures { specs.DropsHold }
{}

/// Well-formed formulas are true where the hypotheses and those that need a proof are.
pub fn kept_hold()
    ensures { specs.KeptHold }
{}
