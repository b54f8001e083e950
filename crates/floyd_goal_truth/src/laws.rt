ghost use Rattle.floyd_goal_truth.specs.Laws as specs;

/// Where the goal of side formulas is true, or there is none, all of them are true under all data under which the
/// hypotheses are.
pub fn side_is_sound()
    ensures { specs.SideIsSound }
{}
