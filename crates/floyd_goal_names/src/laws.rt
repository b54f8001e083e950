ghost use Rattle.floyd_goal_names.specs.Names as names;

/// A goal holds where it does with new variables and hypotheses about them, if there are such data wherever the goal's
/// hypotheses are true.
pub fn follow_with_names()
    ensures { names.HoldsWithNames }
{}
