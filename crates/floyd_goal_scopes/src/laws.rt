ghost use Rattle.floyd_goal_scopes.specs.Laws as laws;

/// What is free in a well-formed goal is a variable of its context. So names that no such variable has are new in the goal.
pub fn other_names_are_new()
    ensures free { laws.FreeNamesAreVariables }
    ensures new { laws.OtherNamesAreNew }
{}
