ghost use Rattle.floyd_goal_bounds.specs.Bounds.{SmallWithinLimits};

/// A well-formed goal within the limit on sizes, with few existentials, has fewer nodes and existentials than names are tried.
pub fn goals_are_small()
    ensures { SmallWithinLimits }
{}
