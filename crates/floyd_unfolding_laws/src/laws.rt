ghost use Rattle.floyd_unfolding_laws.specs.Laws as laws;

/// The terms that are taken may stand in a FUN that keeps the rules, wherever its arguments and the names of its patterns do.
pub fn calls_are_taken()
    ensures { laws.CallsAreTaken }
{}
