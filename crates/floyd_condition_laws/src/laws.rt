ghost use Rattle.floyd_condition_laws.specs.Laws as specs;

/// Where what a test needs is so, the machine decides it, and the formula of the branch that it takes is true.
pub fn tests_decide()
    ensures { specs.TestsDecide }
{}
