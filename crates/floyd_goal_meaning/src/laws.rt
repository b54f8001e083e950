ghost use Rattle.floyd_goal_meaning.specs.Laws as laws;

/// Goals that hold at once, whatever program they are in: `True`, an assertion that is to follow from itself, and a run of
/// no statements whose source is its end.
pub fn premises_are_met()
    ensures true_holds { laws.TrueHolds }
    ensures itself { laws.ItselfFollows }
    ensures nothing { laws.NothingRuns }
{}

/// Where each specification that a module sees is the function's own, up to bound names, the calls of the module keep what
/// it sees where the functions keep their own.
pub fn sight_is_given()
    ensures { laws.SightIsGiven }
{}

/// `False` does not hold: there is a program that has what a goal asks for.
pub fn false_does_not_hold()
    ensures has { laws.AProgramHasIt }
    ensures fails { laws.FalseDoesNotHold }
{}
