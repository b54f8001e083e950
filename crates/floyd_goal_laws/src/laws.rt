ghost use Rattle.floyd_goal_laws.specs.Alike as alike;
ghost use Rattle.floyd_goal_laws.specs.Cases as cases;
ghost use Rattle.floyd_goal_laws.specs.Following as following;
ghost use Rattle.floyd_goal_laws.specs.Sides as sides;

/// A goal holds where, in each program, what it says of each environment follows from what some goal says that holds.
pub fn follow()
    ensures { following.GoalsFollow }
{}

/// A goal holds where it does with further hypotheses: one list of them after the other, of which one is true wherever the
/// goal's hypotheses are.
pub fn follow_by_cases()
    ensures { cases.HoldsByCases }
{}

/// What says the same, term by term, holds alike.
pub fn say_alike()
    ensures follow { alike.AlikeFollow }
    ensures hold { alike.AlikeHold }
{}

/// Where the goal of side formulas holds, or there is none, the side formulas are true wherever the hypotheses are.
pub fn sides_are_true()
    ensures { sides.SidesAreTrue }
{}

/// What is well formed over what a module sees is well formed over the whole program, and terms keep their values.
pub fn stay_well_formed()
    ensures formulas { sides.FormulasStayWellFormed }
    ensures values { sides.ValuesStay }
{}
