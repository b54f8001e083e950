ghost use Rattle.std.specs.Prelude.{◌↔◌, IsTrue};
ghost use Rattle.floyd_goal.specs.Answers.{IsAnswer};
ghost use Rattle.floyd_goal_formulas.specs.Said.{said as said_lem};
ghost use Rattle.floyd_pure_formulas.specs.Keeps.{KeepsTruth};
ghost use Rattle.floyd_pure_formulas.specs.Refl.{IsIdentity, ReflRow};

use floyd_assert_trees::{Defs, SpecTable};
use floyd_goal::{Args, Goal, GoalList, Said, says, wrong_goal};
use floyd_text::{Code, No, RuleStop, Shown, Steps};
use floyd_tree::{Formula, equal};
use std::alloc::Global;
use std::sync::ledger::Ledger;

/// Whether the formula is an equation of identical terms.
fn is_identity(f: &Formula) -> bool
    ensures { IsTrue result ↔ IsIdentity (said_lem f.now) }
{
    match says(f) {
        Said::Equation(a, b) => equal(a, b),
        _ => false,
    }
}

/// Closes a goal that is an equation of identical terms.
pub fn do_refl<L: Ledger>(
    alloc: Global,
    goal: &Goal,
    args: &Args,
    _defs: &Defs,
    _specs: &SpecTable,
    _steps: &mut Steps<L>,
) -> Result<GoalList, RuleStop>
    ensures exact { IsAnswer (ReflRow goal.now args.now) result }
{
    let Goal::Pure(pure) = goal else {
        return Err(RuleStop::No(wrong_goal()));
    };
    if is_identity(&pure.target) {
        Ok(GoalList::new(alloc))
    } else {
        Err(RuleStop::No(No {
            code: Code::NotEqual,
            shown: Shown::Nothing,
        }))
    }
}

/// A goal that is closed is true.
pub fn refl_holds()
    ensures { KeepsTruth ReflRow }
{}
