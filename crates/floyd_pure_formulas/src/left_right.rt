ghost use Rattle.floyd_goal.specs.Answers.{IsAnswer};
ghost use Rattle.floyd_goal_formulas.specs.Said.{said as said_lem};
ghost use Rattle.floyd_pure_formulas.specs.Keeps.{KeepsTruth};
ghost use Rattle.floyd_pure_formulas.specs.LeftRight.{LeftRow, RightRow, left_of as left_of_lem, right_of as right_of_lem};
ghost use Rattle.floyd_text.specs.Gives.{RuleGives};

use crate::rows::alone;
use floyd_assert_trees::{Defs, SpecTable};
use floyd_goal::{Args, Context, Goal, GoalList, Said, says, wrong_goal};
use floyd_text::{RuleStop, Steps};
use floyd_tree::Formula;
use std::alloc::Global;
use std::sync::ledger::Ledger;

fn left_of(alloc: Global, context: &Context, target: &Formula) -> Result<GoalList, RuleStop>
    ensures { RuleGives (λ gs. gs) result (left_of_lem context.now (said_lem target.now)) }
{
    match says(target) {
        Said::Either(left, _) => Ok(alone(alloc, context, left)?),
        _ => Err(RuleStop::No(wrong_goal())),
    }
}

fn right_of(alloc: Global, context: &Context, target: &Formula) -> Result<GoalList, RuleStop>
    ensures { RuleGives (λ gs. gs) result (right_of_lem context.now (said_lem target.now)) }
{
    match says(target) {
        Said::Either(_, right) => Ok(alone(alloc, context, right)?),
        _ => Err(RuleStop::No(wrong_goal())),
    }
}

/// Keeps the left side of an `or`.
pub fn do_left<L: Ledger>(
    alloc: Global,
    goal: &Goal,
    args: &Args,
    _defs: &Defs,
    _specs: &SpecTable,
    _steps: &mut Steps<L>,
) -> Result<GoalList, RuleStop>
    ensures exact { IsAnswer (LeftRow goal.now args.now) result }
{
    match goal {
        Goal::Pure(pure) => left_of(alloc, &pure.context, &pure.target),
        _ => Err(RuleStop::No(wrong_goal())),
    }
}

/// Keeps the right side of an `or`.
pub fn do_right<L: Ledger>(
    alloc: Global,
    goal: &Goal,
    args: &Args,
    _defs: &Defs,
    _specs: &SpecTable,
    _steps: &mut Steps<L>,
) -> Result<GoalList, RuleStop>
    ensures exact { IsAnswer (RightRow goal.now args.now) result }
{
    match goal {
        Goal::Pure(pure) => right_of(alloc, &pure.context, &pure.target),
        _ => Err(RuleStop::No(wrong_goal())),
    }
}

/// A goal is true where its left side is.
pub fn left_holds()
    ensures { KeepsTruth LeftRow }
{}

/// A goal is true where its right side is.
pub fn right_holds()
    ensures { KeepsTruth RightRow }
{}
