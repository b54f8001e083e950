ghost use Rattle.std.specs.Prelude.{◌≡◌, IfOk, Ok, Some};
ghost use Rattle.floyd_goal.specs.Answers.{IsAnswer};
ghost use Rattle.floyd_pure_formulas.specs.Cut.{CutRow, cut_by as cut_by_lem};
ghost use Rattle.floyd_pure_formulas.specs.Holds.{AddsTrue};
ghost use Rattle.floyd_pure_formulas.specs.Keeps.{KeepsTruth};

use crate::rows::with_more;
use floyd_assert_trees::{Defs, SpecTable};
use floyd_goal::{
    Args, Goal, GoalList, context_of, intros_first, is_pending, pure_goal, wrong_goal,
};
use floyd_text::{RuleStop, Steps};
use floyd_tree::{Formula, FormulaList};
use std::alloc::{AllocError, Global};
use std::sync::ledger::Ledger;

fn cut_by(alloc: Global, goal: &Goal, formula: &Formula) -> Result<GoalList, AllocError>
    ensures { IfOk result (λ gs. Ok gs ≡ cut_by_lem goal.now (Some formula.now)) }
{
    let mut more = FormulaList::new(alloc);
    more.push(formula.share()?)?;
    let mut goals = GoalList::new(alloc);
    goals.push(pure_goal(alloc, context_of(goal), formula.share()?)?)?;
    goals.push(with_more(alloc, goal, more)?)?;
    Ok(goals)
}

/// Asks for a proof of a formula, which is then a hypothesis.
pub fn do_cut<L: Ledger>(
    alloc: Global,
    goal: &Goal,
    args: &Args,
    _defs: &Defs,
    _specs: &SpecTable,
    _steps: &mut Steps<L>,
) -> Result<GoalList, RuleStop>
    ensures exact { IsAnswer (CutRow goal.now args.now) result }
{
    if is_pending(goal) {
        return Err(RuleStop::No(intros_first()));
    }
    match &args.formula {
        None => Err(RuleStop::No(wrong_goal())),
        Some(formula) => Ok(cut_by(alloc, goal, formula)?),
    }
}

/// The formula that is added is true where the hypotheses are, if the first goal is true.
pub fn cut_adds()
    ensures { AddsTrue CutRow }
{}

/// A goal is true where the formula is, and the goal with it is.
pub fn cut_holds()
    ensures { KeepsTruth CutRow }
{}
