ghost use Rattle.floyd_goal.specs.Answers.{IsAnswer};
ghost use Rattle.floyd_goal_formulas.specs.Said.{said as said_lem};
ghost use Rattle.floyd_pure_formulas.specs.Holds.{AddsTrue};
ghost use Rattle.floyd_pure_formulas.specs.Keeps.{KeepsTruth};
ghost use Rattle.floyd_pure_formulas.specs.Mp.{ByImplication, MpRow};

use crate::rows::{concluding, named_by, no_such};
use floyd_assert_trees::{Defs, SpecTable};
use floyd_goal::{Args, Goal, GoalList, Said, intros_first, is_pending, says};
use floyd_text::{RuleStop, Steps};
use floyd_tree::Formula;
use std::alloc::Global;
use std::sync::ledger::Ledger;

/// The goals where this is the hypothesis.
fn by_implication<L: Ledger>(
    alloc: Global,
    goal: &Goal,
    args: &Args,
    hypothesis: &Formula,
    steps: &mut Steps<L>,
) -> Result<GoalList, RuleStop>
    ensures { IsAnswer (ByImplication goal.now args.now (said_lem hypothesis.now)) result }
{
    match says(hypothesis) {
        Said::Implication(premise, conclusion) => {
            let premises = [premise.share()?];
            concluding(alloc, goal, &premises, conclusion, steps)
        }
        _ => Err(RuleStop::No(no_such(args))),
    }
}

/// Uses a hypothesis that is an implication: its premise is a side formula, and its conclusion a new hypothesis.
pub fn do_mp<L: Ledger>(
    alloc: Global,
    goal: &Goal,
    args: &Args,
    _defs: &Defs,
    _specs: &SpecTable,
    steps: &mut Steps<L>,
) -> Result<GoalList, RuleStop>
    ensures exact { IsAnswer (MpRow goal.now args.now) result }
{
    if is_pending(goal) {
        return Err(RuleStop::No(intros_first()));
    }
    match named_by(goal, args) {
        None => Err(RuleStop::No(no_such(args))),
        Some(hypothesis) => by_implication(alloc, goal, args, hypothesis, steps),
    }
}

/// The conclusion is true where the hypotheses are, if the goal of the premise is true.
pub fn mp_adds()
    ensures { AddsTrue MpRow }
{}

/// A goal is true where the premise is, and the goal with the conclusion is.
pub fn mp_holds()
    ensures { KeepsTruth MpRow }
{}
