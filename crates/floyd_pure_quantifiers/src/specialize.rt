ghost use Rattle.floyd_assert_trees.specs.Meanings.{value_defs};
ghost use Rattle.floyd_goal.specs.Answers.{IsAnswer};
ghost use Rattle.floyd_goal.specs.Sides.{context_of as context_of_lem};
ghost use Rattle.floyd_goal_formulas.specs.Said.{said as said_lem};
ghost use Rattle.floyd_goal_truth.specs.Scopes.{AllFit};
ghost use Rattle.floyd_pure_formulas.specs.Holds.{AddsTrue};
ghost use Rattle.floyd_pure_formulas.specs.Keeps.{KeepsTruth};
ghost use Rattle.floyd_pure_quantifiers.specs.BindingClauses.{TakesIfAny};
ghost use Rattle.floyd_pure_quantifiers.specs.Specialize.{SpecializeRow, specialized as specialized_lem};
ghost use Rattle.floyd_text.specs.Gives.{RuleGives};

use crate::instances::instance;
use floyd_assert_trees::{Defs, SpecTable};
use floyd_goal::{Args, Goal, GoalList, Said, intros_first, is_pending, says};
use floyd_pure_formulas::{named_by, no_such, with_these};
use floyd_text::{RuleStop, Steps};
use floyd_tree::{Formula, FormulaList};
use std::alloc::Global;
use std::sync::ledger::Ledger;

/// The goals where this is the hypothesis.
fn specialized<L: Ledger>(
    alloc: Global,
    goal: &Goal,
    args: &Args,
    hypothesis: &Formula,
    steps: &mut Steps<L>,
) -> Result<GoalList, RuleStop>
    requires { TakesIfAny (said_lem hypothesis.now) }
    ensures { RuleGives (λ gs. gs) result (specialized_lem goal.now args.now (said_lem hypothesis.now)) }
{
    match says(hypothesis) {
        Said::ForAll(x, s, body) => {
            let made = instance(alloc, x, s, body, args.terms.as_slice(), steps)?;
            let mut more = FormulaList::new(alloc);
            more.push(made)?;
            Ok(with_these(alloc, goal, more)?)
        }
        _ => Err(RuleStop::No(no_such(args))),
    }
}

/// Makes of a hypothesis that is a `forall` its instance at the term, which is then a hypothesis. The instance may be too
/// large.
pub fn do_specialize<L: Ledger>(
    alloc: Global,
    goal: &Goal,
    args: &Args,
    defs: &Defs,
    _specs: &SpecTable,
    steps: &mut Steps<L>,
) -> Result<GoalList, RuleStop>
    requires well_formed { AllFit (value_defs defs.now) (context_of_lem goal.now) (context_of_lem goal.now).hypotheses }
    ensures exact { IsAnswer (SpecializeRow goal.now args.now) result }
{
    if is_pending(goal) {
        return Err(RuleStop::No(intros_first()));
    }
    match named_by(goal, args) {
        None => Err(RuleStop::No(no_such(args))),
        Some(hypothesis) => specialized(alloc, goal, args, hypothesis, steps),
    }
}

/// The instance is true where the hypotheses are.
pub fn specialize_adds()
    ensures { AddsTrue SpecializeRow }
{}

/// A goal is true where it is with the instance as a hypothesis.
pub fn specialize_holds()
    ensures { KeepsTruth SpecializeRow }
{}
