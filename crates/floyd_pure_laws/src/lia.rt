ghost use Rattle.std.specs.Prelude.{◌≡◌};
ghost use Rattle.floyd_goal.specs.Answers.{IsAnswer};
ghost use Rattle.floyd_goal_formulas.specs.Said.{said as said_lem};
ghost use Rattle.floyd_pure_formulas.specs.Keeps.{KeepsTruth};
ghost use Rattle.floyd_pure_laws.specs.Lia.{Certifies, LiaRow, may_be_certified};

use floyd_arith::check_certificate;
use floyd_assert_trees::{Defs, SpecTable};
use floyd_goal::{Args, Goal, GoalList, Pure, Said, says, wrong_goal};
use floyd_text::{RuleStop, Steps};
use floyd_tree::{Formula, WeightList};
use std::alloc::Global;
use std::sync::ledger::Ledger;

/// Whether the target is an inequality, or False.
fn may_be_certified(target: &Formula) -> bool
    ensures { result ≡ may_be_certified (said_lem target.now) }
{
    match says(target) {
        Said::Inequality(_, _) => true,
        Said::Absurd => true,
        _ => false,
    }
}

/// The same of a Pure goal.
#[tactic(auto, using(crate::proofs::RowAnswers::not_certified, crate::proofs::RowAnswers::certifies, crate::proofs::RowAnswers::certifies_not))]
fn certify(alloc: Global, pure: &Pure, weights: &WeightList) -> Result<GoalList, RuleStop>
    ensures { IsAnswer (Certifies weights.now pure.now) result }
{
    if !may_be_certified(&pure.target) {
        return Err(RuleStop::No(wrong_goal()));
    }
    let hypotheses = pure.context.hypotheses.get();
    match check_certificate(alloc, hypotheses, &pure.target, weights) {
        Ok(()) => Ok(GoalList::new(alloc)),
        Err(stop) => Err(stop),
    }
}

/// Closes a goal whose target is an inequality, or False, by weights under which what the hypotheses and the negated target
/// say adds up to what is false. The refusals are those of `check_certificate`.
pub fn do_lia<L: Ledger>(
    alloc: Global,
    goal: &Goal,
    args: &Args,
    _defs: &Defs,
    _specs: &SpecTable,
    _steps: &mut Steps<L>,
) -> Result<GoalList, RuleStop>
    ensures exact { IsAnswer (LiaRow goal.now args.now) result }
{
    match goal {
        Goal::Run(_) => Err(RuleStop::No(wrong_goal())),
        Goal::Entail(_) => Err(RuleStop::No(wrong_goal())),
        Goal::Pure(pure) => certify(alloc, pure, &args.weights),
    }
}

/// A goal that is closed is true.
pub fn lia_holds()
    ensures { KeepsTruth LiaRow }
{}
