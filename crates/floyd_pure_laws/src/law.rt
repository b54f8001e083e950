ghost use Rattle.std.specs.Prelude.{Ok};
ghost use Rattle.floyd_goal.specs.Answers.{IsAnswer};
ghost use Rattle.floyd_pure_laws.specs.ByLaw.{ByLaw, LawRow};
ghost use Rattle.floyd_pure_formulas.specs.Holds.{AddsTrue};
ghost use Rattle.floyd_pure_formulas.specs.Keeps.{KeepsTruth};

use floyd_assert_trees::{Defs, SpecTable};
use floyd_goal::{Args, Goal, GoalList, intros_first, is_pending};
use floyd_listlaw::{Law, law_instance};
use floyd_pure_formulas::concluding;
use floyd_text::{RuleStop, Steps};
use std::alloc::Global;
use std::sync::ledger::Ledger;

/// The goals where this is what the law says.
fn use_law<L: Ledger>(
    alloc: Global,
    goal: &Goal,
    law: &Law,
    steps: &mut Steps<L>,
) -> Result<GoalList, RuleStop>
    ensures { IsAnswer (ByLaw goal.now (Ok law.now)) result }
{
    concluding(alloc, goal, law.premises.as_slice(), &law.conclusion, steps)
}

/// Uses the law of that name for these terms: its premises are side formulas, and its conclusion is a new hypothesis. After
/// pending existentials the refusals are those of `law_instance`, and then that the side formulas are too large.
#[tactic(auto, using(crate::proofs::RowAnswers::law_pending, crate::proofs::RowAnswers::law_used, crate::proofs::RowAnswers::law_refused))]
pub fn do_law<L: Ledger>(
    alloc: Global,
    goal: &Goal,
    args: &Args,
    _defs: &Defs,
    _specs: &SpecTable,
    steps: &mut Steps<L>,
) -> Result<GoalList, RuleStop>
    ensures exact { IsAnswer (LawRow goal.now args.now) result }
{
    if is_pending(goal) {
        return Err(RuleStop::No(intros_first()));
    }
    match law_instance(alloc, &args.name, &args.terms, steps) {
        Ok(law) => use_law(alloc, goal, &law, steps),
        Err(stop) => Err(stop),
    }
}

/// The conclusion is true under all data under which the hypotheses are, where the goal of the premises is true.
pub fn law_adds()
    ensures { AddsTrue LawRow }
{}

/// A goal is true where the premises are, and the goal with the conclusion is.
pub fn law_holds()
    ensures { KeepsTruth LawRow }
{}
