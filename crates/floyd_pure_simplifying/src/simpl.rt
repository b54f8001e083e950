ghost use Rattle.std.specs.Prelude.{◌≡◌};
ghost use Rattle.floyd_goal.specs.Answers.{IsAnswer};
ghost use Rattle.floyd_pure_formulas.specs.Keeps.{KeepsTruth};
ghost use Rattle.floyd_pure_rewriting.specs.Changing.{entail_by, run_by};
ghost use Rattle.floyd_pure_simplifying.specs.Simpl.{SimplRow, is_truth, pure_simplified, simplified_goal};
ghost use Rattle.floyd_simplifying.specs.Assertions.{assertion_simplified};
ghost use Rattle.floyd_simplifying.specs.Simplified.{formula_simplified};
ghost use Rattle.floyd_text.specs.Gives.{RuleGives};
ghost use Rattle.floyd_tree.specs.Formulas.{form_of};

use floyd_assert_trees::{Defs, SpecTable};
use floyd_goal::{Args, Entail, Goal, GoalList, Pure, Run, intros_first, is_pending};
use floyd_pure_rewriting::{entail_with, no_occurrence, pure_with, run_with};
use floyd_simplifying::{simplify_assertion, simplify_formula};
use floyd_text::{RuleStop, Steps};
use floyd_tree::{Formula, FormulaHead, formula_head};
use std::alloc::Global;
use std::sync::ledger::Ledger;

#[tactic(auto, using(crate::proofs::Stopping::run_stops))]
fn simplify_run<L: Ledger>(
    alloc: Global,
    run: &Run,
    steps: &mut Steps<L>,
) -> Result<GoalList, RuleStop>
    ensures exact { RuleGives (λ gs. gs) result (run_by run.now (assertion_simplified run.now.source)) }
{
    match simplify_assertion(alloc, run.source.get(), steps)? {
        Some(source) => Ok(run_with(alloc, run, source)?),
        None => Err(RuleStop::No(no_occurrence())),
    }
}

#[tactic(auto, using(floyd_pure_rewriting::proofs::RowAnswers::first_stops, floyd_pure_rewriting::proofs::RowAnswers::second_stops, floyd_pure_rewriting::proofs::RowAnswers::entail_is))]
fn simplify_entail<L: Ledger>(
    alloc: Global,
    entail: &Entail,
    steps: &mut Steps<L>,
) -> Result<GoalList, RuleStop>
    ensures exact { RuleGives (λ gs. gs) result (entail_by entail.now (assertion_simplified entail.now.source) (assertion_simplified entail.now.target)) }
{
    let source = simplify_assertion(alloc, entail.source.get(), steps)?;
    let target = simplify_assertion(alloc, entail.target.get(), steps)?;
    entail_with(alloc, entail, source, target)
}

fn is_truth(f: &Formula) -> bool
    ensures { result ≡ is_truth (form_of f.now) }
{
    match formula_head(f) {
        FormulaHead::True => true,
        _ => false,
    }
}

/// A goal whose target is True afterwards is closed, also where it was True before.
#[tactic(auto, using(crate::proofs::Stopping::pure_stops))]
fn simplify_pure<L: Ledger>(
    alloc: Global,
    pure: &Pure,
    steps: &mut Steps<L>,
) -> Result<GoalList, RuleStop>
    ensures exact { RuleGives (λ gs. gs) result (pure_simplified pure.now (formula_simplified pure.now.target)) }
{
    match simplify_formula(alloc, &pure.target, steps)? {
        Some(target) => {
            if is_truth(&target) {
                return Ok(GoalList::new(alloc));
            }
            Ok(pure_with(alloc, pure, target)?)
        }
        None => {
            if is_truth(&pure.target) {
                return Ok(GoalList::new(alloc));
            }
            Err(RuleStop::No(no_occurrence()))
        }
    }
}

fn simplify_goal<L: Ledger>(
    alloc: Global,
    goal: &Goal,
    steps: &mut Steps<L>,
) -> Result<GoalList, RuleStop>
    ensures exact { RuleGives (λ gs. gs) result (simplified_goal goal.now) }
{
    match goal {
        Goal::Run(run) => simplify_run(alloc, run, steps),
        Goal::Entail(entail) => simplify_entail(alloc, entail, steps),
        Goal::Pure(pure) => simplify_pure(alloc, pure, steps),
    }
}

/// Simplifies from the leaves up: in a Pure goal the target, and else what holds before, and in an Entail goal what is to hold
/// too. Operators on literals become literals where the result is below 2^126 in absolute value; `len`, `rev` and `nth` of
/// lists that are written out, `sum` of literals, and `++` with such a left side become what they are; and an equation of
/// identical terms becomes True. A Pure goal whose target is True is closed. Hypotheses, and what statements are left by, stay.
///
/// After pending existentials a goal in which nothing changes is refused by 725, and a term or formula that is too large by 802.
#[tactic(auto, using(crate::proofs::Simplifying::simpl_pending, crate::proofs::Simplifying::simpl_goes))]
pub fn do_simpl<L: Ledger>(
    alloc: Global,
    goal: &Goal,
    args: &Args,
    _defs: &Defs,
    _specs: &SpecTable,
    steps: &mut Steps<L>,
) -> Result<GoalList, RuleStop>
    ensures exact { IsAnswer (SimplRow goal.now args.now) result }
{
    if is_pending(goal) {
        return Err(RuleStop::No(intros_first()));
    }
    simplify_goal(alloc, goal, steps)
}

/// A goal is true where the simplified one is.
pub fn simpl_holds()
    ensures { KeepsTruth SimplRow }
{}
