ghost use Rattle.floyd_goal.specs.Answers.{IsAnswer};
ghost use Rattle.floyd_pure_rewriting.specs.Changing.{entail_by, pure_by, run_by};
ghost use Rattle.floyd_pure_unfolding.specs.Row.{FunsTakeTerms, Row, unfolded_by, unfolded_goal};
ghost use Rattle.floyd_text.specs.Gives.{RuleGives};
ghost use Rattle.floyd_unfolding.specs.Assertions.{assertion_unfolded};
ghost use Rattle.floyd_unfolding.specs.Calls.{TakesTerms};
ghost use Rattle.floyd_unfolding.specs.Unfolded.{formula_unfolded};
ghost use Rattle.std.specs.Prelude.{bytes_eq};
ghost use Rattle.std.specs.Map.{lookup};

use floyd_assert_trees::{Defs, Fun, SpecTable};
use floyd_goal::{Args, Entail, Goal, GoalList, Pure, Run, intros_first, is_pending};
use floyd_pure_rewriting::{entail_with, no_occurrence, pure_with, run_with};
use floyd_text::{Name, RuleStop, Steps};
use floyd_unfolding::{unfold_assertion, unfold_formula};
use std::alloc::Global;
use std::sync::ledger::Ledger;

#[tactic(auto, using(crate::proofs::Stopping::run_stops))]
fn unfold_run<L: Ledger>(
    alloc: Global,
    name: &Name,
    own: &Fun,
    run: &Run,
    steps: &mut Steps<L>,
) -> Result<GoalList, RuleStop>
    requires takes { TakesTerms own.now }
    ensures exact { RuleGives (λ gs. gs) result (run_by run.now (assertion_unfolded name.now own.now run.now.source)) }
{
    match unfold_assertion(alloc, name, own, run.source.get(), steps)? {
        Some(source) => Ok(run_with(alloc, run, source)?),
        None => Err(RuleStop::No(no_occurrence())),
    }
}

#[tactic(auto, using(floyd_pure_rewriting::proofs::RowAnswers::first_stops, floyd_pure_rewriting::proofs::RowAnswers::second_stops, floyd_pure_rewriting::proofs::RowAnswers::entail_is))]
fn unfold_entail<L: Ledger>(
    alloc: Global,
    name: &Name,
    own: &Fun,
    entail: &Entail,
    steps: &mut Steps<L>,
) -> Result<GoalList, RuleStop>
    requires takes { TakesTerms own.now }
    ensures exact { RuleGives (λ gs. gs) result (entail_by entail.now (assertion_unfolded name.now own.now entail.now.source) (assertion_unfolded name.now own.now entail.now.target)) }
{
    let source = unfold_assertion(alloc, name, own, entail.source.get(), steps)?;
    let target = unfold_assertion(alloc, name, own, entail.target.get(), steps)?;
    entail_with(alloc, entail, source, target)
}

#[tactic(auto, using(crate::proofs::Stopping::pure_stops))]
fn unfold_pure<L: Ledger>(
    alloc: Global,
    name: &Name,
    own: &Fun,
    pure: &Pure,
    steps: &mut Steps<L>,
) -> Result<GoalList, RuleStop>
    requires takes { TakesTerms own.now }
    ensures exact { RuleGives (λ gs. gs) result (pure_by pure.now (formula_unfolded name.now own.now pure.now.target)) }
{
    match unfold_formula(alloc, name, own, &pure.target, steps)? {
        Some(target) => Ok(pure_with(alloc, pure, target)?),
        None => Err(RuleStop::No(no_occurrence())),
    }
}

fn unfold_goal<L: Ledger>(
    alloc: Global,
    name: &Name,
    own: &Fun,
    goal: &Goal,
    steps: &mut Steps<L>,
) -> Result<GoalList, RuleStop>
    requires takes { TakesTerms own.now }
    ensures exact { RuleGives (λ gs. gs) result (unfolded_goal name.now own.now goal.now) }
{
    match goal {
        Goal::Run(run) => unfold_run(alloc, name, own, run, steps),
        Goal::Entail(entail) => unfold_entail(alloc, name, own, entail, steps),
        Goal::Pure(pure) => unfold_pure(alloc, name, own, pure, steps),
    }
}

fn unfold_named<L: Ledger>(
    alloc: Global,
    name: &Name,
    defs: &Defs,
    goal: &Goal,
    steps: &mut Steps<L>,
) -> Result<GoalList, RuleStop>
    requires takes { FunsTakeTerms defs.now }
    ensures exact { RuleGives (λ gs. gs) result (unfolded_by name.now (lookup (bytes_eq name.now) defs.now.funs) goal.now) }
{
    match defs.funs.get(name) {
        None => Err(RuleStop::No(no_occurrence())),
        Some(own) => unfold_goal(alloc, name, own, goal, steps),
    }
}

/// Replaces each call of the FUN by its meaning: in a Pure goal in the target, and else in what holds before, and in an Entail
/// goal in what is to hold too. A call is looked at after its arguments, and what replaces it is not looked at again. A call of
/// a FUN with cases has a meaning where its first argument has a constructor at its head. Hypotheses, and what statements are
/// left by, stay.
///
/// After pending existentials a goal in which nothing changes is refused by 725, also where there is no such FUN, and a term or
/// formula that is too large by 802. Of items that are well formed, each variable in the term of a FUN has the sort of the term
/// in its place.
#[tactic(auto, using(crate::proofs::Stopping::unfold_pending, crate::proofs::Stopping::unfold_goes))]
pub fn do_unfold_fun<L: Ledger>(
    alloc: Global,
    goal: &Goal,
    args: &Args,
    defs: &Defs,
    _specs: &SpecTable,
    steps: &mut Steps<L>,
) -> Result<GoalList, RuleStop>
    requires takes { FunsTakeTerms defs.now }
    ensures exact { IsAnswer (Row defs.now goal.now args.now) result }
{
    if is_pending(goal) {
        return Err(RuleStop::No(intros_first()));
    }
    unfold_named(alloc, &args.name, defs, goal, steps)
}
