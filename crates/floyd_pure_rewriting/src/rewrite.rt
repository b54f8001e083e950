ghost use Rattle.std.specs.Prelude.{◌≡◌};
ghost use Rattle.floyd_goal.specs.Answers.{IsAnswer};
ghost use Rattle.floyd_pure_formulas.specs.Keeps.{KeepsTruth};
ghost use Rattle.floyd_pure_rewriting.specs.Changing.{entail_by, pure_by, run_by};
ghost use Rattle.floyd_pure_rewriting.specs.Laws.{RewritingKeeps};
ghost use Rattle.floyd_pure_rewriting.specs.Rewrite.{RewriteRow, Rewrites, by_sides as by_sides_lem};
ghost use Rattle.floyd_rewriting.specs.Rewritten.{assertion_rewritten, formula_rewritten};
ghost use Rattle.floyd_text.specs.Gives.{RuleGives};
ghost use Rattle.floyd_tree.specs.WellSorted.{sort_of};

use crate::changing::{entail_with, no_occurrence, pure_with, run_with};
use floyd_assert_trees::{Defs, SpecTable};
use floyd_goal::{Args, Entail, Goal, GoalList, Pure, Run, Said, intros_first, is_pending, says};
use floyd_pure_formulas::{named_by, no_such};
use floyd_rewriting::{rewrite_assertion, rewrite_formula};
use floyd_text::{RuleStop, Steps};
use floyd_tree::{Formula, Term, formula_size};
use std::alloc::Global;
use std::sync::ledger::Ledger;

fn rewrite_run<L: Ledger>(
    alloc: Global,
    run: &Run,
    from: &Term,
    to: &Term,
    steps: &mut Steps<L>,
) -> Result<GoalList, RuleStop>
    requires { sort_of from.now ≡ sort_of to.now }
    ensures { RuleGives (λ gs. gs) result (run_by run.now (assertion_rewritten from.now to.now run.now.source)) }
{
    match rewrite_assertion(alloc, run.source.get(), from, to, steps) {
        Ok(Some(source)) => Ok(run_with(alloc, run, source)?),
        Ok(None) => Err(RuleStop::No(no_occurrence())),
        Err(stop) => Err(stop),
    }
}

#[tactic(auto, using(crate::proofs::RowAnswers::first_stops, crate::proofs::RowAnswers::second_stops, crate::proofs::RowAnswers::entail_is))]
fn rewrite_entail<L: Ledger>(
    alloc: Global,
    entail: &Entail,
    from: &Term,
    to: &Term,
    steps: &mut Steps<L>,
) -> Result<GoalList, RuleStop>
    requires { sort_of from.now ≡ sort_of to.now }
    ensures { RuleGives (λ gs. gs) result (entail_by entail.now (assertion_rewritten from.now to.now entail.now.source) (assertion_rewritten from.now to.now entail.now.target)) }
{
    let source = match rewrite_assertion(alloc, entail.source.get(), from, to, steps) {
        Ok(source) => source,
        Err(stop) => return Err(stop),
    };
    match rewrite_assertion(alloc, entail.target.get(), from, to, steps) {
        Ok(target) => entail_with(alloc, entail, source, target),
        Err(stop) => Err(stop),
    }
}

fn rewrite_pure<L: Ledger>(
    alloc: Global,
    pure: &Pure,
    from: &Term,
    to: &Term,
    steps: &mut Steps<L>,
) -> Result<GoalList, RuleStop>
    requires { sort_of from.now ≡ sort_of to.now }
    ensures { RuleGives (λ gs. gs) result (pure_by pure.now (formula_rewritten from.now to.now pure.now.target)) }
{
    match rewrite_formula(alloc, &pure.target, from, to, steps) {
        Ok(Some(target)) => Ok(pure_with(alloc, pure, target)?),
        Ok(None) => Err(RuleStop::No(no_occurrence())),
        Err(stop) => Err(stop),
    }
}

/// The goal with one side in the place of every occurrence of the other.
fn by_sides<L: Ledger>(
    alloc: Global,
    goal: &Goal,
    from: &Term,
    to: &Term,
    steps: &mut Steps<L>,
) -> Result<GoalList, RuleStop>
    requires { sort_of from.now ≡ sort_of to.now }
    ensures { RuleGives (λ gs. gs) result (by_sides_lem from.now to.now goal.now) }
{
    match goal {
        Goal::Run(run) => rewrite_run(alloc, run, from, to, steps),
        Goal::Entail(entail) => rewrite_entail(alloc, entail, from, to, steps),
        Goal::Pure(pure) => rewrite_pure(alloc, pure, from, to, steps),
    }
}

/// The goals where this is the hypothesis.
#[tactic(auto, using(crate::proofs::RowAnswers::rewrites_back, crate::proofs::RowAnswers::rewrites_forth, crate::proofs::RowAnswers::rewrites_other, crate::proofs::Rewriting::row_fits, crate::proofs::Rewriting::same_sorts, crate::proofs::Rewriting::same_sorts_back))]
fn by_equation<L: Ledger>(
    alloc: Global,
    goal: &Goal,
    args: &Args,
    hypothesis: &Formula,
    steps: &mut Steps<L>,
) -> Result<GoalList, RuleStop>
    ensures { IsAnswer (Rewrites goal.now args.now hypothesis.now) result }
{
    let _size = formula_size(hypothesis);
    let _height = hypothesis.height();
    match says(hypothesis) {
        Said::Equation(a, b) => {
            if args.back {
                by_sides(alloc, goal, b, a, steps)
            } else {
                by_sides(alloc, goal, a, b, steps)
            }
        }
        _ => Err(RuleStop::No(no_such(args))),
    }
}

/// Rewrites by a hypothesis that is an equation: every occurrence of its left side becomes its right side, or the other way
/// round where the command says so. In a Pure goal that is in the target, and else in what holds before, and in an Entail goal
/// behind too. Hypotheses, and what statements are left by, stay.
///
/// After pending existentials a hypothesis is refused by 724 where it is absent or no equation, a goal without an occurrence by
/// 725, and a term or formula that is too large by 802.
#[tactic(auto, using(crate::proofs::RowAnswers::rewrite_pending, crate::proofs::RowAnswers::rewrite_none, crate::proofs::RowAnswers::rewrite_named))]
pub fn do_rewrite<L: Ledger>(
    alloc: Global,
    goal: &Goal,
    args: &Args,
    _defs: &Defs,
    _specs: &SpecTable,
    steps: &mut Steps<L>,
) -> Result<GoalList, RuleStop>
    ensures exact { IsAnswer (RewriteRow goal.now args.now) result }
{
    if is_pending(goal) {
        return Err(RuleStop::No(intros_first()));
    }
    match named_by(goal, args) {
        None => Err(RuleStop::No(no_such(args))),
        Some(hypothesis) => by_equation(alloc, goal, args, hypothesis, steps),
    }
}

/// A formula is true after the rewriting exactly where it was, if both terms have one value.
pub fn rewriting_keeps()
    ensures { RewritingKeeps }
{}

/// A goal is true where the rewritten one is.
pub fn rewrite_holds()
    ensures { KeepsTruth RewriteRow }
{}
