ghost use Rattle.floyd_assert_trees.specs.Meanings.{value_defs};
ghost use Rattle.floyd_goal.specs.Answers.{IsAnswer};
ghost use Rattle.floyd_goal_formulas.specs.Said.{said as said_lem};
ghost use Rattle.floyd_pure_formulas.specs.Keeps.{KeepsTruth};
ghost use Rattle.floyd_pure_formulas.specs.Instances.{IsFitIfPure, IsPure};
ghost use Rattle.floyd_pure_quantifiers.specs.BindingClauses.{TakesIfAny};
ghost use Rattle.floyd_pure_quantifiers.specs.Exists.{ExistsRow, witnessed as witnessed_lem};
ghost use Rattle.floyd_text.specs.Gives.{RuleGives};

use crate::instances::instance;
use floyd_assert_trees::{Defs, SpecTable};
use floyd_goal::{Args, Goal, GoalList, Pure, Said, says, wrong_goal};
use floyd_pure_formulas::alone;
use floyd_text::{RuleStop, Steps};
use floyd_tree::Term;
use std::alloc::Global;
use std::sync::ledger::Ledger;

/// The goal that the instance of the target is true.
fn witnessed<L: Ledger>(
    alloc: Global,
    pure: &Pure,
    terms: &[Term],
    steps: &mut Steps<L>,
) -> Result<GoalList, RuleStop>
    requires { TakesIfAny (said_lem pure.now.target) }
    ensures { RuleGives (λ gs. gs) result (witnessed_lem pure.now.context terms.now (said_lem pure.now.target)) }
{
    match says(&pure.target) {
        Said::ThereIs(x, s, body) => {
            let made = instance(alloc, x, s, body, terms, steps)?;
            Ok(alone(alloc, &pure.context, &made)?)
        }
        _ => Err(RuleStop::No(wrong_goal())),
    }
}

/// Asks for a proof of an `exists` at the term. The instance may be too large. Other goals than Pure ones have another call.
#[tactic(auto, using(crate::proofs::Taking::target_takes))]
pub fn do_exists<L: Ledger>(
    alloc: Global,
    goal: &Goal,
    args: &Args,
    defs: &Defs,
    _specs: &SpecTable,
    steps: &mut Steps<L>,
) -> Result<GoalList, RuleStop>
    requires kind { IsPure goal.now }
    requires well_formed { IsFitIfPure (value_defs defs.now) goal.now }
    ensures exact { IsAnswer (ExistsRow goal.now args.now) result }
{
    match goal {
        Goal::Pure(pure) => witnessed(alloc, pure, args.terms.as_slice(), steps),
        _ => Err(RuleStop::No(wrong_goal())),
    }
}

/// A goal is true where the instance of its target is.
pub fn exists_holds()
    ensures { KeepsTruth ExistsRow }
{}
