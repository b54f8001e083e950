ghost use Rattle.std.specs.Prelude.{◌≡◌, ◌++◌, map, IfOk, OnOk, None};
ghost use Rattle.floyd_goal.specs.Answers.{IsAnswer};
ghost use Rattle.floyd_goal.specs.Goals.{pure_goal as pure_goal_lem};
ghost use Rattle.floyd_goal_formulas.specs.Said.{said as said_lem};
ghost use Rattle.floyd_pure_formulas.specs.Keeps.{KeepsTruth};
ghost use Rattle.floyd_pure_quantifiers.specs.Split.{SplitRow, conjuncts as conjuncts_lem, parts as parts_lem};

use crate::equations::{limits_of, of_two};
use crate::instances::has_sort;
use floyd_assert_trees::{Defs, SpecTable};
use floyd_goal::{Args, Context, Goal, GoalList, Said, pure_goal, says, wrong_goal};
use floyd_text::{RuleStop, Steps};
use floyd_tree::{Formula, FormulaHead, FormulaList, Sort};
use std::alloc::{AllocError, Global};
use std::sync::ledger::Ledger;

/// Puts the conjuncts of a formula behind others. The height of the formula bounds the depth.
#[tactic(auto, using(crate::proofs::Taking::both_conjuncts, crate::proofs::Taking::alone_conjunct))]
fn add_conjuncts(f: &Formula, all: &mut FormulaList) -> Result<(), AllocError>
    ensures { OnOk result (all.new ≡ all.old ++ conjuncts_lem f.now) }
{
    match says(f) {
        Said::Both(a, b) => {
            add_conjuncts(a, all)?;
            add_conjuncts(b, all)
        }
        _ => {
            all.push(f.share()?)?;
            Ok(())
        }
    }
}

/// What is to be proved in place of the target.
#[tactic(auto, using(crate::proofs::Equating::left_half, crate::proofs::Equating::right_half))]
fn parts<L: Ledger>(
    alloc: Global,
    target: &Formula,
    steps: &mut Steps<L>,
) -> Result<Option<FormulaList>, AllocError>
    ensures { IfOk result (λ all. all ≡ parts_lem target.now (said_lem target.now)) }
{
    match says(target) {
        Said::Both(_, _) => {
            let mut all = FormulaList::new(alloc);
            add_conjuncts(target, &mut all)?;
            Ok(Some(all))
        }
        Said::Equation(a, b) => {
            if !has_sort(a, &Sort::Z) {
                return Ok(None);
            }
            limits_of(target);
            let mut all = FormulaList::new(alloc);
            all.push(of_two(alloc, FormulaHead::AtMost, a, b, steps)?)?;
            all.push(of_two(alloc, FormulaHead::AtMost, b, a, steps)?)?;
            Ok(Some(all))
        }
        _ => Ok(None),
    }
}

/// A goal for each of the formulas.
fn goals_for(alloc: Global, context: &Context, all: &[Formula]) -> Result<GoalList, AllocError>
    ensures { IfOk result (λ gs. gs ≡ map (pure_goal_lem context.now) all.now) }
{
    let mut goals = GoalList::new(alloc);
    'formulas: for target in all {
        goals.push(pure_goal(alloc, context, target.share()?)?)?;
    }
    Ok(goals)
}

/// Makes a goal of each conjunct, and of an equation of numbers both inequalities.
pub fn do_split<L: Ledger>(
    alloc: Global,
    goal: &Goal,
    args: &Args,
    _defs: &Defs,
    _specs: &SpecTable,
    steps: &mut Steps<L>,
) -> Result<GoalList, RuleStop>
    ensures exact { IsAnswer (SplitRow goal.now args.now) result }
{
    let Goal::Pure(pure) = goal else {
        return Err(RuleStop::No(wrong_goal()));
    };
    match parts(alloc, &pure.target, steps)? {
        None => Err(RuleStop::No(wrong_goal())),
        Some(all) => Ok(goals_for(alloc, &pure.context, all.as_slice())?),
    }
}

/// A goal is true where all its parts are.
pub fn split_holds()
    ensures { KeepsTruth SplitRow }
{}
