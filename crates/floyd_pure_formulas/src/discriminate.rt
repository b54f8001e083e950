ghost use Rattle.std.specs.Prelude.{◌≡◌};
ghost use Rattle.floyd_goal.specs.Answers.{IsAnswer};
ghost use Rattle.floyd_goal_formulas.specs.Said.{said as said_lem};
ghost use Rattle.floyd_pure_formulas.specs.Discriminate.{DiscriminateRow, differ as differ_lem, is_refuted as is_refuted_lem};
ghost use Rattle.floyd_pure_formulas.specs.Holds.{Refutes};
ghost use Rattle.floyd_pure_formulas.specs.Keeps.{KeepsTruth};

use crate::rows::{named_by, no_such};
use floyd_assert_trees::{Defs, SpecTable};
use floyd_goal::{Args, Goal, GoalList, Said, intros_first, is_pending, says};
use floyd_text::{RuleStop, Steps};
use floyd_tree::{Formula, Head, Operator, head};
use std::alloc::Global;
use std::sync::ledger::Ledger;

/// Whether no term with the first head equals one with the second.
fn differ(a: &Head, b: &Head) -> bool
    ensures { result ≡ differ_lem a.now b.now }
{
    match (a, b) {
        (Head::Literal(m), Head::Literal(n)) => m != n,
        (Head::Nil(_), Head::Operator(Operator::Cons)) => true,
        (Head::Operator(Operator::Cons), Head::Nil(_)) => true,
        (Head::Leaf(_), Head::Operator(Operator::Node)) => true,
        (Head::Operator(Operator::Node), Head::Leaf(_)) => true,
        _ => false,
    }
}

/// Whether the formula is an equation of terms that differ by their heads.
fn is_refuted(f: &Formula) -> bool
    ensures { result ≡ is_refuted_lem (said_lem f.now) }
{
    match says(f) {
        Said::Equation(a, b) => differ(head(a), head(b)),
        _ => false,
    }
}

/// Closes a goal by a hypothesis that is an equation of unequal literals, or of unequal constructors.
pub fn do_discriminate<L: Ledger>(
    alloc: Global,
    goal: &Goal,
    args: &Args,
    _defs: &Defs,
    _specs: &SpecTable,
    _steps: &mut Steps<L>,
) -> Result<GoalList, RuleStop>
    ensures exact { IsAnswer (DiscriminateRow goal.now args.now) result }
{
    if is_pending(goal) {
        return Err(RuleStop::No(intros_first()));
    }
    match named_by(goal, args) {
        None => Err(RuleStop::No(no_such(args))),
        Some(hypothesis) => {
            if is_refuted(hypothesis) {
                Ok(GoalList::new(alloc))
            } else {
                Err(RuleStop::No(no_such(args)))
            }
        }
    }
}

/// No data make the hypotheses of a goal true that is closed.
pub fn discriminate_refutes()
    ensures { Refutes DiscriminateRow }
{}

/// A goal that is closed is true.
pub fn discriminate_holds()
    ensures { KeepsTruth DiscriminateRow }
{}
