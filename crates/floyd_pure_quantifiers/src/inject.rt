ghost use Rattle.std.specs.Prelude.{◌≡◌, IfOk};
ghost use Rattle.floyd_goal.specs.Answers.{IsAnswer};
ghost use Rattle.floyd_goal_formulas.specs.Said.{said as said_lem};
ghost use Rattle.floyd_pure_quantifiers.specs.EquationsClauses.{AreMade};
ghost use Rattle.floyd_pure_formulas.specs.Holds.{AddsTrue};
ghost use Rattle.floyd_pure_formulas.specs.Keeps.{KeepsTruth};
ghost use Rattle.floyd_pure_quantifiers.specs.Inject.{InjectRow, are_alike as are_alike_lem, equations as equations_lem, injected as injected_lem};

use crate::equations::{limits_of, of_two};
use floyd_assert_trees::{Defs, SpecTable};
use floyd_goal::{Args, Goal, GoalList, Said, intros_first, is_pending, says};
use floyd_pure_formulas::{named_by, no_such, with_these};
use floyd_text::{RuleStop, Steps};
use floyd_tree::{Formula, FormulaHead, FormulaList, Head, Operator, Term, head, kids};
use std::alloc::{AllocError, Global};
use std::sync::ledger::Ledger;

/// Whether both heads are the same constructor.
fn are_alike(a: &Head, b: &Head) -> bool
    ensures { result ≡ are_alike_lem a.now b.now }
{
    match (a, b) {
        (Head::Nil(_), Head::Nil(_)) => true,
        (Head::Leaf(_), Head::Leaf(_)) => true,
        (Head::Operator(Operator::Cons), Head::Operator(Operator::Cons)) => true,
        (Head::Operator(Operator::Node), Head::Operator(Operator::Node)) => true,
        (Head::Operator(Operator::Pair), Head::Operator(Operator::Pair)) => true,
        _ => false,
    }
}

/// Equations of the terms, one by one.
fn equations<L: Ledger>(
    alloc: Global,
    ts: &[Term],
    us: &[Term],
    steps: &mut Steps<L>,
) -> Result<FormulaList, AllocError>
    requires { AreMade (equations_lem ts.now us.now) }
    ensures { IfOk result (λ all. all ≡ equations_lem ts.now us.now) }
{
    let mut all = FormulaList::new(alloc);
    let count = ts.len().min(us.len());
    'terms: for i in 0..count {
        let equation = of_two(alloc, FormulaHead::Equal, &ts[i], &us[i], steps)?;
        all.push(equation)?;
    }
    Ok(all)
}

/// What the formula says of arguments, where it is an equation of terms with the same constructor.
fn injected<L: Ledger>(
    alloc: Global,
    f: &Formula,
    steps: &mut Steps<L>,
) -> Result<Option<FormulaList>, AllocError>
    ensures { IfOk result (λ all. all ≡ injected_lem (said_lem f.now)) }
{
    match says(f) {
        Said::Equation(a, b) => {
            if are_alike(head(a), head(b)) {
                limits_of(f);
                let all = equations(alloc, kids(a).as_slice(), kids(b).as_slice(), steps)?;
                Ok(Some(all))
            } else {
                Ok(None)
            }
        }
        _ => Ok(None),
    }
}

/// Makes of a hypothesis that is an equation of terms with the same constructor equations of their arguments, which are then
/// hypotheses.
pub fn do_inject<L: Ledger>(
    alloc: Global,
    goal: &Goal,
    args: &Args,
    _defs: &Defs,
    _specs: &SpecTable,
    steps: &mut Steps<L>,
) -> Result<GoalList, RuleStop>
    ensures exact { IsAnswer (InjectRow goal.now args.now) result }
{
    if is_pending(goal) {
        return Err(RuleStop::No(intros_first()));
    }
    let Some(hypothesis) = named_by(goal, args) else {
        return Err(RuleStop::No(no_such(args)));
    };
    match injected(alloc, hypothesis, steps)? {
        None => Err(RuleStop::No(no_such(args))),
        Some(more) => Ok(with_these(alloc, goal, more)?),
    }
}

/// The equations are true where the hypotheses are.
pub fn inject_adds()
    ensures { AddsTrue InjectRow }
{}

/// A goal is true where it is with the equations as hypotheses.
pub fn inject_holds()
    ensures { KeepsTruth InjectRow }
{}
