ghost use Rattle.std.specs.Prelude.{◌≡◌, IfOk, Some, None};
ghost use Rattle.std.specs.Option.{option_copied};
ghost use Rattle.floyd_clight.specs.declared.syntax.Stmt.{If};
ghost use Rattle.floyd_control.specs.ForwardIf.{Divides, DividesBy, Ifs, OfNext, OfStatement, Row, both as both_lem, divided as divided_lem, exit_to as exit_to_lem, is_followed as is_followed_lem, last as last_lem};
ghost use Rattle.floyd_control.specs.Parts.{Named, behind as behind_lem};
ghost use Rattle.floyd_goal.specs.Answers.{IsAnswer};
ghost use Rattle.std.specs.Prelude.{slice_get, Ok};

use crate::exits::{share_exit, with_normal};
use crate::parts::{all_of, part_goal, runs_from};
use crate::running::Running;
use floyd_assert::{Assertion, Defs, SpecTable};
use floyd_clight::{Expr, Stmt};
use floyd_conditions::{Branches, Condition, condition};
use floyd_goal_runs::{
    Args, Context, Exit, Goal, GoalList, intros_first, needed, under_sides, wrong_goal,
};
use floyd_text::{RuleStop, Shared, Steps};
use std::alloc::{AllocError, Global};
use std::sync::ledger::Ledger;

/// The two branches of a test.
#[derive(Clone, Copy)]
struct Forks<'a> {
    met: &'a Stmt,
    unmet: &'a Stmt,
}

/// The exit of the branches: the assertion, if there is one, and else the normal exit.
fn exit_to(at: Running<'_>, a: Option<&Assertion>) -> Result<Exit, AllocError>
    ensures { IfOk result (λ e. e ≡ exit_to_lem at.entry.run.now (option_copied a.entry)) }
{
    match a {
        None => share_exit(&at.run.exits.get().normal),
        Some(a) => Ok(Exit::To(Shared::new(at.alloc, a.share(at.alloc)?)?)),
    }
}

/// The goals of both branches.
fn both(
    at: Running<'_>,
    exit: Exit,
    b: &Branches,
    forks: Forks<'_>,
    context: &Context,
) -> Result<GoalList, AllocError>
    ensures { IfOk result (λ gs. gs ≡ both_lem at.entry.run.now exit b.now forks.entry.met.now forks.entry.unmet.now context.now) }
{
    let exits = Shared::new(at.alloc, with_normal(at.alloc, at.run.exits.get(), exit)?)?;
    let source = &at.run.source;
    let met = all_of(at.alloc, forks.met)?;
    let unmet = all_of(at.alloc, forks.unmet)?;
    let mut goals = GoalList::new(at.alloc);
    goals.push(part_goal(at.alloc, context, source, &exits, &b.met, met)?)?;
    goals.push(part_goal(at.alloc, context, source, &exits, &b.unmet, unmet)?)?;
    Ok(goals)
}

/// What follows from the assertion, if there is one.
fn last(at: Running<'_>, a: Option<&Assertion>, context: &Context) -> Result<GoalList, AllocError>
    ensures { IfOk result (λ gs. gs ≡ last_lem at.entry.run.now (option_copied a.entry) context.now) }
{
    let mut goals = GoalList::new(at.alloc);
    if let Some(a) = a {
        let exits = at.run.exits.share()?;
        goals.push(runs_from(at.alloc, context, a, at.behind()?, exits)?)?;
    }
    Ok(goals)
}

fn divided(
    at: Running<'_>,
    a: Option<&Assertion>,
    b: &Branches,
    forks: Forks<'_>,
    context: &Context,
) -> Result<GoalList, AllocError>
    ensures { IfOk result (λ gs. divided_lem at.entry.run.now (option_copied a.entry) b.now forks.entry.met.now forks.entry.unmet.now context.now ≡ Ok gs) }
{
    let exit = exit_to(at, a)?;
    let mut goals = both(at, exit, b, forks, context)?;
    goals.append(last(at, a, context)?)?;
    Ok(goals)
}

fn divides_by<L: Ledger>(
    at: Running<'_>,
    a: Option<&Assertion>,
    forks: Forks<'_>,
    c: &Condition,
    steps: &mut Steps<L>,
) -> Result<GoalList, RuleStop>
    ensures exact { IsAnswer (DividesBy at.entry.run.now (option_copied a.entry) forks.entry.met.now forks.entry.unmet.now c.now) result }
{
    let formulas = c.needs.sides.as_slice();
    let (side, context) = under_sides(at.alloc, &at.run.context, formulas, steps)?;
    let goals = divided(at, a, &c.branches, forks, &context)?;
    Ok(needed(
        at.alloc,
        &at.run.source,
        c.needs.valid.as_slice(),
        side,
        &context,
        goals,
    )?)
}

#[tactic(auto, using(floyd_goal_parts::proofs::RowLemmas::row_stops, floyd_goal_parts::proofs::RowLemmas::row_goes))]
fn divides_value<L: Ledger>(
    at: Running<'_>,
    a: Option<&Assertion>,
    e: &Expr,
    forks: Forks<'_>,
    steps: &mut Steps<L>,
) -> Result<GoalList, RuleStop>
    ensures exact { IsAnswer (Divides at.entry.defs.now.structs at.entry.run.now (option_copied a.entry) e.now forks.entry.met.now forks.entry.unmet.now) result }
{
    let c = condition(at.reader(), e, steps)?;
    divides_by(at, a, forks, &c, steps)
}

/// The branches, once the existentials have names.
fn divides<L: Ledger>(
    at: Running<'_>,
    a: Option<&Assertion>,
    e: &Expr,
    forks: Forks<'_>,
    steps: &mut Steps<L>,
) -> Result<GoalList, RuleStop>
    ensures exact { IsAnswer (Named at.entry.run.now (Divides at.entry.defs.now.structs at.entry.run.now (option_copied a.entry) e.now forks.entry.met.now forks.entry.unmet.now)) result }
{
    if at.is_pending() {
        Err(RuleStop::No(intros_first()))
    } else {
        divides_value(at, a, e, forks, steps)
    }
}

/// Whether statements stand behind the next one.
#[tactic(auto, using(crate::proofs::RowAnswers::followed))]
fn is_followed(at: Running<'_>) -> Result<bool, AllocError>
    ensures { IfOk result (λ f. f ≡ is_followed_lem (behind_lem at.entry.run.now)) }
{
    Ok(!at.behind()?.is_empty())
}

fn ifs<L: Ledger>(
    at: Running<'_>,
    given: &[Assertion],
    e: &Expr,
    forks: Forks<'_>,
    steps: &mut Steps<L>,
) -> Result<GoalList, RuleStop>
    ensures exact { IsAnswer (Ifs at.entry.defs.now.structs at.entry.run.now given.now e.now forks.entry.met.now forks.entry.unmet.now) result }
{
    match given {
        [] => {
            if is_followed(at)? {
                Err(RuleStop::No(wrong_goal()))
            } else {
                divides(at, None, e, forks, steps)
            }
        }
        [a] => divides(at, Some(a), e, forks, steps),
        [_, _, ..] => Err(RuleStop::No(wrong_goal())),
    }
}

fn of_statement<L: Ledger>(
    at: Running<'_>,
    given: &[Assertion],
    s: &Stmt,
    steps: &mut Steps<L>,
) -> Result<GoalList, RuleStop>
    ensures exact { IsAnswer (OfStatement at.entry.defs.now.structs at.entry.run.now given.now s.now) result }
{
    match s {
        Stmt::If(e, met, unmet) => {
            let forks = Forks {
                met: met.get(),
                unmet: unmet.get(),
            };
            ifs(at, given, e, forks, steps)
        }
        _ => Err(RuleStop::No(wrong_goal())),
    }
}

fn of_next<L: Ledger>(
    at: Running<'_>,
    given: &[Assertion],
    steps: &mut Steps<L>,
) -> Result<GoalList, RuleStop>
    ensures exact { IsAnswer (OfNext at.entry.defs.now.structs at.entry.run.now given.now (slice_get at.entry.run.now.rest 0)) result }
{
    match at.run.rest.first() {
        Some(s) => of_statement(at, given, s, steps),
        None => Err(RuleStop::No(wrong_goal())),
    }
}

/// Takes a branch apart: each of its statements runs under its test to the assertion that the command is given, and what
/// follows runs from there. Without an assertion no statement may follow, and both run to the normal exit.
pub fn do_forward_if<L: Ledger>(
    alloc: Global,
    goal: &Goal,
    args: &Args,
    defs: &Defs,
    _specs: &SpecTable,
    steps: &mut Steps<L>,
) -> Result<GoalList, RuleStop>
    ensures exact { IsAnswer (Row defs.now.structs goal.now args.now) result }
{
    match goal {
        Goal::Run(run) => of_next(
            Running { alloc, run, defs },
            args.assertions.as_slice(),
            steps,
        ),
        Goal::Entail(_) => Err(RuleStop::No(wrong_goal())),
        Goal::Pure(_) => Err(RuleStop::No(wrong_goal())),
    }
}
