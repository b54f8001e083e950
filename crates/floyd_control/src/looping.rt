ghost use Rattle.std.specs.Prelude.{◌≡◌, IfOk, Ok, slice_get};
ghost use Rattle.floyd_clight.specs.Flat.{flat as flat_lem};
ghost use Rattle.floyd_control.specs.ForwardIf.{is_followed as is_followed_lem};
ghost use Rattle.floyd_control.specs.ForwardLoop.{Loops, LoopsWith, OfNext, OfStatement, Row, first_exits as first_exits_lem, entered as entered_lem, first_goal as first_goal_lem, left_goal as left_goal_lem, looped as looped_lem, second_exits as second_exits_lem, second_goal as second_goal_lem};
ghost use Rattle.floyd_control.specs.LoopClauses.{given as given_lem};
ghost use Rattle.floyd_control.specs.Parts.{Named};
ghost use Rattle.floyd_goal.specs.Answers.{IsAnswer};
ghost use Rattle.floyd_goal_trees.specs.declared.exits.Exit.TheVariants as x;

use crate::exits::share_return;
use crate::parts::{all_of, runs_from};
use crate::running::Running;
use floyd_assert::{Assertion, Defs, SpecTable};
use floyd_clight::Stmt;
use floyd_goal_runs::{
    Args, Context, Entail, Exit, Exits, Goal, GoalList, intros_first, share_context, wrong_goal,
};
use floyd_text::{RuleStop, Shared, Steps};
use std::alloc::{AllocError, Global};
use std::sync::ledger::Ledger;

/// What the command is given: what holds before the first part, before the second one, and behind the loop.
#[derive(Clone, Copy)]
pub(crate) struct Given<'a> {
    pub(crate) invariant: &'a Assertion,
    pub(crate) between: &'a Assertion,
    pub(crate) left: &'a Assertion,
}

/// The two parts of a loop.
#[derive(Clone, Copy)]
struct Halves<'a> {
    first: &'a Stmt,
    second: &'a Stmt,
}

pub(crate) fn to(alloc: Global, a: &Assertion) -> Result<Exit, AllocError>
    ensures { IfOk result (λ e. e ≡ x.To a.now) }
{
    Ok(Exit::To(Shared::new(alloc, a.share(alloc)?)?))
}

/// The exits of the first part.
fn first_exits(at: Running<'_>, given: Given<'_>) -> Result<Exits, AllocError>
    ensures { IfOk result (λ e. e ≡ first_exits_lem at.entry.run.now.exits (given_lem given.entry)) }
{
    let normal = to(at.alloc, given.between)?;
    let brk = to(at.alloc, given.left)?;
    let cont = to(at.alloc, given.between)?;
    let ret = share_return(at.alloc, &at.run.exits.get().ret)?;
    Ok(Exits {
        normal,
        brk,
        cont,
        ret,
    })
}

/// The exits of the second part.
fn second_exits(at: Running<'_>, given: Given<'_>) -> Result<Exits, AllocError>
    ensures { IfOk result (λ e. e ≡ second_exits_lem at.entry.run.now.exits (given_lem given.entry)) }
{
    let normal = to(at.alloc, given.invariant)?;
    let brk = to(at.alloc, given.left)?;
    let cont = Exit::None;
    let ret = share_return(at.alloc, &at.run.exits.get().ret)?;
    Ok(Exits {
        normal,
        brk,
        cont,
        ret,
    })
}

/// The goal that the source gives what holds before the first part.
pub(crate) fn entered(at: Running<'_>, context: &Context, a: &Assertion) -> Result<Goal, AllocError>
    ensures { IfOk result (λ g. g ≡ entered_lem at.entry.run.now context.now a.now) }
{
    let context = share_context(at.alloc, context)?;
    let source = at.run.source.share()?;
    let target = Shared::new(at.alloc, a.share(at.alloc)?)?;
    Ok(Goal::Entail(Entail {
        context,
        source,
        target,
    }))
}

fn first_goal(
    at: Running<'_>,
    context: &Context,
    given: Given<'_>,
    first: &Stmt,
) -> Result<Goal, AllocError>
    ensures { IfOk result (λ g. g ≡ first_goal_lem at.entry.run.now context.now (given_lem given.entry) first.now) }
{
    let exits = Shared::new(at.alloc, first_exits(at, given)?)?;
    let rest = all_of(at.alloc, first)?;
    runs_from(at.alloc, context, given.invariant, rest, exits)
}

fn second_goal(
    at: Running<'_>,
    context: &Context,
    given: Given<'_>,
    second: &Stmt,
) -> Result<Goal, AllocError>
    ensures { IfOk result (λ g. g ≡ second_goal_lem at.entry.run.now context.now (given_lem given.entry) second.now) }
{
    let exits = Shared::new(at.alloc, second_exits(at, given)?)?;
    let rest = all_of(at.alloc, second)?;
    runs_from(at.alloc, context, given.between, rest, exits)
}

fn left_goal(at: Running<'_>, context: &Context, given: Given<'_>) -> Result<Goal, AllocError>
    ensures { IfOk result (λ g. g ≡ left_goal_lem at.entry.run.now context.now (given_lem given.entry)) }
{
    let exits = at.run.exits.share()?;
    runs_from(at.alloc, context, given.left, at.behind()?, exits)
}

fn looped(
    at: Running<'_>,
    context: &Context,
    given: Given<'_>,
    halves: Halves<'_>,
) -> Result<GoalList, AllocError>
    ensures { IfOk result (λ gs. gs ≡ looped_lem at.entry.run.now context.now (given_lem given.entry) halves.entry.first.now halves.entry.second.now) }
{
    let mut goals = GoalList::new(at.alloc);
    goals.push(entered(at, context, given.invariant)?)?;
    goals.push(first_goal(at, context, given, halves.first)?)?;
    goals.push(second_goal(at, context, given, halves.second)?)?;
    goals.push(left_goal(at, context, given)?)?;
    Ok(goals)
}

/// A loop, once the existentials have names.
#[tactic(auto, using(crate::proofs::RowAnswers::loop_answers))]
fn loops(at: Running<'_>, given: Given<'_>, halves: Halves<'_>) -> Result<GoalList, RuleStop>
    ensures exact { IsAnswer (Named at.entry.run.now (Loops at.entry.run.now (given_lem given.entry) halves.entry.first.now halves.entry.second.now)) result }
{
    if at.is_pending() {
        return Err(RuleStop::No(intros_first()));
    }
    let context = at.run.context.after_command(at.alloc)?;
    Ok(looped(at, &context, given, halves)?)
}

/// Whether a part of a loop has statements.
pub(crate) fn is_followed(alloc: Global, s: &Stmt) -> Result<bool, AllocError>
    ensures { IfOk result (λ f. f ≡ is_followed_lem (flat_lem s.now)) }
{
    Ok(!all_of(alloc, s)?.is_empty())
}

fn loops_with(
    at: Running<'_>,
    given: &[Assertion],
    halves: Halves<'_>,
) -> Result<GoalList, RuleStop>
    ensures exact { IsAnswer (LoopsWith at.entry.run.now given.now halves.entry.first.now halves.entry.second.now) result }
{
    match given {
        [a, q] => {
            if is_followed(at.alloc, halves.second)? {
                Err(RuleStop::No(wrong_goal()))
            } else {
                let given = Given {
                    invariant: a,
                    between: a,
                    left: q,
                };
                loops(at, given, halves)
            }
        }
        [a, c, q] => {
            let given = Given {
                invariant: a,
                between: c,
                left: q,
            };
            loops(at, given, halves)
        }
        _ => Err(RuleStop::No(wrong_goal())),
    }
}

fn of_statement(at: Running<'_>, given: &[Assertion], s: &Stmt) -> Result<GoalList, RuleStop>
    ensures exact { IsAnswer (OfStatement at.entry.run.now given.now s.now) result }
{
    match s {
        Stmt::Loop(first, second) => {
            let halves = Halves {
                first: first.get(),
                second: second.get(),
            };
            loops_with(at, given, halves)
        }
        _ => Err(RuleStop::No(wrong_goal())),
    }
}

fn of_next(at: Running<'_>, given: &[Assertion]) -> Result<GoalList, RuleStop>
    ensures exact { IsAnswer (OfNext at.entry.run.now given.now (slice_get at.entry.run.now.rest 0)) result }
{
    match at.run.rest.first() {
        Some(s) => of_statement(at, given, s),
        None => Err(RuleStop::No(wrong_goal())),
    }
}

/// Takes a loop apart. The command is given what holds before the first part, what holds before the second one, which may be
/// left out where the second part is empty, and what holds behind the loop, in this order. `break` leads behind the loop, and
/// `continue` in the first part to the second one; in the second one it is not allowed.
pub fn do_forward_loop<L: Ledger>(
    alloc: Global,
    goal: &Goal,
    args: &Args,
    defs: &Defs,
    _specs: &SpecTable,
    _steps: &mut Steps<L>,
) -> Result<GoalList, RuleStop>
    ensures exact { IsAnswer (Row goal.now args.now) result }
{
    match goal {
        Goal::Run(run) => of_next(Running { alloc, run, defs }, args.assertions.as_slice()),
        Goal::Entail(_) => Err(RuleStop::No(wrong_goal())),
        Goal::Pure(_) => Err(RuleStop::No(wrong_goal())),
    }
}
