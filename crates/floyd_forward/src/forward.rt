ghost use Rattle.floyd_forward.specs.Forward.{AtEnd, OfNext, OfStatement, Row};
ghost use Rattle.floyd_goal.specs.Answers.{IsAnswer};
ghost use Rattle.std.specs.Prelude.{slice_get};

use crate::assigning::assigns;
use crate::leaving::leaves;
use crate::returning::{returns, returns_nothing};
use crate::running::Running;
use crate::setting::sets;
use floyd_assert::{Defs, SpecTable};
use floyd_clight::Stmt;
use floyd_goal_runs::{Args, Exit, Goal, GoalList, wrong_goal};
use floyd_text::{RuleStop, Steps};
use std::alloc::Global;
use std::sync::ledger::Ledger;

/// What the next statement makes of the goal.
fn of_statement<L: Ledger>(
    at: Running<'_>,
    s: &Stmt,
    steps: &mut Steps<L>,
) -> Result<GoalList, RuleStop>
    ensures exact { IsAnswer (OfStatement at.entry.defs.now.structs at.entry.run.now s.now) result }
{
    let exits = at.run.exits.get();
    match s {
        Stmt::Set(name, e) => sets(at, name, e, steps),
        Stmt::Assign(p, e) => assigns(at, p, e, steps),
        Stmt::Return(e) => returns(at, e, steps),
        Stmt::Break => leaves(at, &exits.brk),
        Stmt::Continue => leaves(at, &exits.cont),
        _ => Err(RuleStop::No(wrong_goal())),
    }
}

/// What the function's end makes of a goal without statements.
fn at_end<L: Ledger>(at: Running<'_>, steps: &mut Steps<L>) -> Result<GoalList, RuleStop>
    ensures exact { IsAnswer (AtEnd at.entry.defs.now.structs at.entry.run.now at.entry.run.now.exits.normal) result }
{
    match &at.run.exits.get().normal {
        Exit::End => returns_nothing(at, steps),
        Exit::To(_) => Err(RuleStop::No(wrong_goal())),
        Exit::None => Err(RuleStop::No(wrong_goal())),
    }
}

fn of_next<L: Ledger>(at: Running<'_>, steps: &mut Steps<L>) -> Result<GoalList, RuleStop>
    ensures exact { IsAnswer (OfNext at.entry.defs.now.structs at.entry.run.now (slice_get at.entry.run.now.rest 0)) result }
{
    match at.run.rest.first() {
        Some(s) => of_statement(at, s, steps),
        None => at_end(at, steps),
    }
}

/// Does the next statement of a Run goal: a set, from memory too, an assignment, a return, break or continue, and the end of
/// the function where no statement is left. What an expression needs is a goal of its own, first, and a hypothesis of the
/// others. Any other statement is refused, as a goal of another kind is.
pub fn do_forward<L: Ledger>(
    alloc: Global,
    goal: &Goal,
    _args: &Args,
    defs: &Defs,
    _specs: &SpecTable,
    steps: &mut Steps<L>,
) -> Result<GoalList, RuleStop>
    ensures exact { IsAnswer (Row defs.now.structs goal.now) result }
{
    match goal {
        Goal::Run(run) => of_next(Running { alloc, run, defs }, steps),
        Goal::Entail(_) => Err(RuleStop::No(wrong_goal())),
        Goal::Pure(_) => Err(RuleStop::No(wrong_goal())),
    }
}
