ghost use Rattle.std.specs.Prelude.{◌≡◌, Ok, drop as drop_lem};
ghost use Rattle.floyd_text.specs.Gives.{RuleGives};
ghost use Rattle.floyd_stub_forward.specs.ForwardClauses.{taken, turn_of as turn_of_lem, of_statement as of_statement_lem, of_set};

use crate::evaluation::evaluate;
use crate::returning::forward_return;
use crate::setting::forward_set;
use floyd_clight::{Expr, Stmt};
use floyd_stub_assert::{Locals, Term};
use floyd_stub_goal::{GoalList, Run, wrong_goal};
use floyd_text::{Name, RuleStop};
use std::alloc::Global;

/// What the next statement does.
pub enum Turn {
    /// It sets a temporary to a term.
    Sets(Name, Term),
    /// It returns a term.
    Returns(Term),
}

impl Turn {
    /// The goals that the next statement leaves.
    pub fn goals(self, alloc: Global, run: Run) -> Result<GoalList, RuleStop>
        ensures { RuleGives (λ goals. goals) result (Ok (taken run.context run.source run.exits (drop_lem 1 run.rest) self)) }
    {
        match self {
            Turn::Sets(name, term) => Ok(forward_set(alloc, run, name, term)?),
            Turn::Returns(value) => Ok(forward_return(alloc, run, value)?),
        }
    }
}

impl Drop for Turn {
    fn drop(self) {
        match self {
            Turn::Sets(name, term) => {
                drop(name);
                drop(term);
            }
            Turn::Returns(term) => drop(term),
        }
    }
}

/// What the next statement of a goal does.
pub fn turn_of(alloc: Global, run: &Run) -> Result<Turn, RuleStop>
    ensures { RuleGives (λ turn. turn) result (turn_of_lem run.now.source.local run.now.rest) }
{
    match run.rest.first() {
        Some(s) => of_statement(alloc, &run.source.local, s),
        None => Err(RuleStop::No(wrong_goal())),
    }
}

fn of_statement(alloc: Global, locals: &Locals, s: &Stmt) -> Result<Turn, RuleStop>
    ensures { RuleGives (λ turn. turn) result (of_statement_lem locals.now s.now) }
{
    match s {
        Stmt::Set(name, e) => sets(alloc, locals, name, e),
        Stmt::Return(Some(e)) => Ok(Turn::Returns(evaluate(alloc, locals, e)?)),
        _ => Err(RuleStop::No(wrong_goal())),
    }
}

fn sets(alloc: Global, locals: &Locals, name: &Name, e: &Expr) -> Result<Turn, RuleStop>
    ensures { RuleGives (λ turn. turn) result (of_set locals.now name.now e.now) }
{
    let term = evaluate(alloc, locals, e)?;
    Ok(Turn::Sets(name.share()?, term))
}
