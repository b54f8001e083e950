ghost use Rattle.std.specs.Prelude.{◌≡◌, IfOk};
ghost use Rattle.floyd_control.specs.ForwardWhile.{is_break as is_break_lem, passes as passes_lem, test_of as test_of_lem, tested as tested_lem, while_of as while_of_lem};

use crate::looping::is_followed;
use crate::parts::all_of;
use floyd_clight::{Expr, Stmt, flat};
use floyd_goal_runs::Rest;
use std::alloc::{AllocError, Global};

/// `break` alone.
fn is_break(ss: &[Stmt]) -> bool
    ensures { result ≡ is_break_lem ss.now }
{
    match ss {
        [only] => matches!(only, Stmt::Break),
        _ => false,
    }
}

/// Whether the first branch has no statements, and the second one breaks.
fn passes(alloc: Global, met: &Stmt, unmet: &Stmt) -> Result<bool, AllocError>
    ensures { IfOk result (λ p. p ≡ passes_lem met.now unmet.now) }
{
    if is_followed(alloc, met)? {
        return Ok(false);
    }
    let breaking = flat(alloc, unmet)?;
    Ok(is_break(breaking.as_slice()))
}

/// The test of a statement that breaks where the test is not met.
fn test_of(alloc: Global, s: &Stmt) -> Result<Option<Expr>, AllocError>
    ensures { IfOk result (λ e. e ≡ test_of_lem s.now) }
{
    match s {
        Stmt::If(e, met, unmet) => {
            if passes(alloc, met.get(), unmet.get())? {
                Ok(Some(e.share(alloc)?))
            } else {
                Ok(None)
            }
        }
        _ => Ok(None),
    }
}

/// The test with which statements begin, and those behind it.
fn tested(alloc: Global, all: Rest) -> Result<Option<(Expr, Rest)>, AllocError>
    ensures { IfOk result (λ o. o ≡ tested_lem all) }
{
    let test = match all.first() {
        Some(s) => test_of(alloc, s)?,
        None => None,
    };
    let mut body = all;
    body.advance();
    match test {
        Some(e) => Ok(Some((e, body))),
        None => Ok(None),
    }
}

/// The test and the body of a loop that begins with a test, and whose second part has no statements.
pub(crate) fn while_of(alloc: Global, s: &Stmt) -> Result<Option<(Expr, Rest)>, AllocError>
    ensures { IfOk result (λ o. o ≡ while_of_lem s.now) }
{
    match s {
        Stmt::Loop(first, second) => {
            if is_followed(alloc, second.get())? {
                Ok(None)
            } else {
                tested(alloc, all_of(alloc, first.get())?)
            }
        }
        _ => Ok(None),
    }
}
