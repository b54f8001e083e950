ghost use Rattle.std.specs.Prelude.{◌≡◌, IfOk};
ghost use Rattle.floyd_stub_runs.specs.Linked.{main_body as main_body_lem};
ghost use Rattle.floyd_stub_goal.specs.Starts.{main_start, start_source as start_source_lem, nowhere as nowhere_lem};

use crate::goal::{Context, Exits, Goal, Return, Run};
use crate::rest::Rest;
use floyd_clight::{Expr, Stmt, StmtList, flat};
use floyd_ctypes::CType;
use floyd_int::{IntKind, Value};
use floyd_stub_assert::{Assertion, Formula, Funspec, Locals, Precondition};
use sqlite_items::Items;
use std::alloc::{AllocError, Global};

/// The start of the proof of an `int main(void)` with these statements, to which `return 0;` is appended.
pub fn start_goal(alloc: Global, statements: StmtList, spec: Funspec) -> Result<Goal, AllocError>
    ensures { IfOk result (λ goal. goal ≡ main_start statements spec) }
{
    let (pre, post, value) = spec.into_parts();
    let rest = Rest::new(flat(alloc, &main_body(statements)?)?);
    Ok(Goal::Run(Run {
        context: Context {
            hypotheses: Items::new(alloc),
        },
        source: start_source(alloc, pre),
        rest,
        exits: Exits {
            normal: nowhere(alloc)?,
            ret: Return {
                post,
                value,
                result: CType::Int(IntKind::I32),
            },
        },
    }))
}

/// The statements in sequence, and then `return 0;`.
fn main_body(statements: StmtList) -> Result<Stmt, AllocError>
    ensures { IfOk result (λ body. body ≡ main_body_lem statements) }
{
    let mut statements = statements;
    let int = CType::Int(IntKind::I32);
    statements.push(Stmt::Return(Some(Expr::Const(Value::Vint(0), int))))?;
    Ok(Stmt::Seq(statements))
}

/// What holds where the body starts.
fn start_source(alloc: Global, pre: Precondition) -> Assertion
    ensures { result ≡ start_source_lem pre }
{
    match pre {
        Precondition::Main => Assertion {
            prop: Items::new(alloc),
            local: Locals::new(alloc),
            sep: Items::new(alloc),
        },
    }
}

/// What holds where control cannot come.
fn nowhere(alloc: Global) -> Result<Assertion, AllocError>
    ensures { IfOk result (λ a. a ≡ nowhere_lem) }
{
    let mut prop = Items::new(alloc);
    prop.push(Formula::False)?;
    Ok(Assertion {
        prop,
        local: Locals::new(alloc),
        sep: Items::new(alloc),
    })
}
