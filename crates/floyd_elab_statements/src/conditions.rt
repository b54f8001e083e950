//! The tests of statements, and what may be left out of them.
ghost use Rattle.std.specs.Prelude.{◌≡◌, ◌∷◌, [], ◌++◌, List, IfOk};
ghost use Rattle.floyd_text.specs.Gives.{Gives};
ghost use Rattle.floyd_clight.specs.declared.syntax.Stmt.{Stmt, If, Skip as DoNothing, Break as Leave};
ghost use Rattle.floyd_elab_expressions.specs.Behind.{behind, put_behind};
ghost use Rattle.floyd_elab_expressions.specs.declared.progress.Progress.{Progress as Kept};
ghost use Rattle.floyd_elab_statements.specs.LocalClauses.{beginning};
ghost use Rattle.floyd_elab_statements.specs.Statements.{test as test_lem, selector as selector_lem, loop_test as loop_test_lem, optional_test as optional_test_lem, optional_effect as optional_effect_lem};
ghost use Rattle.floyd_elab_statements.specs.WalkClauses.{judge_test as judge_test_lem, select as select_lem};

use floyd_clight::{Expr, Stmt, StmtList};
use floyd_cparse_trees::CExpr;
use floyd_ctypes::CType;
use floyd_ctyping::{check_test, switch_kind};
use floyd_elab_effects::effect;
use floyd_elab_expressions::{Progress, Translation, cast_into, rvalue, test_of};
use floyd_elab_names::Names;
use floyd_int::IntKind;
use floyd_text::{Halt, Place, Shared};
use std::alloc::{AllocError, Global};

/// A test, which is ill typed at the word of its statement.
pub(crate) fn test(
    alloc: Global,
    names: &Names,
    place: Place,
    e: &CExpr,
    progress: &mut Progress,
    out: &mut StmtList,
) -> Result<Expr, Halt>
    ensures exact { Gives (λ x. ((out.new, x), progress.new)) result (beginning out.old (test_lem names.now place e.now progress.old)) }
{
    let a = rvalue(alloc, names, e, progress, out)?;
    judge_test(alloc, place, e, &a)
}

/// The test of what was translated.
fn judge_test(alloc: Global, place: Place, e: &CExpr, a: &Translation) -> Result<Expr, Halt>
    ensures exact { (before : List Stmt) (progress : Kept) → Gives (λ x. ((before, x), progress)) result (judge_test_lem place e.now (behind before a.now) progress) }
{
    check_test(alloc, place, &a.operand)?;
    Ok(test_of(alloc, e, a)?)
}

/// What a switch looks at, at its promoted kind, and that kind. It is ill typed at the word of the statement.
pub(crate) fn selector(
    alloc: Global,
    names: &Names,
    place: Place,
    e: &CExpr,
    progress: &mut Progress,
    out: &mut StmtList,
) -> Result<(Expr, IntKind), Halt>
    ensures exact { Gives (λ x. ((out.new, x), progress.new)) result (beginning out.old (selector_lem names.now place e.now progress.old)) }
{
    let a = rvalue(alloc, names, e, progress, out)?;
    select(alloc, place, &a)
}

/// What a switch looks at, of what was translated.
fn select(alloc: Global, place: Place, a: &Translation) -> Result<(Expr, IntKind), Halt>
    ensures exact { (before : List Stmt) (progress : Kept) → Gives (λ x. ((before, x), progress)) result (select_lem place (behind before a.now) progress) }
{
    let kind = switch_kind(alloc, place, &a.operand)?;
    let value = cast_into(alloc, &CType::Int(kind), a)?;
    Ok((value, kind))
}

/// Pushes an `if` with these branches.
pub(crate) fn push_if(
    test: Expr,
    first: Shared<Stmt>,
    second: Shared<Stmt>,
    out: &mut StmtList,
) -> Result<(), AllocError>
    ensures { IfOk result (λ u. out.new ≡ out.old ++ If test first second ∷ []) }
{
    out.push(Stmt::If(test, first, second))?;
    Ok(())
}

/// Pushes an `if` that breaks where the test fails.
fn push_break(alloc: Global, test: Expr, out: &mut StmtList) -> Result<(), AllocError>
    ensures { IfOk result (λ u. out.new ≡ out.old ++ If test DoNothing Leave ∷ []) }
{
    let go_on = Shared::new(alloc, Stmt::Skip)?;
    let stop = Shared::new(alloc, Stmt::Break)?;
    push_if(test, go_on, stop, out)
}

/// The test of a loop, which breaks where it fails.
pub(crate) fn loop_test(
    alloc: Global,
    names: &Names,
    place: Place,
    e: &CExpr,
    progress: &mut Progress,
    out: &mut StmtList,
) -> Result<(), Halt>
    ensures exact { Gives (λ u. (out.new, progress.new)) result (put_behind out.old (loop_test_lem names.now place e.now progress.old)) }
{
    let test = test(alloc, names, place, e, progress, out)?;
    push_break(alloc, test, out)?;
    Ok(())
}

pub(crate) fn optional_test(
    alloc: Global,
    names: &Names,
    place: Place,
    e: &Option<CExpr>,
    progress: &mut Progress,
    out: &mut StmtList,
) -> Result<(), Halt>
    ensures exact { Gives (λ u. (out.new, progress.new)) result (put_behind out.old (optional_test_lem names.now place e.now progress.old)) }
{
    match e {
        Some(e) => loop_test(alloc, names, place, e, progress, out),
        None => Ok(()),
    }
}

pub(crate) fn optional_effect(
    alloc: Global,
    names: &Names,
    e: &Option<CExpr>,
    progress: &mut Progress,
    out: &mut StmtList,
) -> Result<(), Halt>
    ensures exact { Gives (λ u. (out.new, progress.new)) result (put_behind out.old (optional_effect_lem names.now e.now progress.old)) }
{
    match e {
        Some(e) => effect(alloc, names, e, progress, out),
        None => Ok(()),
    }
}
