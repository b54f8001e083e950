//! `return`.
ghost use Rattle.std.specs.Prelude.{◌≡◌, ◌∷◌, [], ◌++◌, Some as There, IfOk};
ghost use Rattle.floyd_text.specs.Gives.{Gives};
ghost use Rattle.floyd_clight.specs.declared.syntax.Stmt.{Return as Returns};
ghost use Rattle.floyd_elab_expressions.specs.Behind.{behind, put_behind};
ghost use Rattle.floyd_elab_expressions.specs.declared.progress.Progress.{Progress as Kept};
ghost use Rattle.floyd_elab_expressions.specs.Clight.{cast_into as cast_into_lem};
ghost use Rattle.floyd_elab_statements.specs.Statements.{return_statement as return_statement_lem};
ghost use Rattle.floyd_elab_statements.specs.WalkClauses.{send_back as send_back_lem};

use crate::function::Function;
use floyd_clight::{Stmt, StmtList};
use floyd_cparse_trees::CExpr;
use floyd_ctypes::CType;
use floyd_ctyping::fits_into;
use floyd_elab_effects::right_side;
use floyd_elab_expressions::{Progress, Translation, cast_into};
use floyd_elab_names::{Names, ill_typed, is_void};
use floyd_text::{Halt, Place};
use std::alloc::{AllocError, Global};

/// `return` in a function of that result: a value where there is one, and none in a void function.
pub(crate) fn return_statement(
    function: Function<'_>,
    names: &Names,
    place: Place,
    value: &Option<CExpr>,
    progress: &mut Progress,
    out: &mut StmtList,
) -> Result<(), Halt>
    ensures exact { Gives (λ u. (out.new, progress.new)) result (put_behind out.old (return_statement_lem names.now function.entry.result_type.now place value.now progress.old)) }
{
    match value {
        Some(e) => return_value(function, names, place, e, progress, out),
        None => {
            if !is_void(function.result_type) {
                return Err(Halt::Refused(ill_typed(place)));
            }
            out.push(Stmt::Return(None))?;
            Ok(())
        }
    }
}

fn return_value(
    function: Function<'_>,
    names: &Names,
    place: Place,
    e: &CExpr,
    progress: &mut Progress,
    out: &mut StmtList,
) -> Result<(), Halt>
    ensures exact { Gives (λ u. (out.new, progress.new)) result (put_behind out.old (return_statement_lem names.now function.entry.result_type.now place (There e.now) progress.old)) }
{
    if is_void(function.result_type) {
        return Err(Halt::Refused(ill_typed(place)));
    }
    let a = right_side(function.alloc, names, e, progress, out)?;
    send_back(function, place, &a, out)
}

/// The value is returned, where it fits.
fn send_back(
    function: Function<'_>,
    place: Place,
    a: &Translation,
    out: &mut StmtList,
) -> Result<(), Halt>
    ensures exact { (progress : Kept) → Gives (λ u. (out.new, progress)) result (send_back_lem function.entry.result_type.now place (behind out.old a.now) progress) }
{
    let t = function.result_type;
    if !fits_into(function.alloc, t, &a.operand)? {
        return Err(Halt::Refused(ill_typed(place)));
    }
    push_return(function.alloc, t, a, out)?;
    Ok(())
}

/// Pushes the return of a value, cast where the types differ.
fn push_return(
    alloc: Global,
    t: &CType,
    a: &Translation,
    out: &mut StmtList,
) -> Result<(), AllocError>
    ensures { IfOk result (λ u. out.new ≡ out.old ++ Returns (There (cast_into_lem t.now (behind [] a.now))) ∷ []) }
{
    let value = cast_into(alloc, t, a)?;
    out.push(Stmt::Return(Some(value)))?;
    Ok(())
}
