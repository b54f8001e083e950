ghost use Rattle.std.specs.Prelude.{◌≡◌, [], List, IfOk};
ghost use Rattle.floyd_clight.specs.declared.syntax.Stmt.{Stmt};
ghost use Rattle.std.specs.Option.{option_copied};
ghost use Rattle.floyd_text.specs.Gives.{Gives};
ghost use Rattle.floyd_elab_expressions.specs.declared.progress.Progress.{Progress as Kept};
ghost use Rattle.floyd_elab_expressions.specs.Behind.{behind};
ghost use Rattle.floyd_elab_expressions.specs.Expressions.{variable_of as variable_of_lem, name_expr as name_expr_lem, identifier as identifier_lem, literal as literal_lem, prefix_expr as prefix_expr_lem, prefix_operator as prefix_operator_lem, cast_to as cast_to_lem, binary_operator as binary_operator_lem, subscript as subscript_lem, struct_expr as struct_expr_lem, member as member_lem, nested_refusal as nested_refusal_lem};
ghost use Rattle.floyd_ctyping.specs.Expressions.{nested_step, nested_assignment, nested_call};

use crate::casts::{cast_into, combine, or_own, promoted_or_own};
use crate::nodes::{address_of, bits_of, cast_of, deref_of, field_of, unary_of};
use crate::progress::Progress;
use crate::translation::Translation;
use floyd_clight::{Binding, Expr, UnaryOp};
use floyd_cparse_trees::{Identifier, Literal, MemberOp, PrefixOp};
use floyd_ctypes::CType;
use floyd_ctyping::{Operand, binary_type, element_type};
use floyd_elab_names::{Meaning, Storage};
use floyd_int::IntOp;
use floyd_text::{Halt, Name, Place};
use std::alloc::{AllocError, Global};

/// A variable by what it is called in Clight: a temporary, or a place of the function's own or of the file.
pub fn variable_of(storage: Storage, x: Name, t: CType) -> Expr
    ensures { result ≡ variable_of_lem storage x t }
{
    match storage {
        Storage::Global => Expr::Var(Binding::File, x, t),
        Storage::Block => Expr::Var(Binding::Block, x, t),
        Storage::Temporary | Storage::Parameter => Expr::Temp(x, t),
    }
}

fn name_expr(
    alloc: Global,
    i: &Identifier,
    t: &CType,
    meaning: Option<&Meaning>,
) -> Result<Expr, AllocError>
    ensures { IfOk result (λ e. e ≡ name_expr_lem i.now t.now (option_copied meaning.entry)) }
{
    let t = t.share(alloc)?;
    match meaning {
        Some(
            Meaning::Variable {
                called,
                storage,
                ..
            },
        ) => Ok(variable_of(*storage, called.share()?, t)),
        _ => Ok(Expr::Var(Binding::File, i.name.share()?, t)),
    }
}

/// A name that stands for this.
pub(crate) fn identifier(
    alloc: Global,
    i: &Identifier,
    meaning: Option<&Meaning>,
) -> Result<Translation, Halt>
    ensures exact { (progress : Kept) → Gives (λ a. (behind [] a, progress)) result (identifier_lem i.now (option_copied meaning.entry) progress) }
{
    let operand = floyd_ctyping::name_operand(alloc, i, meaning)?;
    let expr = name_expr(alloc, i, &operand.ctype, meaning)?;
    Ok(Translation { expr, operand })
}

pub(crate) fn literal(l: &Literal) -> Translation
    ensures { behind [] result ≡ literal_lem l.now }
{
    Translation {
        expr: Expr::Const(bits_of(l.kind, l.value), CType::Int(l.kind)),
        operand: Operand {
            ctype: CType::Int(l.kind),
            standing: floyd_ctyping::standing_of(l.value),
        },
    }
}

/// An operator before its operand, with a result of the type `t`.
fn prefix_expr(alloc: Global, op: PrefixOp, a: &Translation, t: CType) -> Result<Expr, AllocError>
    ensures { IfOk result (λ e. e ≡ prefix_expr_lem op (behind [] a.now) t) }
{
    match op {
        PrefixOp::Minus => {
            let e = cast_into(alloc, &t, a)?;
            unary_of(alloc, UnaryOp::Neg, e, t)
        }
        PrefixOp::Plus => cast_into(alloc, &t, a),
        PrefixOp::Complement => {
            let e = cast_into(alloc, &t, a)?;
            unary_of(alloc, UnaryOp::Complement, e, t)
        }
        PrefixOp::Not => {
            let own = promoted_or_own(alloc, &a.operand)?;
            let e = cast_into(alloc, &own, a)?;
            unary_of(alloc, UnaryOp::Not, e, t)
        }
        PrefixOp::Dereference => deref_of(alloc, a.expr.share(alloc)?, t),
        PrefixOp::Address => address_of(alloc, a.expr.share(alloc)?, t),
    }
}

/// An operator before its operand.
pub(crate) fn prefix_operator(
    alloc: Global,
    op: PrefixOp,
    place: Place,
    a: &Translation,
) -> Result<Translation, Halt>
    ensures exact { (before : List Stmt) (progress : Kept) → Gives (λ r. (behind before r, progress)) result (prefix_operator_lem op place (behind before a.now) progress) }
{
    let operand = floyd_ctyping::prefix_operator(alloc, op, place, &a.operand)?;
    let t = operand.ctype.share(alloc)?;
    let expr = prefix_expr(alloc, op, a, t)?;
    Ok(Translation { expr, operand })
}

/// A written cast stays, also one between equal types.
pub(crate) fn cast_to(
    alloc: Global,
    place: Place,
    t: &CType,
    a: &Translation,
) -> Result<Translation, Halt>
    ensures exact { (before : List Stmt) (progress : Kept) → Gives (λ r. (behind before r, progress)) result (cast_to_lem place t.now (behind before a.now) progress) }
{
    let operand = floyd_ctyping::cast_to(alloc, place, t, &a.operand)?;
    let expr = cast_of(alloc, a.expr.share(alloc)?, t.share(alloc)?)?;
    Ok(Translation { expr, operand })
}

/// An operator between two operands.
pub fn binary_operator(
    alloc: Global,
    op: IntOp,
    place: Place,
    a: &Translation,
    b: &Translation,
    progress: &Progress,
) -> Result<Translation, Halt>
    ensures exact { (before : List Stmt) → Gives (λ r. (behind before r, progress.now)) result (binary_operator_lem op place (behind [] a.now) (behind before b.now) progress.now) }
{
    let structs = &progress.tags.structs;
    let found = binary_type(alloc, structs, op, &a.operand, &b.operand)?;
    let operand = floyd_ctyping::gives_value(place, found)?;
    let t = operand.ctype.share(alloc)?;
    let expr = combine(alloc, op, a, b, t)?;
    Ok(Translation { expr, operand })
}

/// `a[i]`, which is `*(a + i)`.
pub(crate) fn subscript(
    alloc: Global,
    place: Place,
    a: &Translation,
    i: &Translation,
    progress: &Progress,
) -> Result<Translation, Halt>
    ensures exact { (before : List Stmt) → Gives (λ r. (behind before r, progress.now)) result (subscript_lem place (behind [] a.now) (behind before i.now) progress.now) }
{
    let structs = &progress.tags.structs;
    let found = binary_type(alloc, structs, IntOp::Add, &a.operand, &i.operand)?;
    let sum = floyd_ctyping::gives_value(place, found)?;
    let found = element_type(alloc, structs, &a.operand, &i.operand)?;
    let operand = floyd_ctyping::gives_object(place, found)?;
    let t = operand.ctype.share(alloc)?;
    let expr = combine(alloc, IntOp::Add, a, i, sum.ctype.share(alloc)?)?;
    let expr = deref_of(alloc, expr, t)?;
    Ok(Translation { expr, operand })
}

/// The struct that `.` takes a field of, or `->` behind a pointer.
fn struct_expr(alloc: Global, op: MemberOp, a: &Translation) -> Result<Expr, AllocError>
    ensures { IfOk result (λ e. e ≡ struct_expr_lem op (behind [] a.now)) }
{
    match op {
        MemberOp::Dot => a.expr.share(alloc),
        MemberOp::Arrow => {
            let own = a.operand.value_type(alloc)?;
            let to = share_type(alloc, floyd_elab_names::pointee(&own))?;
            let t = or_own(alloc, to, &a.operand)?;
            deref_of(alloc, a.expr.share(alloc)?, t)
        }
    }
}

/// The same type, if there is one.
fn share_type(alloc: Global, t: Option<&CType>) -> Result<Option<CType>, AllocError>
    ensures { IfOk result (λ o. o ≡ option_copied t.entry) }
{
    match t {
        Some(t) => Ok(Some(t.share(alloc)?)),
        None => Ok(None),
    }
}

/// A field of a struct.
pub(crate) fn member(
    alloc: Global,
    op: MemberOp,
    place: Place,
    field: &Identifier,
    a: &Translation,
    progress: &Progress,
) -> Result<Translation, Halt>
    ensures exact { (before : List Stmt) → Gives (λ r. (behind before r, progress.now)) result (member_lem op place field.now (behind before a.now) progress.now) }
{
    let operand = floyd_ctyping::member(alloc, &progress.tags, op, place, field, &a.operand)?;
    let t = operand.ctype.share(alloc)?;
    let expr = struct_expr(alloc, op, a)?;
    let expr = field_of(alloc, expr, field.name.share()?, t)?;
    Ok(Translation { expr, operand })
}

/// A step inside an expression is refused.
pub(crate) fn refuse_step(
    alloc: Global,
    place: Place,
    a: Translation,
    progress: &Progress,
) -> Result<Translation, Halt>
    ensures exact { (before : List Stmt) → Gives (λ r. (behind before r, progress.now)) result (nested_refusal_lem (nested_step place a.operand) (behind before a) progress.now) }
{
    let operand = floyd_ctyping::nested_step(alloc, &progress.tags, place, &a.operand)?;
    Ok(a.with_operand(operand))
}

/// An assignment inside an expression is refused.
pub(crate) fn refuse_assignment(
    alloc: Global,
    place: Place,
    a: Translation,
) -> Result<Translation, Halt>
    ensures exact { (before : List Stmt) (progress : Kept) → Gives (λ r. (behind before r, progress)) result (nested_refusal_lem (nested_assignment place a.operand) (behind before a) progress) }
{
    let operand = floyd_ctyping::nested_assignment(place, &a.operand)?;
    Ok(a.with_operand(operand))
}

/// A call inside an expression is refused.
pub(crate) fn refuse_call(
    alloc: Global,
    place: Place,
    count: usize,
    a: Translation,
) -> Result<Translation, Halt>
    ensures exact { (before : List Stmt) (progress : Kept) → Gives (λ r. (behind before r, progress)) result (nested_refusal_lem (nested_call place count a.operand) (behind before a) progress) }
{
    let operand = floyd_ctyping::nested_call(alloc, place, count, &a.operand)?;
    Ok(a.with_operand(operand))
}
