ghost use Rattle.std.specs.Prelude.{◌≡◌, [], IfOk};
ghost use Rattle.floyd_int.specs.Operation.{is_comparison as is_comparison_lem};
ghost use Rattle.floyd_elab_names.specs.Types.{same_type as same_type_lem};
ghost use Rattle.floyd_ctyping.specs.Operators.{value_type};
ghost use Rattle.floyd_elab_expressions.specs.Behind.{behind};
ghost use Rattle.floyd_elab_expressions.specs.Clight.{cast_of as cast_of_lem, cast_into as cast_into_lem, or_own as or_own_lem, usual_or_own as usual_or_own_lem, common_or_own as common_or_own_lem, promoted_or_own as promoted_or_own_lem, left_type as left_type_lem, right_type as right_type_lem, combine as combine_lem};

use crate::nodes::{binary_of, cast_of};
use crate::translation::Translation;
use floyd_clight::Expr;
use floyd_ctypes::CType;
use floyd_ctyping::{Operand, common_type, number_of, sign_type};
use floyd_elab_names::same_type;
use floyd_int::IntOp;
use std::alloc::{AllocError, Global};

/// A cast is inserted where the types differ, once arrays and functions are pointers.
pub fn cast_into(alloc: Global, t: &CType, a: &Translation) -> Result<Expr, AllocError>
    ensures { IfOk result (λ e. e ≡ cast_into_lem t.now (behind [] a.now)) }
{
    if is_own(alloc, t, &a.operand)? {
        return a.expr.share(alloc);
    }
    cast_over(alloc, &a.expr, t)
}

/// A cast of the same expression.
fn cast_over(alloc: Global, e: &Expr, t: &CType) -> Result<Expr, AllocError>
    ensures { IfOk result (λ made. made ≡ cast_of_lem e.now t.now) }
{
    let t = t.share(alloc)?;
    cast_of(alloc, e.share(alloc)?, t)
}

/// Whether the operand's value has that type.
fn is_own(alloc: Global, t: &CType, a: &Operand) -> Result<bool, AllocError>
    ensures { IfOk result (λ yes. yes ≡ same_type_lem (value_type a.now) t.now) }
{
    let own = a.value_type(alloc)?;
    Ok(same_type(&own, t))
}

/// This type, or else the operand's own.
pub fn or_own(alloc: Global, t: Option<CType>, a: &Operand) -> Result<CType, AllocError>
    ensures { IfOk result (λ u. u ≡ or_own_lem t a.now) }
{
    match t {
        Some(t) => Ok(t),
        None => a.value_type(alloc),
    }
}

/// The usual kind of two numbers, or else the own type of the third operand.
fn usual_or_own(alloc: Global, a: &Operand, b: &Operand, own: &Operand) -> Result<CType, AllocError>
    ensures { IfOk result (λ t. t ≡ usual_or_own_lem a.now b.now own.now) }
{
    let t = a.value_type(alloc)?;
    let u = b.value_type(alloc)?;
    or_own(alloc, number_of(&t, &u), own)
}

/// The common type of two operands, or else the own type of the third one.
fn common_or_own(
    alloc: Global,
    a: &Operand,
    b: &Operand,
    own: &Operand,
) -> Result<CType, AllocError>
    ensures { IfOk result (λ t. t ≡ common_or_own_lem a.now b.now own.now) }
{
    or_own(alloc, common_type(alloc, a, b)?, own)
}

pub fn promoted_or_own(alloc: Global, a: &Operand) -> Result<CType, AllocError>
    ensures { IfOk result (λ t. t ≡ promoted_or_own_lem a.now) }
{
    or_own(alloc, sign_type(alloc, a)?, a)
}

pub fn is_comparison(op: IntOp) -> bool
    ensures { result ≡ is_comparison_lem op }
{
    match op {
        IntOp::Eq | IntOp::Ne | IntOp::Lt | IntOp::Le | IntOp::Gt | IntOp::Ge => true,
        IntOp::Add
        | IntOp::Sub
        | IntOp::Mul
        | IntOp::Div
        | IntOp::Rem
        | IntOp::And
        | IntOp::Or
        | IntOp::Xor
        | IntOp::Shl
        | IntOp::Shr => false,
    }
}

/// The type that the left operand is cast to.
fn left_type(alloc: Global, op: IntOp, a: &Operand, b: &Operand) -> Result<CType, AllocError>
    ensures { IfOk result (λ t. t ≡ left_type_lem op a.now b.now) }
{
    match op {
        IntOp::Shl | IntOp::Shr => promoted_or_own(alloc, a),
        IntOp::Eq | IntOp::Ne | IntOp::Lt | IntOp::Le | IntOp::Gt | IntOp::Ge => {
            common_or_own(alloc, a, b, a)
        }
        IntOp::Add
        | IntOp::Sub
        | IntOp::Mul
        | IntOp::Div
        | IntOp::Rem
        | IntOp::And
        | IntOp::Or
        | IntOp::Xor => usual_or_own(alloc, a, b, a),
    }
}

/// The type that the right operand is cast to.
fn right_type(alloc: Global, op: IntOp, a: &Operand, b: &Operand) -> Result<CType, AllocError>
    ensures { IfOk result (λ t. t ≡ right_type_lem op a.now b.now) }
{
    match op {
        IntOp::Shl | IntOp::Shr => b.value_type(alloc),
        IntOp::Eq | IntOp::Ne | IntOp::Lt | IntOp::Le | IntOp::Gt | IntOp::Ge => {
            common_or_own(alloc, a, b, b)
        }
        IntOp::Add
        | IntOp::Sub
        | IntOp::Mul
        | IntOp::Div
        | IntOp::Rem
        | IntOp::And
        | IntOp::Or
        | IntOp::Xor => usual_or_own(alloc, a, b, b),
    }
}

/// An operator on two operands, each cast to the type that the operator wants. The result has the type `t`.
pub fn combine(
    alloc: Global,
    op: IntOp,
    a: &Translation,
    b: &Translation,
    t: CType,
) -> Result<Expr, AllocError>
    ensures { IfOk result (λ e. e ≡ combine_lem op (behind [] a.now) (behind [] b.now) t) }
{
    let left = left_type(alloc, op, &a.operand, &b.operand)?;
    let right = right_type(alloc, op, &a.operand, &b.operand)?;
    let a = cast_into(alloc, &left, a)?;
    let b = cast_into(alloc, &right, b)?;
    binary_of(alloc, op, a, b, t)
}
