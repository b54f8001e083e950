//! Which operands an operator takes, and the type of its result. None stands where they do not fit.
ghost use Rattle.std.specs.Prelude.{◌≡◌, IfOk};
ghost use Rattle.floyd_elab_names.specs.Types.{pointee as pointee_lem};
ghost use Rattle.floyd_ctyping.specs.Operators.{is_test as is_test_lem, sign_type as sign_type_lem, not_type as not_type_lem, unless_void as led_to_lem, dereference_type as dereferenced_lem, address_type as address_type_lem, common_type as common_type_lem, with_order as ordered_lem, order_type as order_type_lem, comparison_type as compared_lem, binary_type as binary_type_lem, element_type as element_type_lem, is_target as is_target_lem, fits_into as fits_into_lem, is_cast as is_cast_lem, is_stepped as is_stepped_lem};

use crate::operand::Operand;
use crate::operators::{
    casts_to, common_of, converts_to, difference_of, number_of, points_to_function, promoted_type,
    shift_of, sum_of,
};
use floyd_ctypes::{CType, StructTable};
use floyd_elab_names::{is_function, is_scalar, is_void, pointee, pointer_to};
use floyd_int::{IntKind, IntOp};
use std::alloc::{AllocError, Global};

/// Whether it may be a test: a number or a pointer.
pub fn is_test(alloc: Global, a: &Operand) -> Result<bool, AllocError>
    ensures { IfOk result (λ yes. yes ≡ is_test_lem a.now) }
{
    let t = a.value_type(alloc)?;
    Ok(is_scalar(&t))
}

/// The type of `-a`, `+a` and `~a`.
pub fn sign_type(alloc: Global, a: &Operand) -> Result<Option<CType>, AllocError>
    ensures { IfOk result (λ o. o ≡ sign_type_lem a.now) }
{
    let t = a.value_type(alloc)?;
    Ok(promoted_type(&t))
}

/// The type of `!a`.
pub fn not_type(alloc: Global, a: &Operand) -> Result<Option<CType>, AllocError>
    ensures { IfOk result (λ o. o ≡ not_type_lem a.now) }
{
    if is_test(alloc, a)? {
        return Ok(Some(CType::Int(IntKind::I32)));
    }
    Ok(None)
}

/// The type, but void.
fn unless_void(alloc: Global, t: &CType) -> Result<Option<CType>, AllocError>
    ensures { IfOk result (λ o. o ≡ led_to_lem t.now) }
{
    if is_void(t) {
        return Ok(None);
    }
    Ok(Some(t.share(alloc)?))
}

/// The type of `*a`.
pub fn dereference_type(alloc: Global, a: &Operand) -> Result<Option<CType>, AllocError>
    ensures { IfOk result (λ o. o ≡ dereferenced_lem a.now) }
{
    let t = a.value_type(alloc)?;
    match pointee(&t) {
        Some(to) => unless_void(alloc, to),
        None => Ok(None),
    }
}

/// The type of `&a`.
pub fn address_type(alloc: Global, a: &Operand) -> Result<Option<CType>, AllocError>
    ensures { IfOk result (λ o. o ≡ address_type_lem a.now) }
{
    if a.is_object() || is_function(&a.ctype) {
        return Ok(Some(pointer_to(alloc, a.ctype.share(alloc)?)?));
    }
    Ok(None)
}

/// The common type of two operands: the usual kind of numbers, and the type of pointers.
pub fn common_type(alloc: Global, a: &Operand, b: &Operand) -> Result<Option<CType>, AllocError>
    ensures { IfOk result (λ o. o ≡ common_type_lem a.now b.now) }
{
    let t = a.value_type(alloc)?;
    let u = b.value_type(alloc)?;
    common_of(alloc, a.is_zero(), b.is_zero(), &t, &u)
}

/// Functions have no order.
fn with_order(t: CType) -> Option<CType>
    ensures { result ≡ ordered_lem t }
{
    if points_to_function(&t) {
        return None;
    }
    Some(t)
}

/// The common type of the operands of `<`, `<=`, `>` and `>=`.
fn order_type(alloc: Global, a: &Operand, b: &Operand) -> Result<Option<CType>, AllocError>
    ensures { IfOk result (λ o. o ≡ order_type_lem a.now b.now) }
{
    match common_type(alloc, a, b)? {
        Some(t) => Ok(with_order(t)),
        None => Ok(None),
    }
}

/// A comparison has type int.
fn comparison_type(common: Option<CType>) -> Option<CType>
    ensures { result ≡ compared_lem common }
{
    match common {
        Some(_) => Some(CType::Int(IntKind::I32)),
        None => None,
    }
}

/// The type of an operator between two operands.
pub fn binary_type(
    alloc: Global,
    structs: &StructTable,
    op: IntOp,
    a: &Operand,
    b: &Operand,
) -> Result<Option<CType>, AllocError>
    ensures { IfOk result (λ o. o ≡ binary_type_lem structs.now op a.now b.now) }
{
    let t = a.value_type(alloc)?;
    let u = b.value_type(alloc)?;
    match op {
        IntOp::Add => sum_of(alloc, structs, &t, &u),
        IntOp::Sub => difference_of(alloc, structs, &t, &u),
        IntOp::Mul | IntOp::Div | IntOp::Rem | IntOp::And | IntOp::Or | IntOp::Xor => {
            Ok(number_of(&t, &u))
        }
        IntOp::Shl | IntOp::Shr => Ok(shift_of(&t, &u)),
        IntOp::Eq | IntOp::Ne => Ok(comparison_type(common_type(alloc, a, b)?)),
        IntOp::Lt | IntOp::Le | IntOp::Gt | IntOp::Ge => {
            Ok(comparison_type(order_type(alloc, a, b)?))
        }
    }
}

/// The element of `a[i]`, which is `*(a + i)`.
pub fn element_type(
    alloc: Global,
    structs: &StructTable,
    a: &Operand,
    i: &Operand,
) -> Result<Option<CType>, AllocError>
    ensures { IfOk result (λ o. o ≡ element_type_lem structs.now a.now i.now) }
{
    let t = a.value_type(alloc)?;
    let u = i.value_type(alloc)?;
    match sum_of(alloc, structs, &t, &u)? {
        Some(sum) => pointed_to(alloc, &sum),
        None => Ok(None),
    }
}

/// What a pointer points to.
fn pointed_to(alloc: Global, t: &CType) -> Result<Option<CType>, AllocError>
    ensures { IfOk result (λ o. o ≡ pointee_lem t.now) }
{
    match pointee(t) {
        Some(to) => Ok(Some(to.share(alloc)?)),
        None => Ok(None),
    }
}

/// Whether it may be assigned to: an object that is a number or a pointer.
pub fn is_target(a: &Operand) -> bool
    ensures { result ≡ is_target_lem a.now }
{
    a.is_object() && is_scalar(&a.ctype)
}

/// Whether its value may become one of the type where it is assigned, passed, returned or set at a declaration.
pub fn fits_into(alloc: Global, t: &CType, a: &Operand) -> Result<bool, AllocError>
    ensures { IfOk result (λ yes. yes ≡ fits_into_lem t.now a.now) }
{
    let u = a.value_type(alloc)?;
    Ok(converts_to(t, a.is_zero(), &u))
}

/// Whether its value may be cast to the type.
pub fn is_cast(alloc: Global, t: &CType, a: &Operand) -> Result<bool, AllocError>
    ensures { IfOk result (λ yes. yes ≡ is_cast_lem t.now a.now) }
{
    let u = a.value_type(alloc)?;
    Ok(casts_to(t, a.is_zero(), &u))
}

/// Whether 1 may be added to it and the sum may go to it.
pub fn is_stepped(alloc: Global, structs: &StructTable, a: &Operand) -> Result<bool, AllocError>
    ensures { IfOk result (λ yes. yes ≡ is_stepped_lem structs.now a.now) }
{
    if !is_target(a) {
        return Ok(false);
    }
    let t = a.value_type(alloc)?;
    let sum = sum_of(alloc, structs, &t, &CType::Int(IntKind::I32))?;
    Ok(sum.is_some())
}
