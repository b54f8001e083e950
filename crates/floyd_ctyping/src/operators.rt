ghost use Rattle.std.specs.Prelude.{◌≡◌, IfOk, Some, None};
ghost use Rattle.floyd_elab_names.specs.Types.{pointer_to as pointer_to_lem};
ghost use Rattle.floyd_ctyping.specs.Operators.{when, promoted_type as promoted_type_lem, number_of as number_of_lem, shift_of as shift_of_lem, pointer_plus as pointer_plus_lem, number_plus as number_plus_lem, sum_of as sum_of_lem, difference_of as difference_of_lem, number_beside as number_beside_lem, pointer_beside as pointer_beside_lem, common_of as common_of_lem, joins as joins_lem, is_number as is_number_lem, becomes_pointer as becomes_pointer_lem, converts_to as converts_to_lem, casts_to_pointer as casts_to_pointer_lem, casts_to as casts_to_lem, points_to_function as points_to_function_lem};

use crate::kinds::{promote, usual};
use floyd_ctypes::{CType, StructTable};
use floyd_elab_names::{has_size, is_function, is_void, pointer_to, same_type};
use floyd_int::IntKind;
use std::alloc::{AllocError, Global};

/// A pointer to this, if it fits.
fn pointer_if(alloc: Global, fits: bool, t: &CType) -> Result<Option<CType>, AllocError>
    ensures { IfOk result (λ o. o ≡ when fits (pointer_to_lem t.now)) }
{
    if fits {
        return Ok(Some(pointer_to(alloc, t.share(alloc)?)?));
    }
    Ok(None)
}

/// A number is promoted.
pub(crate) fn promoted_type(t: &CType) -> Option<CType>
    ensures { result ≡ promoted_type_lem t.now }
{
    match t {
        CType::Int(kind) => Some(CType::Int(promote(*kind))),
        _ => None,
    }
}

/// Two numbers have their usual kind.
pub fn number_of(t: &CType, u: &CType) -> Option<CType>
    ensures { result ≡ number_of_lem t.now u.now }
{
    match (t, u) {
        (CType::Int(j), CType::Int(k)) => Some(CType::Int(usual(*j, *k))),
        _ => None,
    }
}

/// A shift has the promoted type of its left operand.
pub(crate) fn shift_of(t: &CType, u: &CType) -> Option<CType>
    ensures { result ≡ shift_of_lem t.now u.now }
{
    match (t, u) {
        (CType::Int(j), CType::Int(_)) => Some(CType::Int(promote(*j))),
        _ => None,
    }
}

/// The type of a pointer to this and a number.
fn pointer_plus(
    alloc: Global,
    structs: &StructTable,
    t: &CType,
    u: &CType,
) -> Result<Option<CType>, AllocError>
    ensures { IfOk result (λ o. o ≡ pointer_plus_lem structs.now t.now u.now) }
{
    match u {
        CType::Int(_) => pointer_if(alloc, has_size(structs, t), t),
        _ => Ok(None),
    }
}

/// The type of a number and another one, or a pointer.
#[tactic(auto, using(crate::proofs::OperatorLemmas::number_plus_of_pointer))]
fn number_plus(
    alloc: Global,
    structs: &StructTable,
    j: IntKind,
    u: &CType,
) -> Result<Option<CType>, AllocError>
    ensures { IfOk result (λ o. o ≡ number_plus_lem structs.now j u.now) }
{
    match u {
        CType::Int(k) => Ok(Some(CType::Int(usual(j, *k)))),
        CType::Pointer(to) => pointer_if(alloc, has_size(structs, to.get()), to.get()),
        _ => Ok(None),
    }
}

/// The type of a sum: of two numbers, or of a pointer and a number on either side.
#[tactic(auto, using(crate::proofs::OperatorLemmas::sum_of_pointer))]
pub(crate) fn sum_of(
    alloc: Global,
    structs: &StructTable,
    t: &CType,
    u: &CType,
) -> Result<Option<CType>, AllocError>
    ensures { IfOk result (λ o. o ≡ sum_of_lem structs.now t.now u.now) }
{
    match t {
        CType::Int(j) => number_plus(alloc, structs, *j, u),
        CType::Pointer(to) => pointer_plus(alloc, structs, to.get(), u),
        _ => Ok(None),
    }
}

/// The type of a difference: of two numbers, or of a pointer and a number.
#[tactic(auto, using(crate::proofs::OperatorLemmas::difference_of_pointer))]
pub(crate) fn difference_of(
    alloc: Global,
    structs: &StructTable,
    t: &CType,
    u: &CType,
) -> Result<Option<CType>, AllocError>
    ensures { IfOk result (λ o. o ≡ difference_of_lem structs.now t.now u.now) }
{
    match t {
        CType::Int(_) => Ok(number_of(t, u)),
        CType::Pointer(to) => pointer_plus(alloc, structs, to.get(), u),
        _ => Ok(None),
    }
}

/// The common type of a number and another one, or a pointer where the number is the constant 0.
#[tactic(auto, using(crate::proofs::OperatorLemmas::number_beside_of_pointer))]
fn number_beside(
    alloc: Global,
    zero: bool,
    j: IntKind,
    u: &CType,
) -> Result<Option<CType>, AllocError>
    ensures { IfOk result (λ o. o ≡ number_beside_lem zero j u.now) }
{
    match u {
        CType::Int(k) => Ok(Some(CType::Int(usual(j, *k)))),
        CType::Pointer(to) => pointer_if(alloc, zero, to.get()),
        _ => Ok(None),
    }
}

/// The common type of a pointer to this and another one, or the constant 0.
#[tactic(auto, using(crate::proofs::OperatorLemmas::pointer_beside_of_pointer))]
fn pointer_beside(
    alloc: Global,
    other_zero: bool,
    t: &CType,
    u: &CType,
) -> Result<Option<CType>, AllocError>
    ensures { IfOk result (λ o. o ≡ pointer_beside_lem other_zero t.now u.now) }
{
    match u {
        CType::Int(_) => pointer_if(alloc, other_zero, t),
        CType::Pointer(to) => pointer_if(alloc, same_type(t, to.get()), t),
        _ => Ok(None),
    }
}

/// The common type of two numbers, of two pointers of one type, or of a pointer beside the constant 0. The flags say
/// which of the two is that constant.
#[tactic(auto, using(crate::proofs::OperatorLemmas::common_of_pointer))]
pub(crate) fn common_of(
    alloc: Global,
    zero: bool,
    other_zero: bool,
    t: &CType,
    u: &CType,
) -> Result<Option<CType>, AllocError>
    ensures { IfOk result (λ o. o ≡ common_of_lem zero other_zero t.now u.now) }
{
    match t {
        CType::Int(j) => number_beside(alloc, zero, *j, u),
        CType::Pointer(to) => pointer_beside(alloc, other_zero, to.get(), u),
        _ => Ok(None),
    }
}

/// Whether it is a pointer to a function.
#[tactic(auto, using(crate::proofs::OperatorLemmas::points_to_function_of_pointer))]
pub(crate) fn points_to_function(t: &CType) -> bool
    ensures { result ≡ points_to_function_lem t.now }
{
    match t {
        CType::Pointer(to) => is_function(to.get()),
        _ => false,
    }
}

/// Whether a pointer to the second may become one to the first where it is assigned.
fn joins(t: &CType, u: &CType) -> bool
    ensures { result ≡ joins_lem t.now u.now }
{
    same_type(t, u) || is_void(t) || is_void(u)
}

fn is_number(t: &CType) -> bool
    ensures { result ≡ is_number_lem t.now }
{
    matches!(t, CType::Int(_))
}

/// Whether a value of the second type may become a pointer to the first where it is assigned.
#[tactic(auto, using(crate::proofs::OperatorLemmas::becomes_pointer_of_pointer))]
fn becomes_pointer(t: &CType, zero: bool, u: &CType) -> bool
    ensures { result ≡ becomes_pointer_lem t.now zero u.now }
{
    match u {
        CType::Int(_) => zero,
        CType::Pointer(to) => joins(t, to.get()),
        _ => false,
    }
}

/// Whether a value of the second type may become one of the first where it is assigned. The flag says whether it is the
/// constant 0.
#[tactic(auto, using(crate::proofs::OperatorLemmas::converts_to_of_pointer))]
pub(crate) fn converts_to(t: &CType, zero: bool, u: &CType) -> bool
    ensures { result ≡ converts_to_lem t.now zero u.now }
{
    match t {
        CType::Int(_) => is_number(u),
        CType::Pointer(to) => becomes_pointer(to.get(), zero, u),
        _ => false,
    }
}

#[tactic(auto, using(crate::proofs::OperatorLemmas::casts_to_pointer_of_pointer))]
fn casts_to_pointer(zero: bool, u: &CType) -> bool
    ensures { result ≡ casts_to_pointer_lem zero u.now }
{
    match u {
        CType::Int(_) => zero,
        CType::Pointer(_) => true,
        _ => false,
    }
}

/// Whether a value of the second type may be cast to the first. The flag says whether it is the constant 0.
#[tactic(auto, using(crate::proofs::OperatorLemmas::casts_to_of_pointer))]
pub(crate) fn casts_to(t: &CType, zero: bool, u: &CType) -> bool
    ensures { result ≡ casts_to_lem t.now zero u.now }
{
    match t {
        CType::Int(_) => is_number(u),
        CType::Pointer(_) => casts_to_pointer(zero, u),
        _ => false,
    }
}
