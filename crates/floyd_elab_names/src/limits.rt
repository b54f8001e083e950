//! Limits on types.
ghost use Rattle.std.specs.Prelude.{◌≡◌, max, nat_le};
ghost use Rattle.floyd_elab_names.specs.ListClauses.{most_nesting, each_within as each_within_lem};
ghost use Rattle.floyd_elab_names.specs.Types.{nesting, arrays_within as arrays_within_lem, is_within as is_within_lem, is_object_within as is_object_within_lem, is_object_type as is_object_type_lem, is_passed as is_passed_lem, is_parameter_type as is_parameter_type_lem};

use crate::types::{has_size, returns_well};
use floyd_ctypes::{CType, StructTable};

/// How many pointers, arrays and functions may stand around each other.
const MAX_NESTING: u32 = 200;

/// Whether no more than so many pointers, arrays and functions stand around each other. The limit bounds the depth of
/// the calls.
#[cycle(nested)]
fn is_nested_within(t: &CType, limit: u32) -> bool
    ensures { result ≡ nat_le (nesting t.now) limit }
{
    match t {
        CType::Pointer(to) => limit > 0 && is_nested_within(to.get(), limit - 1),
        CType::Array(element, _) => limit > 0 && is_nested_within(element.get(), limit - 1),
        CType::Function(parameters, result) => {
            limit > 0 && are_nested_within(parameters.as_slice(), result.get(), limit - 1)
        }
        CType::Void | CType::Int(_) | CType::Struct(_) => true,
    }
}

#[cycle(nested)]
fn are_nested_within(types: &[CType], t: &CType, limit: u32) -> bool
    ensures { result ≡ nat_le (max (most_nesting types.now) (nesting t.now)) limit }
{
    all_nested_within(types, limit) && is_nested_within(t, limit)
}

#[cycle(nested)]
fn all_nested_within(types: &[CType], limit: u32) -> bool
    ensures { result ≡ nat_le (most_nesting types.now) limit }
{
    'types: for t in types {
        if !is_nested_within(t, limit) {
            return false;
        }
    }
    true
}

/// Whether no array in the type is above the limit on objects, also behind pointers.
#[cycle(arrays)]
fn arrays_within(structs: &StructTable, t: &CType) -> bool
    ensures { result ≡ arrays_within_lem structs.now t.now }
{
    match t {
        CType::Pointer(to) => arrays_within(structs, to.get()),
        CType::Array(element, _) => arrays_within(structs, element.get()) && structs.fits(t),
        CType::Function(parameters, result) => {
            each_within(structs, parameters.as_slice()) && arrays_within(structs, result.get())
        }
        CType::Void | CType::Int(_) | CType::Struct(_) => true,
    }
}

#[cycle(arrays)]
fn each_within(structs: &StructTable, types: &[CType]) -> bool
    ensures { result ≡ each_within_lem structs.now types.now }
{
    'types: for t in types {
        if !arrays_within(structs, t) {
            return false;
        }
    }
    true
}

/// Whether it is neither too deep nor too large in an array.
pub fn is_within(structs: &StructTable, t: &CType) -> bool
    ensures { result ≡ is_within_lem structs.now t.now }
{
    is_nested_within(t, MAX_NESTING) && arrays_within(structs, t)
}

/// Whether it is neither too deep nor too large, where it has a size.
#[tactic(auto, using(crate::proofs::LimitLemmas::fits_where_within))]
pub fn is_object_within(structs: &StructTable, t: &CType) -> bool
    ensures { result ≡ is_object_within_lem structs.now t.now }
{
    is_within(structs, t) && structs.fits(t)
}

/// Whether an object may have the type.
pub fn is_object_type(structs: &StructTable, t: &CType) -> bool
    ensures { result ≡ is_object_type_lem structs.now t.now }
{
    has_size(structs, t) && returns_well(t)
}

/// Whether a parameter may be declared with the type, as far as its own size goes.
fn is_passed(structs: &StructTable, t: &CType) -> bool
    ensures { result ≡ is_passed_lem structs.now t.now }
{
    match t {
        CType::Array(element, _) => has_size(structs, element.get()),
        CType::Function(_, _) => true,
        CType::Struct(_) => false,
        CType::Void | CType::Int(_) | CType::Pointer(_) => has_size(structs, t),
    }
}

/// Whether a parameter may be declared with the type. An array and a function become pointers.
pub fn is_parameter_type(structs: &StructTable, t: &CType) -> bool
    ensures { result ≡ is_parameter_type_lem structs.now t.now }
{
    is_passed(structs, t) && returns_well(t)
}
