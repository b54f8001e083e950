ghost use Rattle.std.specs.Prelude.{◌≡◌, IfOk};
ghost use Rattle.std.specs.Option.{option_copied};
ghost use Rattle.floyd_elab_names.specs.Types.{pointer_to as pointer_to_lem, same_type as same_type_lem, is_void as is_void_lem, is_function as is_function_lem, is_scalar as is_scalar_lem, decay as decayed_lem, pointee as pointee_lem, tag_of as tag_of_lem, has_size as has_size_lem, is_aggregate as is_aggregate_lem, returns_well as returns_well_lem};

use floyd_ctypes::{CType, StructTable};
use floyd_text::{Name, Shared};
use std::alloc::{AllocError, Global};

#[tactic(auto, using(crate::proofs::TypeLemmas::pointer_is))]
pub fn pointer_to(alloc: Global, t: CType) -> Result<CType, AllocError>
    ensures { IfOk result (λ p. p ≡ pointer_to_lem t) }
{
    Ok(CType::Pointer(Shared::new(alloc, t)?))
}

/// Whether two types are written alike.
pub fn same_type(t: &CType, u: &CType) -> bool
    ensures { result ≡ same_type_lem t.now u.now }
{
    t.same(u)
}

pub fn is_void(t: &CType) -> bool
    ensures { result ≡ is_void_lem t.now }
{
    matches!(t, CType::Void)
}

pub fn is_function(t: &CType) -> bool
    ensures { result ≡ is_function_lem t.now }
{
    matches!(t, CType::Function(_, _))
}

/// Whether it is a number or a pointer.
pub fn is_scalar(t: &CType) -> bool
    ensures { result ≡ is_scalar_lem t.now }
{
    matches!(t, CType::Int(_) | CType::Pointer(_))
}

/// Whether it is an array, a struct or a function.
pub fn is_aggregate(t: &CType) -> bool
    ensures { result ≡ is_aggregate_lem t.now }
{
    matches!(
        t,
        CType::Array(_, _) | CType::Struct(_) | CType::Function(_, _)
    )
}

/// The type of its value: an array becomes a pointer to its first element, and a function a pointer to it.
pub fn decay(alloc: Global, t: &CType) -> Result<CType, AllocError>
    ensures { IfOk result (λ u. u ≡ decayed_lem t.now) }
{
    match t {
        CType::Array(element, _) => Ok(CType::Pointer(element.share()?)),
        CType::Function(_, _) => pointer_to(alloc, t.share(alloc)?),
        _ => t.share(alloc),
    }
}

/// What a pointer points to.
pub fn pointee(t: &CType) -> Option<&CType>
    ensures { option_copied result ≡ pointee_lem t.now }
{
    match t {
        CType::Pointer(to) => Some(to.get()),
        _ => None,
    }
}

/// The tag of a struct.
pub fn tag_of(t: &CType) -> Option<&Name>
    ensures { option_copied result ≡ tag_of_lem t.now }
{
    match t {
        CType::Struct(tag) => Some(tag),
        _ => None,
    }
}

/// Whether a size in bytes is known. Void, functions and incomplete structs have none, nor do arrays of them, nor an
/// array above the limit on objects.
pub fn has_size(structs: &StructTable, t: &CType) -> bool
    ensures { result ≡ has_size_lem structs.now t.now }
{
    structs.arrays_fit(t) && structs.layout_of(t).is_some()
}

/// Whether each function that the type leads to returns no struct, array or function.
pub fn returns_well(t: &CType) -> bool
    ensures { result ≡ returns_well_lem t.now }
{
    match t {
        CType::Pointer(to) => returns_well(to.get()),
        CType::Array(element, _) => returns_well(element.get()),
        CType::Function(_, result) => {
            let result = result.get();
            !is_aggregate(result) && returns_well(result)
        }
        CType::Void | CType::Int(_) | CType::Struct(_) => true,
    }
}
