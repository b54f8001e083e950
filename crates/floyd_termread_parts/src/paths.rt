//! Paths of parts.
ghost use Rattle.std.specs.Prelude.{◌≡◌, ◌≤◌, ◌<◌, ◌+◌, ◌^◌, IfOk, length};
ghost use Rattle.floyd_fieldpath.specs.Nested.{type_at};
ghost use Rattle.floyd_termread_parts.specs.Objects as specs;
ghost use Rattle.floyd_termread_phrases.specs.Reads.{Answers};
ghost use Rattle.floyd_termread_scope.specs.Scopes.{env};

use floyd_ctypes::StructTable;
use floyd_fieldpath::{nested_type, value_sort};
use floyd_termread_marks::first_place;
use floyd_termread_phrases::{Spot, Text, path_at};
use floyd_termread_scope::{Scope, Variables};
use floyd_termread_wants::ill_sorted;
use floyd_text::{Halt, RuleStop};
use floyd_tree::{AType, Path, Shape, Sort};
use std::alloc::{AllocError, Global};

/// The type at a path, where it has one.
fn type_there(
    alloc: Global,
    structs: &StructTable,
    ty: &AType,
    path: &Path,
) -> Result<Option<AType>, AllocError>
    ensures { IfOk result (λ t. t ≡ type_at structs.now ty.now path.now) }
{
    match nested_type(alloc, structs, ty, path) {
        Ok(there) => Ok(Some(there)),
        Err(stop) => match &stop {
            RuleStop::No(_) => Ok(None),
            RuleStop::Memory => Err(AllocError),
        },
    }
}

/// The value sort of what stands at a path.
fn sort_there(
    alloc: Global,
    structs: &StructTable,
    ty: &AType,
    path: &Path,
) -> Result<Option<Sort>, AllocError>
    ensures { IfOk result (λ s. s ≡ specs.sort_at structs.now ty.now path.now) }
{
    match type_there(alloc, structs, ty, path)? {
        Some(there) => value_sort(alloc, structs, there.shape().get()),
        None => Ok(None),
    }
}

#[tactic(auto, using(crate::proofs::ShapeLemmas::pointer_is_none, crate::proofs::ShapeLemmas::array_is_none, crate::proofs::ShapeLemmas::function_is_none))]
fn is_struct(shape: &Shape) -> bool
    ensures { result ≡ specs.is_struct shape.now }
{
    match shape {
        Shape::Struct(_) => true,
        Shape::Void => false,
        Shape::Int(_) => false,
        Shape::Pointer(_) => false,
        Shape::Array(_) => false,
        Shape::Function(_, _) => false,
    }
}

/// Whether a struct stands at a path.
fn is_struct_there(
    alloc: Global,
    structs: &StructTable,
    ty: &AType,
    path: &Path,
) -> Result<bool, AllocError>
    ensures { IfOk result (λ yes. yes ≡ specs.is_struct_type (type_at structs.now ty.now path.now)) }
{
    match type_there(alloc, structs, ty, path)? {
        Some(there) => Ok(is_struct(there.shape().get())),
        None => Ok(false),
    }
}

/// A path in values of a type, and the sort of the values there.
pub(crate) fn value_path_at(
    alloc: Global,
    scope: &Scope<'_>,
    bound: &Variables,
    text: Text<'_>,
    spot: Spot,
    ty: &AType,
) -> Result<((Path, Sort), u32), Halt>
    requires at { spot.at ≤ length text.tokens.now.items }
    requires count { length text.tokens.now.items < 2 ^ 32 }
    ensures exact { Answers (λ x. x) (specs.value_path text.entry.bytes.now text.entry.tokens.now spot.depth (env scope.now bound.now) ty.now spot.at) result }
    ensures from { IfOk result (λ x. spot.at ≤ x.1) }
    ensures within { IfOk result (λ x. x.1 ≤ length text.entry.tokens.now.items) }
{
    let (path, behind) = path_at(alloc, scope, bound, text, spot)?;
    match sort_there(alloc, &scope.defs.structs, ty, &path)? {
        Some(sort) => Ok(((path, sort), behind)),
        None => Err(Halt::Refused(ill_sorted(first_place(text, spot.at)))),
    }
}

/// A path to a struct in values of a type.
pub(crate) fn struct_path_at(
    alloc: Global,
    scope: &Scope<'_>,
    bound: &Variables,
    text: Text<'_>,
    spot: Spot,
    ty: &AType,
) -> Result<(Path, u32), Halt>
    requires at { spot.at ≤ length text.tokens.now.items }
    requires count { length text.tokens.now.items < 2 ^ 32 }
    ensures exact { Answers (λ x. x) (specs.struct_path text.entry.bytes.now text.entry.tokens.now spot.depth (env scope.now bound.now) ty.now spot.at) result }
    ensures from { IfOk result (λ x. spot.at ≤ x.1) }
    ensures within { IfOk result (λ x. x.1 ≤ length text.entry.tokens.now.items) }
{
    let (path, behind) = path_at(alloc, scope, bound, text, spot)?;
    if is_struct_there(alloc, &scope.defs.structs, ty, &path)? {
        return Ok((path, behind));
    }
    Err(Halt::Refused(ill_sorted(first_place(text, spot.at))))
}
