ghost use Rattle.std.specs.Prelude.{◌≡◌, IfOk, option_map};
ghost use Rattle.floyd_tree_sorts.specs.Sorts.{list_sort};
ghost use Rattle.floyd_tree_values.specs.Defaults.{fields_sort as fields_sort_lem, pair_sorts as pair_sorts_lem, shape_sort as shape_sort_lem, struct_sort as struct_sort_lem, type_sort as type_sort_lem, value_sort as value_sort_lem};
ghost use Rattle.floyd_fieldpath.specs.SortClauses.{element_sort as element_sort_lem, in_lists as in_lists_lem, innermost as innermost_lem};

use floyd_ctypes::{CType, Field, StructTable};
use floyd_text::Name;
use floyd_tree::{Shape, Sort};
use std::alloc::{AllocError, Global};

/// The value sort of a type of this shape: values of scalars, lists of an array's elements, and the pairs of a struct's
/// fields, nested to the right. Void, functions, and what contains an incomplete struct have none.
pub fn value_sort(
    alloc: Global,
    structs: &StructTable,
    shape: &Shape,
) -> Result<Option<Sort>, AllocError>
    ensures { IfOk result (λ s. s ≡ value_sort_lem structs.now shape.now) }
{
    structs.laws();
    let depth = structs.len();
    let sort = shape_sort(alloc, structs, depth, shape)?;
    Ok(sort)
}

/// The value sort, where at most `depth` structs stand one in another.
#[tactic(auto, using(crate::proofs::SortLemmas::pointer_sort, crate::proofs::SortLemmas::array_sort, crate::proofs::SortLemmas::function_sort))]
fn shape_sort(
    alloc: Global,
    structs: &StructTable,
    depth: usize,
    shape: &Shape,
) -> Result<Option<Sort>, AllocError>
    ensures { IfOk result (λ s. s ≡ shape_sort_lem (struct_sort_lem depth structs.now) shape.now) }
{
    match shape {
        Shape::Void => Ok(None),
        Shape::Int(_) => Ok(Some(Sort::Val)),
        Shape::Pointer(_) => Ok(Some(Sort::Val)),
        Shape::Array(element) => {
            let sort = shape_sort(alloc, structs, depth, element.get())?;
            Ok(lists_of(alloc, sort)?)
        }
        Shape::Struct(tag) => {
            let sort = struct_sort(alloc, structs, depth, tag)?;
            Ok(sort)
        }
        Shape::Function(_, _) => Ok(None),
    }
}

#[cycle(structs)]
fn struct_sort(
    alloc: Global,
    structs: &StructTable,
    depth: usize,
    tag: &Name,
) -> Result<Option<Sort>, AllocError>
    ensures { IfOk result (λ s. s ≡ struct_sort_lem depth structs.now tag.now) }
{
    if depth == 0 {
        return Ok(None);
    }
    match structs.fields_of(tag) {
        Some(fields) => {
            let sort = fields_sort(alloc, structs, depth - 1, fields.as_slice())?;
            Ok(sort)
        }
        None => Ok(None),
    }
}

/// The pairs of the fields' sorts, from the last field back.
#[cycle(structs)]
#[tactic(auto, using(crate::proofs::SortLemmas::last_field, crate::proofs::SortLemmas::field_before, crate::proofs::SortLemmas::pointer_element, crate::proofs::SortLemmas::array_element, crate::proofs::SortLemmas::function_element))]
fn fields_sort(
    alloc: Global,
    structs: &StructTable,
    depth: usize,
    fields: &[Field],
) -> Result<Option<Sort>, AllocError>
    ensures { IfOk result (λ s. s ≡ fields_sort_lem (struct_sort_lem depth structs.now) fields.now) }
{
    if fields.is_empty() {
        return Ok(None);
    }
    let mut at = fields.len() - 1;
    let mut sort = type_sort(alloc, structs, depth, &fields[at].ty)?;
    'fields: while at > 0 {
        at -= 1;
        let first = type_sort(alloc, structs, depth, &fields[at].ty)?;
        sort = pair_sorts(alloc, first, sort)?;
    }
    Ok(sort)
}

#[cycle(structs)]
fn type_sort(
    alloc: Global,
    structs: &StructTable,
    depth: usize,
    t: &CType,
) -> Result<Option<Sort>, AllocError>
    ensures { IfOk result (λ s. s ≡ type_sort_lem (struct_sort_lem depth structs.now) t.now) }
{
    let sort = element_sort(alloc, structs, depth, innermost(t))?;
    let sorts = in_lists(alloc, t, sort)?;
    Ok(sorts)
}

/// The value sort of a type that is no array.
#[cycle(structs)]
fn element_sort(
    alloc: Global,
    structs: &StructTable,
    depth: usize,
    t: &CType,
) -> Result<Option<Sort>, AllocError>
    ensures { IfOk result (λ s. s ≡ element_sort_lem (struct_sort_lem depth structs.now) t.now) }
{
    match t {
        CType::Int(_) => Ok(Some(Sort::Val)),
        CType::Pointer(_) => Ok(Some(Sort::Val)),
        CType::Struct(tag) => {
            let sort = struct_sort(alloc, structs, depth, tag)?;
            Ok(sort)
        }
        CType::Void => Ok(None),
        CType::Function(_, _) => Ok(None),
        CType::Array(_, _) => Ok(None),
    }
}

/// The type of the elements of the elements, and so on.
#[tactic(auto, using(crate::proofs::SortLemmas::innermost_pointer, crate::proofs::SortLemmas::innermost_function))]
fn innermost(t: &CType) -> &CType
    ensures { result.now ≡ innermost_lem t.now }
{
    match t {
        CType::Array(element, _) => innermost(element.get()),
        CType::Void => t,
        CType::Int(_) => t,
        CType::Pointer(_) => t,
        CType::Struct(_) => t,
        CType::Function(_, _) => t,
    }
}

/// The sort of lists of lists, one for each array.
#[tactic(auto, using(crate::proofs::SortLemmas::in_lists_pointer, crate::proofs::SortLemmas::in_lists_function))]
fn in_lists(alloc: Global, t: &CType, sort: Option<Sort>) -> Result<Option<Sort>, AllocError>
    ensures { IfOk result (λ s. s ≡ in_lists_lem t.now sort) }
{
    match t {
        CType::Array(element, _) => {
            let sort = in_lists(alloc, element.get(), sort)?;
            Ok(lists_of(alloc, sort)?)
        }
        CType::Void => Ok(sort),
        CType::Int(_) => Ok(sort),
        CType::Pointer(_) => Ok(sort),
        CType::Struct(_) => Ok(sort),
        CType::Function(_, _) => Ok(sort),
    }
}

fn lists_of(alloc: Global, sort: Option<Sort>) -> Result<Option<Sort>, AllocError>
    ensures { IfOk result (λ s. s ≡ option_map list_sort sort) }
{
    match sort {
        Some(sort) => Ok(Some(Sort::list_of(alloc, sort)?)),
        None => Ok(None),
    }
}

fn pair_sorts(
    alloc: Global,
    first: Option<Sort>,
    second: Option<Sort>,
) -> Result<Option<Sort>, AllocError>
    ensures { IfOk result (λ s. s ≡ pair_sorts_lem first second) }
{
    let Some(first) = first else {
        return Ok(None);
    };
    let Some(second) = second else {
        return Ok(None);
    };
    Ok(Some(Sort::pair(alloc, first, second)?))
}
