ghost use Rattle.std.specs.Prelude.{◌≡◌, ◌<◌, IfOk, length};
ghost use Rattle.floyd_tree_sorts.specs.Table.{arrays};
ghost use Rattle.floyd_text.specs.Gives.{RuleGives};
ghost use Rattle.floyd_fieldpath.specs.Nested.{element_type as element_type_lem, field_type as field_type_lem, nested_type as nested_type_lem, path_illegal as path_illegal_lem, type_after as type_after_lem};

use crate::literals::sized_type;
use crate::terms::share_terms;
use floyd_ctypes::StructTable;
use floyd_text::{Code, Name, No, RuleStop, Shared, Shown, Steps};
use floyd_tree::{AType, Path, PathStep, Shape, Term};
use std::alloc::{AllocError, Global};
use std::marker::Brand;
use std::sync::ledger::{Blank, Ledger};

/// A step of a path, with the types before and behind it.
#[derive(Clone, Copy)]
pub(crate) struct Passage<'a> {
    pub(crate) from: &'a AType,
    pub(crate) to: &'a AType,
    pub(crate) step: &'a PathStep,
}

/// The refusal of a path that has no type.
pub(crate) fn path_illegal() -> No
    ensures { result ≡ path_illegal_lem }
{
    No {
        code: Code::PathIllegal,
        shown: Shown::Nothing,
    }
}

/// The type at a path. A path that has none is refused: where a field is taken of what is no complete struct with that
/// field, or a subscript of what is no array. A subscript may be any number.
pub fn nested_type(
    alloc: Global,
    structs: &StructTable,
    t: &AType,
    path: &Path,
) -> Result<AType, RuleStop>
    ensures exact { RuleGives (λ u. u) result (nested_type_lem structs.now t.now path.now) }
{
    nested_type_from::<Brand>(alloc, structs, t, path, Blank::new(1))
}

/// The same with a counter of its own.
fn nested_type_from<L: Ledger>(
    alloc: Global,
    structs: &StructTable,
    t: &AType,
    path: &Path,
    blank: Blank,
) -> Result<AType, RuleStop>
    requires name { blank.name ≡ L.name }
    requires parts { blank.parts ≡ L.parts }
    requires some { 0 < blank.parts }
    ensures exact { RuleGives (λ u. u) result (nested_type_lem structs.now t.now path.now) }
{
    let mut steps = Steps::<L>::new(blank);
    type_at(alloc, structs, t, path, &mut steps)
}

/// The same for a caller that counts.
#[tactic(auto, using(crate::proofs::PathLemmas::step_on, crate::proofs::PathLemmas::no_step))]
pub(crate) fn type_at<L: Ledger>(
    alloc: Global,
    structs: &StructTable,
    t: &AType,
    path: &Path,
    steps: &mut Steps<L>,
) -> Result<AType, RuleStop>
    ensures exact { RuleGives (λ u. u) result (nested_type_lem structs.now t.now path.now) }
{
    let mut inner = t.share(alloc)?;
    'places: for place in 0..path.len() {
        let Some(next) = type_after(alloc, structs, &inner, path.step(place), steps)? else {
            return Err(RuleStop::No(path_illegal()));
        };
        inner = next;
    }
    Ok(inner)
}

/// The type after a step, where there is one.
pub(crate) fn type_after<L: Ledger>(
    alloc: Global,
    structs: &StructTable,
    t: &AType,
    step: &PathStep,
    steps: &mut Steps<L>,
) -> Result<Option<AType>, AllocError>
    ensures { IfOk result (λ u. u ≡ type_after_lem structs.now t.now step.now) }
{
    match step {
        PathStep::Field(name) => field_type(alloc, structs, t.shape().get(), name, steps),
        PathStep::Subscript(_) => element_type(alloc, t),
    }
}

/// The type of the field of that name.
#[tactic(auto, using(crate::proofs::TypeLemmas::no_field_of_pointer, crate::proofs::TypeLemmas::no_field_of_array, crate::proofs::TypeLemmas::no_field_of_function))]
fn field_type<L: Ledger>(
    alloc: Global,
    structs: &StructTable,
    shape: &Shape,
    name: &Name,
    steps: &mut Steps<L>,
) -> Result<Option<AType>, AllocError>
    ensures { IfOk result (λ u. u ≡ field_type_lem structs.now shape.now name.now) }
{
    match shape {
        Shape::Struct(tag) => match structs.field_of(tag, name) {
            Some(field) => Ok(Some(sized_type(alloc, &field.ty, steps)?)),
            None => Ok(None),
        },
        Shape::Void => Ok(None),
        Shape::Int(_) => Ok(None),
        Shape::Pointer(_) => Ok(None),
        Shape::Array(_) => Ok(None),
        Shape::Function(_, _) => Ok(None),
    }
}

/// The type of an array's elements.
#[tactic(auto, using(crate::proofs::TypeLemmas::element_of_none, crate::proofs::TypeLemmas::no_element_of_pointer, crate::proofs::TypeLemmas::no_element_of_function))]
fn element_type(alloc: Global, t: &AType) -> Result<Option<AType>, AllocError>
    ensures { IfOk result (λ u. u ≡ element_type_lem t.now.shape t.now.sizes) }
{
    match t.shape().get() {
        Shape::Array(element) => behind_first(alloc, element, t.sizes().as_slice()),
        Shape::Void => Ok(None),
        Shape::Int(_) => Ok(None),
        Shape::Pointer(_) => Ok(None),
        Shape::Struct(_) => Ok(None),
        Shape::Function(_, _) => Ok(None),
    }
}

/// A type of elements, with the sizes behind the first, which is the size of their array.
#[tactic(auto, using(crate::proofs::TypeLemmas::element_of_none, crate::proofs::TypeLemmas::array_arrays))]
fn behind_first(
    alloc: Global,
    element: &Shared<Shape>,
    sizes: &[Term],
) -> Result<Option<AType>, AllocError>
    requires { length sizes.now ≡ arrays (Shape.Array element.now) }
    ensures { IfOk result (λ u. u ≡ element_type_lem (Shape.Array element.now) sizes.now) }
{
    if sizes.len() == 0 {
        return Ok(None);
    }
    let sizes = share_terms(alloc, &sizes[1..])?;
    Ok(Some(AType::new(element.share()?, sizes)))
}
