ghost use Rattle.std.specs.Prelude.{◌≡◌, ◌++◌, ◌∷◌, [], pos, IfOk, OnOk, map};
ghost use Rattle.floyd_assert_cells.specs.Types.{shape_of as shape_of_lem, sizes_of};
ghost use Rattle.floyd_fieldpath.specs.Nested.{literal as literal_lem, sized_type as sized_type_lem};
ghost use Rattle.floyd_fieldpath.specs.NestedClauses.{sizes_of_all};

use floyd_ctypes::CType;
use floyd_text::{Shared, Steps};
use floyd_tree::{AType, Head, MakeStop, Shape, ShapeList, Term, make};
use sqlite_items::Items;
use std::alloc::{AllocError, Global};
use std::sync::ledger::Ledger;

/// A number as a term.
pub fn literal<L: Ledger>(alloc: Global, z: i128, steps: &mut Steps<L>) -> Result<Term, AllocError>
    ensures { IfOk result (λ t. t ≡ literal_lem z) }
{
    match make(alloc, Head::Literal(z), &[], steps) {
        Ok(t) => Ok(t),
        Err(MakeStop::Memory) => Err(AllocError),
        Err(MakeStop::IllSorted) => unreachable!(),
        Err(MakeStop::TooLarge) => unreachable!(),
    }
}

/// A type of C as one whose array sizes are terms, which are literals.
#[tactic(auto, using(crate::proofs::TypeLemmas::literals_count))]
pub fn sized_type<L: Ledger>(
    alloc: Global,
    t: &CType,
    steps: &mut Steps<L>,
) -> Result<AType, AllocError>
    ensures { IfOk result (λ s. s ≡ sized_type_lem t.now) }
{
    let shape = Shared::new(alloc, shape_of(alloc, t)?)?;
    let mut sizes = Vec::new(alloc);
    put_sizes(alloc, t, &mut sizes, steps)?;
    Ok(AType::new(shape, Items::from_vec(sizes)))
}

/// The shape of a type of C.
#[cycle(shape)]
#[tactic(auto, using(crate::proofs::TypeLemmas::pointer_shape))]
fn shape_of(alloc: Global, t: &CType) -> Result<Shape, AllocError>
    ensures { IfOk result (λ s. s ≡ shape_of_lem t.now) }
{
    match t {
        CType::Void => Ok(Shape::Void),
        CType::Int(kind) => Ok(Shape::Int(*kind)),
        CType::Pointer(to) => {
            let to = shape_of(alloc, to.get())?;
            Ok(Shape::Pointer(Shared::new(alloc, to)?))
        }
        CType::Array(element, _) => {
            let element = shape_of(alloc, element.get())?;
            Ok(Shape::Array(Shared::new(alloc, element)?))
        }
        CType::Struct(tag) => Ok(Shape::Struct(tag.share()?)),
        CType::Function(parameters, result) => {
            let parameters = shapes_of(alloc, parameters.as_slice())?;
            let result = shape_of(alloc, result.get())?;
            Ok(Shape::Function(parameters, Shared::new(alloc, result)?))
        }
    }
}

/// The shapes of types in order.
#[cycle(shape)]
fn shapes_of(alloc: Global, types: &[CType]) -> Result<ShapeList, AllocError>
    ensures { IfOk result (λ all. all ≡ map shape_of_lem types.now) }
{
    let mut all = Items::new(alloc);
    'types: for t in types {
        all.push(shape_of(alloc, t)?)?;
    }
    Ok(all)
}

/// Puts a number at the end, as a literal.
fn put_literal<L: Ledger>(
    alloc: Global,
    n: u64,
    terms: &mut Vec<Term>,
    steps: &mut Steps<L>,
) -> Result<(), AllocError>
    ensures { OnOk result (terms.new.items ≡ terms.old.items ++ literal_lem (pos n) ∷ []) }
{
    terms.push(literal(alloc, i128::from(n), steps)?)?;
    Ok(())
}

/// Puts the array sizes of a type at the end, as literals.
#[cycle(sizes)]
#[tactic(auto, using(crate::proofs::TypeLemmas::pointer_literals, crate::proofs::TypeLemmas::array_literals, crate::proofs::TypeLemmas::function_literals))]
fn put_sizes<L: Ledger>(
    alloc: Global,
    t: &CType,
    sizes: &mut Vec<Term>,
    steps: &mut Steps<L>,
) -> Result<(), AllocError>
    ensures { OnOk result (sizes.new.items ≡ sizes.old.items ++ map literal_lem (sizes_of t.now)) }
{
    match t {
        CType::Void => Ok(()),
        CType::Int(_) => Ok(()),
        CType::Struct(_) => Ok(()),
        CType::Pointer(to) => {
            put_sizes(alloc, to.get(), sizes, steps)?;
            Ok(())
        }
        CType::Array(element, number) => {
            put_literal(alloc, *number, sizes, steps)?;
            put_sizes(alloc, element.get(), sizes, steps)?;
            Ok(())
        }
        CType::Function(parameters, result) => {
            put_all_sizes(alloc, parameters.as_slice(), sizes, steps)?;
            put_sizes(alloc, result.get(), sizes, steps)?;
            Ok(())
        }
    }
}

/// The same of types in order.
#[cycle(sizes)]
fn put_all_sizes<L: Ledger>(
    alloc: Global,
    types: &[CType],
    sizes: &mut Vec<Term>,
    steps: &mut Steps<L>,
) -> Result<(), AllocError>
    ensures { OnOk result (sizes.new.items ≡ sizes.old.items ++ map literal_lem (sizes_of_all types.now)) }
{
    'types: for t in types {
        put_sizes(alloc, t, sizes, steps)?;
    }
    Ok(())
}
