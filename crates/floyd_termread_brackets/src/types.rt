//! Types that are made of types and sizes.
ghost use Rattle.std.specs.Prelude.{◌≡◌, ◌++◌, ◌∷◌, [], map, flat_map, length, IfOk, OnOk};
ghost use Rattle.floyd_tree_sorts.specs.ShapeClauses.{arrays_of};
ghost use Rattle.floyd_termread_brackets.specs.Brackets as specs;
ghost use Rattle.floyd_termread_wants.specs.Judging.{Judges};

use crate::slots::Part;
use floyd_termread_trees::{Opening, TypeWord, Word};
use floyd_termread_wants::JudgeStop;
use floyd_text::{Place, Shared};
use floyd_tree::{AType, Shape, ShapeList, Term, TermList};
use sqlite_items::Items;
use std::alloc::{AllocError, Global};

/// Adds the same terms, which are not copied, behind others.
fn put_terms(terms: &[Term], all: &mut TermList) -> Result<(), AllocError>
    ensures { OnOk result (all.new ≡ all.old ++ terms.now) }
{
    'terms: for term in terms {
        all.push(term.share()?)?;
    }
    Ok(())
}

#[tactic(auto, using(crate::proofs::TypeLemmas::pointer_arrays))]
fn pointer_made(alloc: Global, parts: &[Part]) -> Result<Option<AType>, AllocError>
    ensures { IfOk result (λ t. t ≡ specs.pointer_made parts.now) }
{
    match parts {
        [Part::Type(t)] => {
            let mut sizes = Items::new(alloc);
            put_terms(t.sizes().as_slice(), &mut sizes)?;
            let shape = Shape::Pointer(t.shape().share()?);
            Ok(Some(AType::new(Shared::new(alloc, shape)?, sizes)))
        }
        _ => Ok(None),
    }
}

#[tactic(auto, using(crate::proofs::TypeLemmas::array_arrays))]
fn array_made(alloc: Global, parts: &[Part]) -> Result<Option<AType>, AllocError>
    ensures { IfOk result (λ t. t ≡ specs.array_made parts.now) }
{
    match parts {
        [Part::Type(t), Part::Term(n)] => {
            let mut sizes = Items::new(alloc);
            sizes.push(n.share()?)?;
            put_terms(t.sizes().as_slice(), &mut sizes)?;
            let shape = Shape::Array(t.shape().share()?);
            Ok(Some(AType::new(Shared::new(alloc, shape)?, sizes)))
        }
        _ => Ok(None),
    }
}

/// The types among parts.
fn put_type(alloc: Global, part: &Part, all: &mut Items<AType>) -> Result<(), AllocError>
    ensures { OnOk result (all.new ≡ all.old ++ specs.types_in (part.now ∷ [])) }
{
    match part {
        Part::Type(t) => all.push(t.share(alloc)?),
        _ => Ok(()),
    }
}

fn types_in(alloc: Global, parts: &[Part]) -> Result<Items<AType>, AllocError>
    ensures { IfOk result (λ ts. ts ≡ specs.types_in parts.now) }
{
    let mut all = Items::new(alloc);
    'parts: for part in parts {
        put_type(alloc, part, &mut all)?;
    }
    Ok(all)
}

/// The same shape, whose shared parts are not copied.
#[cycle(share_shape)]
fn share_shape(alloc: Global, shape: &Shape) -> Result<Shape, AllocError>
    ensures { IfOk result (λ s. s ≡ shape.now) }
{
    match shape {
        Shape::Void => Ok(Shape::Void),
        Shape::Int(kind) => Ok(Shape::Int(*kind)),
        Shape::Pointer(target) => Ok(Shape::Pointer(target.share()?)),
        Shape::Array(element) => Ok(Shape::Array(element.share()?)),
        Shape::Struct(tag) => Ok(Shape::Struct(tag.share()?)),
        Shape::Function(parameters, result) => {
            let parameters = share_shapes(alloc, parameters.as_slice())?;
            Ok(Shape::Function(parameters, result.share()?))
        }
    }
}

#[cycle(share_shape)]
fn share_shapes(alloc: Global, shapes: &[Shape]) -> Result<ShapeList, AllocError>
    ensures { IfOk result (λ ss. ss ≡ shapes.now) }
{
    let mut all = Items::new(alloc);
    'shapes: for shape in shapes {
        all.push(share_shape(alloc, shape)?)?;
    }
    Ok(all)
}

fn shapes_of(alloc: Global, types: &[AType]) -> Result<ShapeList, AllocError>
    ensures { IfOk result (λ ss. ss ≡ map specs.type_shape types.now) }
{
    let mut all = Items::new(alloc);
    'types: for t in types {
        all.push(share_shape(alloc, t.shape().get())?)?;
    }
    Ok(all)
}

fn sizes_of(alloc: Global, types: &[AType]) -> Result<TermList, AllocError>
    ensures value { IfOk result (λ ts. ts ≡ flat_map specs.type_sizes types.now) }
    ensures count { IfOk result (λ ts. length ts ≡ arrays_of (map specs.type_shape types.now)) }
{
    let mut all = Items::new(alloc);
    'types: for t in types {
        put_terms(t.sizes().as_slice(), &mut all)?;
    }
    Ok(all)
}

/// The type of functions with these parameters and that result.
#[tactic(auto, using(crate::proofs::TypeLemmas::function_fits))]
fn function_type(
    alloc: Global,
    parameters: &[AType],
    result_type: &AType,
) -> Result<AType, AllocError>
    ensures { IfOk result (λ t. t ≡ specs.function_type parameters.now result_type.now) }
{
    let shapes = shapes_of(alloc, parameters)?;
    let mut sizes = sizes_of(alloc, parameters)?;
    put_terms(result_type.sizes().as_slice(), &mut sizes)?;
    let shape = Shape::Function(shapes, result_type.shape().share()?);
    Ok(AType::new(Shared::new(alloc, shape)?, sizes))
}

/// The last of the types is that of the result.
#[tactic(auto, using(crate::proofs::TypeLemmas::function_of_last))]
fn function_made(alloc: Global, types: Items<AType>) -> Result<Option<AType>, AllocError>
    ensures { IfOk result (λ t. t ≡ specs.function_made types) }
{
    let mut parameters = types;
    match parameters.pop() {
        Some(last) => Ok(Some(function_type(alloc, parameters.as_slice(), &last)?)),
        None => Ok(None),
    }
}

fn word_type_made(
    alloc: Global,
    word: TypeWord,
    parts: &[Part],
) -> Result<Option<AType>, AllocError>
    ensures { IfOk result (λ t. t ≡ specs.word_type_made word parts.now) }
{
    match word {
        TypeWord::Ptr => pointer_made(alloc, parts),
        TypeWord::Array => array_made(alloc, parts),
        TypeWord::Fn => {
            let types = types_in(alloc, parts)?;
            function_made(alloc, types)
        }
        TypeWord::Void | TypeWord::Int(_) | TypeWord::Struct => Ok(None),
    }
}

/// The type that is made of a bracket whose items were read as these parts.
fn type_made(alloc: Global, opening: &Opening, parts: &[Part]) -> Result<Option<AType>, AllocError>
    ensures { IfOk result (λ t. t ≡ specs.type_made opening.now parts.now) }
{
    match opening {
        Opening::Word(Word::Type(word), _) => word_type_made(alloc, *word, parts),
        _ => Ok(None),
    }
}

/// The type that is made of a bracket whose items were read as these parts, unless the text is cut off in it.
pub fn closed_type(
    alloc: Global,
    opening: &Opening,
    parts: &[Part],
    close: Option<Place>,
) -> Result<AType, JudgeStop>
    ensures exact { Judges (λ t. t) result (specs.closed_type opening.now parts.now close) }
{
    if close.is_none() {
        return Err(JudgeStop::CutOff);
    }
    match type_made(alloc, opening, parts)? {
        Some(t) => Ok(t),
        None => Err(JudgeStop::CutOff),
    }
}
