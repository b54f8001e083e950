//! Contents that one constant gives.
ghost use Rattle.std.specs.Prelude.{◌≡◌, ◌&&◌, ◌||◌, IsTrue, IfOk};
ghost use Rattle.std.specs.Option.{option_copied, unwrap_or};
ghost use Rattle.floyd_text.specs.Gives.{Gives};
ghost use Rattle.floyd_text.specs.declared.refusal.Halt.TheVariants.{Refused};
ghost use Rattle.floyd_cparse_trees.specs.declared.declarations.Constant.TheVariants as constants;
ghost use Rattle.floyd_cparse_trees.specs.declared.declarations.Initialiser.TheVariants as initialiser;
ghost use Rattle.floyd_ctypes.specs.Layout.{size};
ghost use Rattle.floyd_elab_names.specs.declared.tags.Tags.{Tags as Kept};
ghost use Rattle.floyd_elab_names.specs.Refusals.{ill_typed as ill_typed_lem};
ghost use Rattle.floyd_elab_names.specs.Types.{has_size as has_size_lem, pointer_to as pointer_to_lem, is_function as is_function_lem};
ghost use Rattle.floyd_ctyping.specs.Operators.{fits_into as fits_into_lem, value_of_type};
ghost use Rattle.floyd_elab_data.specs.Contents.{element_type as element_type_lem, literal_contents as literal_contents_lem, element_of as element_of_lem, is_array as is_array_lem, constant as constant_lem, contents as contents_lem};

use floyd_clight::Initial;
use floyd_cparse_trees::{Constant, Identifier, Literal};
use floyd_ctypes::{CType, StructTable};
use floyd_ctyping::{Operand, constant_bits, fits_into, name_operand};
use floyd_elab_names::{Names, Tags, has_size, ill_typed, is_function, is_scalar, pointer_to};
use floyd_text::{Halt, Place};
use std::alloc::{AllocError, Global};

/// Ill typed at this place.
pub(crate) fn misfit(place: Place) -> Halt
    ensures { result ≡ Refused (ill_typed_lem place) }
{
    Halt::Refused(ill_typed(place))
}

/// What a literal gives: for a number its value, cast to the number's kind, and for a pointer only the constant 0.
fn literal_contents(
    place: Place,
    t: &CType,
    negative: bool,
    literal: Literal,
) -> Result<Initial, Halt>
    ensures exact { (tags : Kept) → Gives (λ x. (x, tags)) result (literal_contents_lem place t.now negative literal tags) }
{
    match t {
        CType::Int(kind) => { Ok(Initial::Int(*kind, constant_bits(*kind, negative, literal))) }
        CType::Pointer(_) if !negative && literal.value == 0 => Ok(Initial::Null),
        _ => Err(misfit(place)),
    }
}

fn is_array(t: &CType) -> bool
    ensures { result ≡ is_array_lem t.now }
{
    matches!(t, CType::Array(_, _))
}

fn element_of(t: &CType) -> Option<&CType>
    ensures { option_copied result ≡ element_of_lem t.now }
{
    match t {
        CType::Array(element, _) => Some(element.get()),
        _ => None,
    }
}

/// Whether a name alone may stand for its address, and that fits.
fn is_name_fit(alloc: Global, t: &CType, a: &Operand) -> Result<bool, AllocError>
    ensures { IfOk result (λ yes. yes ≡ ((is_array_lem a.now.ctype || is_function_lem a.now.ctype) && fits_into_lem t.now a.now)) }
{
    if is_array(&a.ctype) || is_function(&a.ctype) {
        return fits_into(alloc, t, a);
    }
    Ok(false)
}

/// Whether a pointer to the second type may become a value of the first.
fn is_pointer_fit(alloc: Global, t: &CType, to: &CType) -> Result<bool, AllocError>
    ensures { IfOk result (λ yes. yes ≡ fits_into_lem t.now (value_of_type (pointer_to_lem to.now))) }
{
    let pointer = pointer_to(alloc, to.share(alloc)?)?;
    fits_into(alloc, t, &Operand::value(pointer))
}

/// The size in bytes of a type that has one.
#[tactic(auto, using(crate::proofs::ConstantLemmas::sized_fits))]
fn size_in(structs: &StructTable, t: &CType) -> u64
    requires { IsTrue (has_size_lem structs.now t.now) }
    ensures { result ≡ unwrap_or (size structs.now t.now) 0 }
{
    match structs.size_of(t) {
        Some(bytes) => bytes,
        None => 0,
    }
}

/// A name alone, which is that of an array or a function.
fn name_contents(
    alloc: Global,
    names: &Names,
    place: Place,
    t: &CType,
    i: &Identifier,
) -> Result<Initial, Halt>
    ensures exact { (tags : Kept) → Gives (λ x. (x, tags)) result (constant_lem names.now place t.now (constants.Name i.now) tags) }
{
    let a = name_operand(alloc, i, names.meaning_of(&i.name))?;
    if !is_name_fit(alloc, t, &a)? {
        return Err(misfit(place));
    }
    Ok(Initial::Address(i.name.share()?))
}

/// `&` and a name.
fn address_contents(
    alloc: Global,
    names: &Names,
    place: Place,
    t: &CType,
    i: &Identifier,
) -> Result<Initial, Halt>
    ensures exact { (tags : Kept) → Gives (λ x. (x, tags)) result (constant_lem names.now place t.now (constants.Address i.now) tags) }
{
    let a = name_operand(alloc, i, names.meaning_of(&i.name))?;
    if !is_pointer_fit(alloc, t, &a.ctype)? {
        return Err(misfit(place));
    }
    Ok(Initial::Address(i.name.share()?))
}

/// The type of the elements of the array of that name.
fn element_type(
    alloc: Global,
    names: &Names,
    tags: &Tags,
    bracket: Place,
    i: &Identifier,
) -> Result<CType, Halt>
    ensures exact { Gives (λ u. (u, tags.now)) result (element_type_lem names.now bracket i.now tags.now) }
    ensures sized { IfOk result (λ u. IsTrue (has_size_lem tags.now.structs u)) }
{
    let a = name_operand(alloc, i, names.meaning_of(&i.name))?;
    let Some(element) = element_of(&a.ctype) else {
        return Err(misfit(bracket));
    };
    if !has_size(&tags.structs, element) {
        return Err(misfit(bracket));
    }
    Ok(element.share(alloc)?)
}

/// An element of an array as it is written.
#[derive(Clone, Copy)]
struct Element<'a> {
    array: &'a Identifier,
    bracket: Place,
    index: Literal,
}

/// The address of an element of an array.
fn element_contents(
    alloc: Global,
    names: &Names,
    tags: &Tags,
    place: Place,
    t: &CType,
    written: Element<'_>,
) -> Result<Initial, Halt>
    ensures exact { Gives (λ x. (x, tags.now)) result (constant_lem names.now place t.now (constants.Element written.entry.array.now written.entry.bracket written.entry.index) tags.now) }
{
    let element = element_type(alloc, names, tags, written.bracket, written.array)?;
    if !is_pointer_fit(alloc, t, &element)? {
        return Err(misfit(place));
    }
    let bytes = size_in(&tags.structs, &element);
    Ok(Initial::Element(
        written.array.name.share()?,
        u128::from(written.index.value) * u128::from(bytes),
    ))
}

/// The contents that a constant gives. What does not fit is ill typed at the given place.
fn constant_contents(
    alloc: Global,
    names: &Names,
    tags: &Tags,
    place: Place,
    t: &CType,
    c: &Constant,
) -> Result<Initial, Halt>
    ensures exact { Gives (λ x. (x, tags.now)) result (constant_lem names.now place t.now c.now tags.now) }
{
    match c {
        Constant::Literal { negative, literal } => {
            literal_contents(place, t, *negative, *literal)
        }
        Constant::Name(i) => name_contents(alloc, names, place, t, i),
        Constant::Address(i) => address_contents(alloc, names, place, t, i),
        Constant::Element {
            array,
            place: bracket,
            index,
        } => {
            let element = Element {
                array,
                bracket: *bracket,
                index: *index,
            };
            element_contents(alloc, names, tags, place, t, element)
        }
    }
}

/// The same of a number or a pointer. Nothing else has a constant.
pub(crate) fn scalar_contents(
    alloc: Global,
    names: &Names,
    tags: &Tags,
    place: Place,
    t: &CType,
    c: &Constant,
) -> Result<Initial, Halt>
    ensures exact { Gives (λ x. (x, tags.now)) result (contents_lem names.now place t.now (initialiser.Constant c.now) tags.now) }
{
    if !is_scalar(t) {
        return Err(misfit(place));
    }
    constant_contents(alloc, names, tags, place, t, c)
}
