//! Operators on operands, in the order in which the text has them.
ghost use Rattle.std.specs.Prelude.{◌≡◌, IfOk, is_some, option_and_then};
ghost use Rattle.std.specs.Option.{option_copied};
ghost use Rattle.floyd_text.specs.Gives.{Gives};
ghost use Rattle.floyd_text.specs.declared.refusal.Halt.TheVariants.{Refused};
ghost use Rattle.floyd_elab_names.specs.Refusals.{ill_typed as ill_typed_lem};
ghost use Rattle.floyd_elab_names.specs.declared.tags.Tags.{Tags as Kept};
ghost use Rattle.floyd_ctyping.specs.Operators.{struct_before as struct_before_lem, callee_signature as called_lem, signature_of, with_count};
ghost use Rattle.floyd_ctyping.specs.Expressions.{standing_in as standing_in_lem, standing_of as standing_of_lem, name_operand as named_lem, gives_value as gives_value_lem, gives_object as gives_object_lem, address_of as address_of_lem, prefix_operator as prefix_operator_lem, cast_to as cast_to_lem, check_test as tested_lem, nested_step as nested_step_lem, nested_assignment as nested_assignment_lem, nested_call as nested_call_lem, member as member_lem};

use crate::judge::{
    address_type, dereference_type, is_cast, is_stepped, is_target, is_test, not_type, sign_type,
};
use crate::operand::{Operand, Standing};
use floyd_cparse_trees::{Identifier, MemberOp, PrefixOp};
use floyd_ctypes::CType;
use floyd_elab_names::{
    Meaning, Site, Storage, Tags, bad_cast, ill_typed, left_out, nested_effect, pointee, tag_of,
    undeclared,
};
use floyd_text::{Halt, Name, Place};
use std::alloc::{AllocError, Global};

/// Ill typed at this place.
pub(crate) fn misfit(place: Place) -> Halt
    ensures { result ≡ Refused (ill_typed_lem place) }
{
    Halt::Refused(ill_typed(place))
}

fn standing_in(storage: Storage) -> Standing
    ensures { result ≡ standing_in_lem storage }
{
    match storage {
        Storage::Global | Storage::Block | Storage::Temporary => Standing::Object,
        Storage::Parameter => Standing::Parameter,
    }
}

/// The constant 0 is a literal of that value.
pub fn standing_of(n: u64) -> Standing
    ensures { result ≡ standing_of_lem n }
{
    if n == 0 {
        Standing::Zero
    } else {
        Standing::Value
    }
}

/// What a name is as an operand.
pub fn name_operand(
    alloc: Global,
    i: &Identifier,
    meaning: Option<&Meaning>,
) -> Result<Operand, Halt>
    ensures exact { (tags : Kept) → Gives (λ a. (a, tags)) result (named_lem i.now (option_copied meaning.entry) tags) }
{
    match meaning {
        Some(Meaning::Variable { ctype, storage, .. }) => Ok(Operand {
            ctype: ctype.share(alloc)?,
            standing: standing_in(*storage),
        }),
        Some(Meaning::Function(t)) => Ok(Operand::value(t.share(alloc)?)),
        _ => Err(Halt::Refused(undeclared(i)?)),
    }
}

/// The operator's result is a value of this type. Without one its operands do not fit.
pub fn gives_value(place: Place, found: Option<CType>) -> Result<Operand, Halt>
    ensures exact { (tags : Kept) → Gives (λ a. (a, tags)) result (gives_value_lem place found tags) }
{
    match found {
        Some(t) => Ok(Operand::value(t)),
        None => Err(misfit(place)),
    }
}

/// It is an object of this type.
pub fn gives_object(place: Place, found: Option<CType>) -> Result<Operand, Halt>
    ensures exact { (tags : Kept) → Gives (λ a. (a, tags)) result (gives_object_lem place found tags) }
{
    match found {
        Some(t) => Ok(Operand::object(t)),
        None => Err(misfit(place)),
    }
}

/// The address of a parameter is left out.
fn address_of(alloc: Global, place: Place, a: &Operand) -> Result<Operand, Halt>
    ensures exact { (tags : Kept) → Gives (λ r. (r, tags)) result (address_of_lem place a.now tags) }
{
    if a.is_parameter() {
        return Err(Halt::Refused(left_out(alloc, &Site::ampersand(place))?));
    }
    gives_value(place, address_type(alloc, a)?)
}

/// An operator before its operand.
pub fn prefix_operator(
    alloc: Global,
    op: PrefixOp,
    place: Place,
    a: &Operand,
) -> Result<Operand, Halt>
    ensures exact { (tags : Kept) → Gives (λ r. (r, tags)) result (prefix_operator_lem op place a.now tags) }
{
    match op {
        PrefixOp::Minus | PrefixOp::Plus | PrefixOp::Complement => {
            gives_value(place, sign_type(alloc, a)?)
        }
        PrefixOp::Not => gives_value(place, not_type(alloc, a)?),
        PrefixOp::Dereference => gives_object(place, dereference_type(alloc, a)?),
        PrefixOp::Address => address_of(alloc, place, a),
    }
}

/// A cast to that type, as it is written.
pub fn cast_to(alloc: Global, place: Place, t: &CType, a: &Operand) -> Result<Operand, Halt>
    ensures exact { (tags : Kept) → Gives (λ r. (r, tags)) result (cast_to_lem place t.now a.now tags) }
{
    if !is_cast(alloc, t, a)? {
        return Err(Halt::Refused(bad_cast(place)));
    }
    Ok(Operand::value(t.share(alloc)?))
}

/// A test, directly behind it.
pub fn check_test(alloc: Global, place: Place, a: &Operand) -> Result<(), Halt>
    ensures exact { (tags : Kept) → Gives (λ r. (r, tags)) result (tested_lem place a.now tags) }
{
    if !is_test(alloc, a)? {
        return Err(misfit(place));
    }
    Ok(())
}

/// A step inside an expression is refused, once it is judged.
pub fn nested_step(alloc: Global, tags: &Tags, place: Place, a: &Operand) -> Result<Operand, Halt>
    ensures exact { Gives (λ r. (r, tags.now)) result (nested_step_lem place a.now tags.now) }
{
    if !is_stepped(alloc, &tags.structs, a)? {
        return Err(misfit(place));
    }
    Err(Halt::Refused(nested_effect(place)))
}

/// An assignment inside an expression is refused, once what it goes to is judged.
pub fn nested_assignment(place: Place, a: &Operand) -> Result<Operand, Halt>
    ensures exact { (tags : Kept) → Gives (λ r. (r, tags)) result (nested_assignment_lem place a.now tags) }
{
    if !is_target(a) {
        return Err(misfit(place));
    }
    Err(Halt::Refused(nested_effect(place)))
}

/// The same tag, shared.
fn share_tag(tag: Option<&Name>) -> Result<Option<Name>, AllocError>
    ensures { IfOk result (λ o. o ≡ option_copied tag.entry) }
{
    match tag {
        Some(tag) => Ok(Some(tag.share()?)),
        None => Ok(None),
    }
}

/// The tag of the struct that `.` or `->` takes a field of.
fn struct_before(alloc: Global, op: MemberOp, a: &Operand) -> Result<Option<Name>, AllocError>
    ensures { IfOk result (λ o. o ≡ struct_before_lem op a.now) }
{
    match op {
        MemberOp::Dot => share_tag(tag_of(&a.ctype)),
        MemberOp::Arrow => {
            let t = a.value_type(alloc)?;
            match pointee(&t) {
                Some(to) => share_tag(tag_of(to)),
                None => Ok(None),
            }
        }
    }
}

/// A field of a struct.
pub fn member(
    alloc: Global,
    tags: &Tags,
    op: MemberOp,
    place: Place,
    field: &Identifier,
    a: &Operand,
) -> Result<Operand, Halt>
    ensures exact { Gives (λ r. (r, tags.now)) result (member_lem op place field.now a.now tags.now) }
{
    let Some(tag) = struct_before(alloc, op, a)? else {
        return Err(misfit(place));
    };
    match tags.structs.field_of(&tag, &field.name) {
        Some(f) => Ok(Operand::object(f.ty.share(alloc)?)),
        None => Err(Halt::Refused(undeclared(field)?)),
    }
}

/// Whether it is a function or a pointer to one, of so many parameters.
fn is_called(alloc: Global, count: usize, a: &Operand) -> Result<bool, AllocError>
    ensures { IfOk result (λ yes. yes ≡ is_some (called_lem count a.now)) }
{
    let t = a.value_type(alloc)?;
    match pointee(&t) {
        Some(to) => Ok(takes(count, to)),
        None => Ok(false),
    }
}

/// Whether it is a function of so many parameters.
fn takes(count: usize, t: &CType) -> bool
    ensures { result ≡ is_some (option_and_then (with_count count) (signature_of t.now)) }
{
    match t {
        CType::Function(parameters, _) => parameters.len() == count,
        _ => false,
    }
}

/// A call inside an expression is refused, once its function and the number of its arguments are judged.
pub fn nested_call(alloc: Global, place: Place, count: usize, a: &Operand) -> Result<Operand, Halt>
    ensures exact { (tags : Kept) → Gives (λ r. (r, tags)) result (nested_call_lem place count a.now tags) }
{
    if !is_called(alloc, count, a)? {
        return Err(misfit(place));
    }
    Err(Halt::Refused(nested_effect(place)))
}
