//! Fields, parameters and structs as they are declared.
ghost use Rattle.std.specs.Prelude.{◌≡◌, ◌&&◌, Some, IsTrue, IfOk, OnOk};
ghost use Rattle.floyd_ctypes.specs.Structs.{has_tag};
ghost use Rattle.floyd_ctypes.specs.Define.{declared};
ghost use Rattle.floyd_ctypes.specs.declared.define.DefineStop.TheVariants.{Incomplete};
ghost use Rattle.floyd_elab_names.specs.Refusing.{GivesWith};
ghost use Rattle.floyd_elab_names.specs.StoredClauses.{halt_at as halt_at_lem};
ghost use Rattle.floyd_elab_names.specs.Scopes.{meaning_of};
ghost use Rattle.floyd_elab_names.specs.Declarators.{field_names, typedef_type as type_meant_lem, unless_among as unless_among_lem, may_have as may_have_lem, begin_fields as begin_fields_lem, complete as complete_lem, new_field as field_declared_lem, new_parameter as parameter_declared_lem, name_of as name_of_lem};
ghost use Rattle.floyd_elab_names.specs.Declarators.{has_sizes as has_sizes_lem};
ghost use Rattle.floyd_elab_names.specs.Types.{is_parameter_type as is_parameter_type_lem};
ghost use Rattle.floyd_elab_names.specs.StoredClauses.{AllStored};

use crate::declarators::{has_sizes, limit_site, name_of, name_or_none, name_site};
use crate::fields::Fields;
use crate::limits::{is_object_type, is_object_within, is_parameter_type};
use crate::meaning::Meaning;
use crate::names::Names;
use crate::refusals::{ill_typed, left_out, redeclared};
use crate::site::Site;
use crate::tags::Tags;
use crate::types::decay;
use floyd_cparse_trees::{Declarator, Identifier};
use floyd_ctypes::{CType, DefineStop, Field, FieldList};
use floyd_text::Halt;
use std::alloc::{AllocError, Global};

/// A tag holds from its first mention.
pub(crate) fn mention(tags: &mut Tags, tag: &Identifier) -> Result<(), AllocError>
    ensures { OnOk result (tags.new ≡ record { structs = declared tags.old.structs tag.now.name; completed = tags.old.completed }) }
{
    tags.structs.declare(&tag.name)
}

/// A struct's fields begin. Its tag holds from there, and no fields came before.
pub(crate) fn begin_fields(tags: &mut Tags, tag: &Identifier) -> Result<(), Halt>
    ensures { GivesWith (λ u. u) result tags.new (begin_fields_lem tag.now tags.old) }
{
    mention(tags, tag)?;
    if tags.structs.is_complete(&tag.name) {
        return Err(Halt::Refused(redeclared(tag)?));
    }
    Ok(())
}

/// The type that a typedef name stands for.
pub(crate) fn typedef_type(
    alloc: Global,
    names: &Names,
    i: &Identifier,
) -> Result<Option<CType>, AllocError>
    ensures { IfOk result (λ t. t ≡ type_meant_lem (meaning_of names.now i.now.name)) }
{
    match names.meaning_of(&i.name) {
        Some(meaning) => type_of_meaning(alloc, meaning),
        None => Ok(None),
    }
}

fn type_of_meaning(alloc: Global, meaning: &Meaning) -> Result<Option<CType>, AllocError>
    ensures { IfOk result (λ t. t ≡ type_meant_lem (Some meaning.now)) }
{
    match meaning {
        Meaning::Type { ctype, .. } => Ok(Some(ctype.share(alloc)?)),
        _ => Ok(None),
    }
}

/// Refuses a name that one of the fields has.
fn unless_among(tags: &Tags, fields: &Fields, d: &Declarator) -> Result<(), Halt>
    ensures { GivesWith (λ u. u) result tags.now (unless_among_lem (field_names fields.now) (name_of_lem d.now) tags.now) }
{
    match name_of(d) {
        Some(i) => {
            if fields.has(&i.name) {
                return Err(Halt::Refused(redeclared(i)?));
            }
            Ok(())
        }
        None => Ok(()),
    }
}

/// The field of that declarator and type, behind these.
pub(crate) fn new_field(
    alloc: Global,
    tags: &Tags,
    site: &Site,
    fields: &Fields,
    d: &Declarator,
    t: CType,
) -> Result<Field, Halt>
    ensures { GivesWith (λ f. f) result tags.now (field_declared_lem site.now (field_names fields.now) d.now t tags.now) }
{
    if !is_object_within(&tags.structs, &t) {
        return Err(Halt::Refused(left_out(alloc, &limit_site(site, d)?)?));
    }
    if !is_object_type(&tags.structs, &t) {
        return Err(Halt::Refused(ill_typed(name_site(site, d)?.place())));
    }
    unless_among(tags, fields, d)?;
    Ok(Field {
        name: name_or_none(alloc, d)?,
        ty: t,
    })
}

/// The parameter of that declarator and type, behind these.
pub(crate) fn new_parameter(
    alloc: Global,
    tags: &Tags,
    site: &Site,
    parameters: &Fields,
    d: &Declarator,
    t: &CType,
) -> Result<Field, Halt>
    ensures { GivesWith (λ f. f) result tags.now (parameter_declared_lem site.now (field_names parameters.now) d.now t.now tags.now) }
{
    let ty = decay(alloc, t)?;
    if !is_object_within(&tags.structs, &ty) {
        return Err(Halt::Refused(left_out(alloc, &limit_site(site, d)?)?));
    }
    if !may_be_parameter(tags, d, t) {
        return Err(Halt::Refused(ill_typed(name_site(site, d)?.place())));
    }
    unless_among(tags, parameters, d)?;
    Ok(Field {
        name: name_or_none(alloc, d)?,
        ty,
    })
}

fn may_be_parameter(tags: &Tags, d: &Declarator, t: &CType) -> bool
    ensures { result ≡ (has_sizes_lem d.now && is_parameter_type_lem tags.now.structs t.now) }
{
    has_sizes(d) && is_parameter_type(&tags.structs, t)
}

/// Whether a struct may have so many fields.
fn may_have(fields: &FieldList) -> bool
    ensures { result ≡ may_have_lem fields.now }
{
    !fields.is_empty() && fields.len() < 1 << 31
}

/// What stops the completion of a struct whose fields have sizes.
fn halt_at(tag: &Identifier, stop: &DefineStop) -> Result<Halt, AllocError>
    requires { stop.now ≡ Incomplete → ⊥ }
    ensures { IfOk result (λ h. h ≡ halt_at_lem tag.now stop.now) }
{
    match stop {
        DefineStop::Again => Ok(Halt::Refused(redeclared(tag)?)),
        DefineStop::Incomplete => unreachable!(),
        DefineStop::Memory => Ok(Halt::Memory),
    }
}

/// Completes the struct of the tag with these fields.
pub(crate) fn complete(
    alloc: Global,
    tags: &mut Tags,
    tag: &Identifier,
    fields: FieldList,
) -> Result<(), Halt>
    requires there { IsTrue (has_tag tags.old.structs tag.now.name) }
    requires stored { AllStored tags.old.structs fields }
    ensures { GivesWith (λ u. u) result tags.new (complete_lem tag.now fields tags.old) }
{
    if !may_have(&fields) {
        return Err(Halt::Refused(left_out(alloc, &Site::of(tag)?)?));
    }
    if let Err(stop) = tags.structs.complete(&tag.name, fields) {
        return Err(halt_at(tag, &stop)?);
    }
    tags.completed.push(Identifier {
        name: tag.name.share()?,
        place: tag.place,
    })?;
    Ok(())
}
