//! The types that specifiers and declarators name. The nesting of the text bounds the depth of the calls.
ghost use Rattle.std.specs.Prelude.{[], map};
ghost use Rattle.floyd_elab_names.specs.Refusing.{GivesWith, in_turn};
ghost use Rattle.floyd_elab_names.specs.WrapClauses.{wrap_all as wrapped_lem};
ghost use Rattle.floyd_elab_names.specs.Declarators.{base_type as base_type_lem, made_by as made_by_lem, declarator_type as declarator_type_lem, type_named as type_named_lem};
ghost use Rattle.floyd_elab_names.specs.DeclaratorClauses.{add_field as declared_field_lem, add_fields as declared_fields_lem, add_parameter as declared_parameter_lem};

use crate::declarators::{limit_site, name_site, number_in};
use crate::declared::{begin_fields, complete, mention, new_field, new_parameter, typedef_type};
use crate::fields::Fields;
use crate::limits::is_within;
use crate::names::Names;
use crate::refusals::{ill_typed, left_out, undeclared};
use crate::site::Site;
use crate::tags::Tags;
use crate::types::returns_well;
use crate::wraps::{Wrap, wrap_all};
use floyd_cparse_trees::{Base, Declarator, FieldDeclaration, Parameter, TypeName};
use floyd_ctypes::CType;
use floyd_text::Halt;
use sqlite_items::Items;
use std::alloc::Global;

/// The type that specifiers name. What is ill typed or too large in it without a name is refused at the given token.
#[cycle(declared)]
pub fn base_type(
    alloc: Global,
    names: &Names,
    tags: &mut Tags,
    site: &Site,
    base: &Base,
) -> Result<CType, Halt>
    ensures { GivesWith (λ t. t) result tags.new (base_type_lem names.now site.now base.now tags.old) }
{
    match base {
        Base::Void => Ok(CType::Void),
        Base::Int(kind) => Ok(CType::Int(*kind)),
        Base::Struct(tag) => {
            mention(tags, tag)?;
            Ok(CType::Struct(tag.name.share()?))
        }
        Base::StructWith(tag, rows) => {
            begin_fields(tags, tag)?;
            let fields = all_fields(alloc, names, tags, site, rows.as_slice())?;
            complete(alloc, tags, tag, fields.into_items())?;
            Ok(CType::Struct(tag.name.share()?))
        }
        Base::Typedef(i) => match typedef_type(alloc, names, i)? {
            Some(t) => Ok(t),
            None => Err(Halt::Refused(undeclared(i)?)),
        },
    }
}

/// The fields of a struct.
#[cycle(declared)]
fn all_fields(
    alloc: Global,
    names: &Names,
    tags: &mut Tags,
    site: &Site,
    rows: &[FieldDeclaration],
) -> Result<Fields, Halt>
    ensures { GivesWith (λ f. f) result tags.new (in_turn (map (declared_fields_lem names.now site.now) rows.now) [] tags.old) }
{
    let mut fields = Fields::new(alloc);
    'rows: for row in rows {
        fields = add_fields(alloc, names, tags, site, fields, row)?;
    }
    Ok(fields)
}

/// The fields of one base, behind these.
#[cycle(declared)]
fn add_fields(
    alloc: Global,
    names: &Names,
    tags: &mut Tags,
    site: &Site,
    fields: Fields,
    row: &FieldDeclaration,
) -> Result<Fields, Halt>
    ensures { GivesWith (λ f. f) result tags.new (declared_fields_lem names.now site.now row.now fields tags.old) }
{
    let t = base_type(alloc, names, tags, site, &row.specifiers.base)?;
    let mut fields = fields;
    'declarators: for d in row.declarators.as_slice() {
        fields = add_field(alloc, names, tags, site, fields, d, &t)?;
    }
    Ok(fields)
}

/// A field of that base, behind these.
#[cycle(declared)]
fn add_field(
    alloc: Global,
    names: &Names,
    tags: &mut Tags,
    site: &Site,
    fields: Fields,
    d: &Declarator,
    base: &CType,
) -> Result<Fields, Halt>
    ensures { GivesWith (λ f. f) result tags.new (declared_field_lem names.now site.now base.now d.now fields tags.old) }
{
    let inner = name_site(site, d)?;
    let wraps = made_by(alloc, names, tags, &inner, d)?;
    let t = wrap_all(alloc, wraps, base.share(alloc)?)?;
    let field = new_field(alloc, tags, site, &fields, d, t)?;
    Ok(fields.with(field)?)
}

/// What a declarator puts around the type of its specifiers, from its name out.
#[cycle(declared)]
fn made_by(
    alloc: Global,
    names: &Names,
    tags: &mut Tags,
    site: &Site,
    d: &Declarator,
) -> Result<Items<Wrap>, Halt>
    ensures { GivesWith wrapped_lem result tags.new (made_by_lem names.now site.now d.now tags.old) }
{
    match d {
        Declarator::Name(_) | Declarator::Absent => Ok(Items::new(alloc)),
        Declarator::Parenthesised { inner, .. } => made_by(alloc, names, tags, site, inner.get()),
        Declarator::Pointer { stars, inner } => {
            let mut wraps = made_by(alloc, names, tags, site, inner.get())?;
            wraps.push(Wrap::Pointers(stars.len()))?;
            Ok(wraps)
        }
        Declarator::Array { inner, size, .. } => {
            let mut wraps = made_by(alloc, names, tags, site, inner.get())?;
            wraps.push(Wrap::Array(number_in(size)))?;
            Ok(wraps)
        }
        Declarator::Function {
            inner,
            parameters,
            ..
        } => {
            let mut wraps = made_by(alloc, names, tags, site, inner.get())?;
            let all = all_parameters(alloc, names, tags, site, parameters.as_slice())?;
            wraps.push(Wrap::Function(all.types(alloc)?))?;
            Ok(wraps)
        }
    }
}

/// The parameters of a function.
#[cycle(declared)]
fn all_parameters(
    alloc: Global,
    names: &Names,
    tags: &mut Tags,
    site: &Site,
    parameters: &[Parameter],
) -> Result<Fields, Halt>
    ensures { GivesWith (λ f. f) result tags.new (in_turn (map (declared_parameter_lem names.now site.now) parameters.now) [] tags.old) }
{
    let mut all = Fields::new(alloc);
    'parameters: for p in parameters {
        all = add_parameter(alloc, names, tags, site, all, p)?;
    }
    Ok(all)
}

/// A parameter behind these.
#[cycle(declared)]
fn add_parameter(
    alloc: Global,
    names: &Names,
    tags: &mut Tags,
    site: &Site,
    all: Fields,
    p: &Parameter,
) -> Result<Fields, Halt>
    ensures { GivesWith (λ f. f) result tags.new (declared_parameter_lem names.now site.now p.now all tags.old) }
{
    let d = &p.declarator;
    let base = base_type(alloc, names, tags, site, &p.specifiers.base)?;
    let inner = name_site(site, d)?;
    let wraps = made_by(alloc, names, tags, &inner, d)?;
    let t = wrap_all(alloc, wraps, base)?;
    let parameter = new_parameter(alloc, tags, site, &all, d, &t)?;
    Ok(all.with(parameter)?)
}

/// The type that a declarator makes of that of its specifiers.
pub fn declarator_type(
    alloc: Global,
    names: &Names,
    tags: &mut Tags,
    site: &Site,
    t: CType,
    d: &Declarator,
) -> Result<CType, Halt>
    ensures { GivesWith (λ t. t) result tags.new (declarator_type_lem names.now site.now t d.now tags.old) }
{
    let inner = name_site(site, d)?;
    let wraps = made_by(alloc, names, tags, &inner, d)?;
    Ok(wrap_all(alloc, wraps, t)?)
}

/// The type that a cast or `sizeof` names. The token is the cast's parenthesis or `sizeof`.
pub fn type_named(
    alloc: Global,
    names: &Names,
    tags: &mut Tags,
    site: &Site,
    n: &TypeName,
) -> Result<CType, Halt>
    ensures { GivesWith (λ t. t) result tags.new (type_named_lem names.now site.now n.now tags.old) }
{
    let d = &n.declarator;
    let base = base_type(alloc, names, tags, site, &n.specifiers.base)?;
    let t = declarator_type(alloc, names, tags, site, base, d)?;
    if !is_within(&tags.structs, &t) {
        return Err(Halt::Refused(left_out(alloc, &limit_site(site, d)?)?));
    }
    if !returns_well(&t) {
        return Err(Halt::Refused(ill_typed(site.place())));
    }
    Ok(t)
}
