//! Where a type is const at its top.
ghost use Rattle.std.specs.Prelude.{◌≡◌, IfOk};
ghost use Rattle.std.specs.Option.{option_copied};
ghost use Rattle.floyd_elab_data.specs.Constant.{const_at as const_at_lem, constant_name as constant_name_lem, constant_base as constant_base_lem, constant_specifiers as constant_specifiers_lem, constant_star as constant_star_lem, constant_declarator as constant_declarator_lem, constant_at as constant_at_lem};

use floyd_cparse_trees::{Base, Declarator, Identifier, Specifiers, Star};
use floyd_ctypes::CType;
use floyd_elab_names::{Meaning, Names, Site, is_function};
use floyd_text::{Name, Place};
use std::alloc::{AllocError, Global};

/// The word `const` at this place, if there is one.
fn const_at(alloc: Global, place: Option<Place>) -> Result<Option<Site>, AllocError>
    ensures { IfOk result (λ s. s ≡ const_at_lem place) }
{
    match place {
        Some(place) => {
            let name = Name::from_slice(alloc, b"const")?;
            Ok(Some(Site::of(&Identifier { name, place })?))
        }
        None => Ok(None),
    }
}

/// The name of a type that is const.
fn constant_name(i: &Identifier, meaning: Option<&Meaning>) -> Result<Option<Site>, AllocError>
    ensures { IfOk result (λ s. s ≡ constant_name_lem i.now (option_copied meaning.entry)) }
{
    match meaning {
        Some(Meaning::Type { constant: true, .. }) => Ok(Some(Site::of(i)?)),
        _ => Ok(None),
    }
}

fn constant_base(names: &Names, base: &Base) -> Result<Option<Site>, AllocError>
    ensures { IfOk result (λ s. s ≡ constant_base_lem names.now base.now) }
{
    match base {
        Base::Typedef(i) => constant_name(i, names.meaning_of(&i.name)),
        _ => Ok(None),
    }
}

/// The token that makes the specifiers' type const. A function is not const.
fn constant_specifiers(
    alloc: Global,
    names: &Names,
    specifiers: &Specifiers,
    base: &CType,
) -> Result<Option<Site>, AllocError>
    ensures { IfOk result (λ s. s ≡ constant_specifiers_lem names.now specifiers.now base.now) }
{
    if is_function(base) {
        return Ok(None);
    }
    match specifiers.constant {
        Some(place) => const_at(alloc, Some(place)),
        None => constant_base(names, &specifiers.base),
    }
}

/// The `const` behind the last star. Without a star the type is that of before.
fn constant_star(
    alloc: Global,
    outer: Option<Site>,
    stars: &[Star],
) -> Result<Option<Site>, AllocError>
    ensures { IfOk result (λ s. s ≡ constant_star_lem outer stars.now) }
{
    match stars {
        [] => Ok(outer),
        [.., last] => const_at(alloc, last.constant),
    }
}

/// The token that makes the type of a declarator const, where that makes const what it is applied to.
fn constant_declarator(
    alloc: Global,
    outer: Option<Site>,
    d: &Declarator,
) -> Result<Option<Site>, AllocError>
    ensures { IfOk result (λ s. s ≡ constant_declarator_lem outer d.now) }
{
    match d {
        Declarator::Name(_) | Declarator::Absent => Ok(outer),
        Declarator::Parenthesised { inner, .. } => constant_declarator(alloc, outer, inner.get()),
        Declarator::Array { inner, .. } => constant_declarator(alloc, outer, inner.get()),
        Declarator::Pointer { stars, inner } => {
            let outer = constant_star(alloc, outer, stars.as_slice())?;
            constant_declarator(alloc, outer, inner.get())
        }
        Declarator::Function { inner, .. } => constant_declarator(alloc, None, inner.get()),
    }
}

/// The token that makes the type of a declarator const at its top, where that of its specifiers is `base`.
pub fn constant_at(
    alloc: Global,
    names: &Names,
    specifiers: &Specifiers,
    base: &CType,
    d: &Declarator,
) -> Result<Option<Site>, AllocError>
    ensures { IfOk result (λ s. s ≡ constant_at_lem names.now specifiers.now base.now d.now) }
{
    let outer = constant_specifiers(alloc, names, specifiers, base)?;
    constant_declarator(alloc, outer, d)
}
