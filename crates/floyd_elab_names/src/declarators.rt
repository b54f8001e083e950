//! Declarators as they are written.
ghost use Rattle.std.specs.Prelude.{◌≡◌, ◌||◌, is_some, IfOk};
ghost use Rattle.std.specs.Option.{option_copied};
ghost use Rattle.floyd_elab_names.specs.Declarators.{name_of as name_of_lem, first_token as first_token_lem, name_site as name_site_lem, limit_site as limit_site_lem, is_bare as is_bare_lem, has_sizes as has_sizes_lem, number_in as number_in_lem, name_or_none as name_or_none_lem};

use crate::site::Site;
use floyd_cparse_trees::{Declarator, Identifier, Literal};
use floyd_text::Name;
use std::alloc::{AllocError, Global};

/// The name that a declarator declares.
pub fn name_of(d: &Declarator) -> Option<&Identifier>
    ensures { option_copied result ≡ name_of_lem d.now }
{
    match d {
        Declarator::Name(i) => Some(i),
        Declarator::Absent => None,
        Declarator::Parenthesised { inner, .. } => name_of(inner.get()),
        Declarator::Pointer { inner, .. } => name_of(inner.get()),
        Declarator::Array { inner, .. } => name_of(inner.get()),
        Declarator::Function { inner, .. } => name_of(inner.get()),
    }
}

/// The name, which is empty where there is none.
pub fn name_or_none(alloc: Global, d: &Declarator) -> Result<Name, AllocError>
    ensures { IfOk result (λ n. n ≡ name_or_none_lem (name_of_lem d.now)) }
{
    match name_of(d) {
        Some(i) => i.name.share(),
        None => Name::from_slice(alloc, b""),
    }
}

/// The first token of a declarator, or the given one where it has none.
fn first_token(site: &Site, d: &Declarator) -> Result<Site, AllocError>
    ensures { IfOk result (λ s. s ≡ first_token_lem site.now d.now) }
{
    match d {
        Declarator::Name(i) => Site::of(i),
        Declarator::Absent => site.share(),
        Declarator::Parenthesised { place, .. } => Ok(Site::parenthesis(*place)),
        Declarator::Pointer { stars, .. } => site.first_star(stars.as_slice()),
        Declarator::Array { inner, place, .. } => first_token(&Site::bracket(*place), inner.get()),
        Declarator::Function { inner, place, .. } => {
            first_token(&Site::parenthesis(*place), inner.get())
        }
    }
}

/// Where a declarator's type is ill typed: its name, or else the given token.
pub fn name_site(site: &Site, d: &Declarator) -> Result<Site, AllocError>
    ensures { IfOk result (λ s. s ≡ name_site_lem site.now d.now) }
{
    match name_of(d) {
        Some(i) => Site::of(i),
        None => site.share(),
    }
}

/// Where it is too large or too deep: its name, or else its first token, or else the given one.
pub fn limit_site(site: &Site, d: &Declarator) -> Result<Site, AllocError>
    ensures { IfOk result (λ s. s ≡ limit_site_lem site.now d.now) }
{
    match name_of(d) {
        Some(i) => Site::of(i),
        None => first_token(site, d),
    }
}

/// Whether it is a name or none, in parentheses or not.
pub fn is_bare(d: &Declarator) -> bool
    ensures { result ≡ is_bare_lem d.now }
{
    match d {
        Declarator::Name(_) | Declarator::Absent => true,
        Declarator::Parenthesised { inner, .. } => is_bare(inner.get()),
        _ => false,
    }
}

/// Whether no array in it leaves out its size, but for the one that is nearest to its name.
pub(crate) fn has_sizes(d: &Declarator) -> bool
    ensures { result ≡ has_sizes_lem d.now }
{
    match d {
        Declarator::Name(_) | Declarator::Absent => true,
        Declarator::Parenthesised { inner, .. } => has_sizes(inner.get()),
        Declarator::Pointer { inner, .. } => has_sizes(inner.get()),
        Declarator::Array { inner, size, .. } => {
            may_lack(size, inner.get()) && has_sizes(inner.get())
        }
        Declarator::Function { inner, .. } => has_sizes(inner.get()),
    }
}

/// Whether an array has a size, or may leave it out around this.
fn may_lack(size: &Option<Literal>, inner: &Declarator) -> bool
    ensures { result ≡ (is_some size.now || is_bare_lem inner.now) }
{
    size.is_some() || is_bare(inner)
}

/// The number of elements. A size that is left out does not count.
pub(crate) fn number_in(size: &Option<Literal>) -> u64
    ensures { result ≡ number_in_lem size.now }
{
    match size {
        Some(literal) => literal.value,
        None => 0,
    }
}
