//! What typing refuses.
ghost use Rattle.std.specs.Prelude.{◌≡◌, IfOk};
ghost use Rattle.floyd_elab_names.specs.Refusals.{left_out as left_out_lem, ill_typed as ill_typed_lem, undeclared as undeclared_lem, redeclared as redeclared_lem, nested_effect as nested_effect_lem, bad_cast as bad_cast_lem};

use crate::site::Site;
use floyd_cparse_trees::Identifier;
use floyd_text::{Code, Place, Refusal, Shown};
use std::alloc::{AllocError, Global};

/// A construct that is left out, as the address of a parameter, or a type that is too large or too deep.
pub fn left_out(alloc: Global, site: &Site) -> Result<Refusal, AllocError>
    ensures { IfOk result (λ r. r ≡ left_out_lem site.now) }
{
    Ok(Refusal::at(
        Code::OutOfProfile,
        site.place(),
        Shown::Name(site.text(alloc)?),
    ))
}

pub fn ill_typed(place: Place) -> Refusal
    ensures { result ≡ ill_typed_lem place }
{
    Refusal::at(Code::IllTyped, place, Shown::Nothing)
}

pub fn undeclared(i: &Identifier) -> Result<Refusal, AllocError>
    ensures { IfOk result (λ r. r ≡ undeclared_lem i.now) }
{
    Ok(Refusal::at(Code::Undeclared, i.place, Shown::Name(i.name.share()?)))
}

pub fn redeclared(i: &Identifier) -> Result<Refusal, AllocError>
    ensures { IfOk result (λ r. r ≡ redeclared_lem i.now) }
{
    Ok(Refusal::at(Code::Redeclared, i.place, Shown::Name(i.name.share()?)))
}

/// An assignment, a step or a call inside an expression.
pub fn nested_effect(place: Place) -> Refusal
    ensures { result ≡ nested_effect_lem place }
{
    Refusal::at(Code::NestedEffect, place, Shown::Nothing)
}

/// A written cast that is left out.
pub fn bad_cast(place: Place) -> Refusal
    ensures { result ≡ bad_cast_lem place }
{
    Refusal::at(Code::BadCast, place, Shown::Nothing)
}
