ghost use Rattle.std.specs.Prelude.{◌≡◌, IfOk, map};
ghost use Rattle.floyd_assert_changes.specs.Changed.{terms_in};
ghost use Rattle.floyd_assert_terms.specs.FillClauses.{fill_all, fill_local, fill_part, fill_region, fill_step, fill_term, fill_type};
ghost use Rattle.floyd_assert_terms.specs.Mapped.{body_mapped};
ghost use Rattle.floyd_tree.specs.Plain.{Plain};

use floyd_assert_trees::{Assertion, Local, LocalList, Region, Sep, SepList, share_binders};
use floyd_tree::{AType, FormulaList, Path, PathStep, Term, TermList};
use sqlite_items::Items;
use std::alloc::{AllocError, Global};

/// The first of the terms, and those behind it. Where there is none the old term stays.
fn fill_term<'a>(old: &Term, terms: &'a [Term]) -> Result<(Term, &'a [Term]), AllocError>
    ensures { IfOk result (λ p. (p.0, p.1.now) ≡ fill_term old.now terms.now) }
{
    match terms {
        [] => Ok((old.share()?, terms)),
        [first, rest @ ..] => Ok((first.share()?, rest)),
    }
}

fn fill_terms<'a>(
    alloc: Global,
    old: &[Term],
    terms: &'a [Term],
) -> Result<(TermList, &'a [Term]), AllocError>
    ensures { IfOk result (λ p. (p.0, p.1.now) ≡ fill_all fill_term old.now terms.now) }
{
    let mut all = Vec::with_capacity(alloc, old.len())?;
    let mut left = terms;
    'terms: for term in old {
        let (new, rest) = fill_term(term, left)?;
        all.push(new)?;
        left = rest;
    }
    Ok((Items::from_vec(all), left))
}

#[tactic(auto, using(crate::proofs::Filled::as_many))]
fn fill_type<'a>(
    alloc: Global,
    ty: &AType,
    terms: &'a [Term],
) -> Result<(AType, &'a [Term]), AllocError>
    ensures { IfOk result (λ p. (p.0, p.1.now) ≡ fill_type ty.now terms.now) }
{
    let (sizes, rest) = fill_terms(alloc, ty.sizes().as_slice(), terms)?;
    Ok((AType::new(ty.shape().share()?, sizes), rest))
}

fn fill_step<'a>(step: &PathStep, terms: &'a [Term]) -> Result<(PathStep, &'a [Term]), AllocError>
    ensures { IfOk result (λ p. (p.0, p.1.now) ≡ fill_step step.now terms.now) }
{
    match step {
        PathStep::Field(name) => Ok((PathStep::Field(name.share()?), terms)),
        PathStep::Subscript(term) => {
            let (new, rest) = fill_term(term, terms)?;
            Ok((PathStep::Subscript(new), rest))
        }
    }
}

fn fill_path<'a>(
    alloc: Global,
    path: &Path,
    terms: &'a [Term],
) -> Result<(Path, &'a [Term]), AllocError>
    ensures { IfOk result (λ p. (p.0, p.1.now) ≡ fill_all fill_step path.now terms.now) }
{
    let mut all = Path::new(alloc);
    let mut left = terms;
    'steps: for place in 0..path.len() {
        let (step, rest) = fill_step(path.step(place), left)?;
        all.push(step)?;
        left = rest;
    }
    Ok((all, left))
}

fn fill_region<'a>(
    alloc: Global,
    region: &Region,
    terms: &'a [Term],
) -> Result<(Region, &'a [Term]), AllocError>
    ensures { IfOk result (λ p. (p.0, p.1.now) ≡ fill_region region.now terms.now) }
{
    let (share, left) = fill_term(&region.share, terms)?;
    let (ty, left) = fill_type(alloc, &region.ty, left)?;
    let (path, left) = fill_path(alloc, &region.path, left)?;
    let (root, left) = fill_term(&region.root, left)?;
    let filled = Region {
        share,
        ty,
        path,
        root,
    };
    Ok((filled, left))
}

fn fill_part<'a>(
    alloc: Global,
    part: &Sep,
    terms: &'a [Term],
) -> Result<(Sep, &'a [Term]), AllocError>
    ensures { IfOk result (λ p. (p.0, p.1.now) ≡ fill_part part.now terms.now) }
{
    match part {
        Sep::FieldAt(region, value) => {
            let (region, left) = fill_region(alloc, region, terms)?;
            let (value, left) = fill_term(value, left)?;
            Ok((Sep::FieldAt(region, value), left))
        }
        Sep::Padding(region) => {
            let (region, left) = fill_region(alloc, region, terms)?;
            Ok((Sep::Padding(region), left))
        }
        Sep::Valid(address) => {
            let (address, left) = fill_term(address, terms)?;
            Ok((Sep::Valid(address), left))
        }
        Sep::Anything => Ok((Sep::Anything, terms)),
        Sep::Predicate(name, old) => {
            let (new, left) = fill_terms(alloc, old.as_slice(), terms)?;
            Ok((Sep::Predicate(name.share()?, new), left))
        }
    }
}

fn fill_parts<'a>(alloc: Global, parts: &[Sep], terms: &'a [Term]) -> Result<SepList, AllocError>
    ensures { IfOk result (λ all. all ≡ (fill_all fill_part parts.now terms.now).0) }
{
    let mut all = Vec::with_capacity(alloc, parts.len())?;
    let mut left = terms;
    'parts: for part in parts {
        let (new, rest) = fill_part(alloc, part, left)?;
        all.push(new)?;
        left = rest;
    }
    Ok(Items::from_vec(all))
}

fn fill_locals<'a>(
    alloc: Global,
    locals: &[Local],
    terms: &'a [Term],
) -> Result<(LocalList, &'a [Term]), AllocError>
    ensures { IfOk result (λ p. (p.0, p.1.now) ≡ fill_all fill_local locals.now terms.now) }
{
    let mut all = Vec::with_capacity(alloc, locals.len())?;
    let mut left = terms;
    'locals: for local in locals {
        let (term, rest) = fill_term(&local.term, left)?;
        let name = local.name.share()?;
        all.push(Local { name, term })?;
        left = rest;
    }
    Ok((Items::from_vec(all), left))
}

/// The assertion with these formulas as PROP, and with these terms in place of those of LOCAL and SEP, in the order of
/// `terms_in`. Existentials, names, types and fields stay.
pub fn with_terms(
    alloc: Global,
    a: &Assertion,
    props: FormulaList,
    terms: &[Term],
) -> Result<Assertion, AllocError>
    ensures { IfOk result (λ b. (f : Plain → Plain) → terms.now ≡ map f (terms_in a.now) → b ≡ body_mapped f props a.now) }
{
    let existentials = share_binders(alloc, a.existentials.as_slice())?;
    let (locals, left) = fill_locals(alloc, a.locals.as_slice(), terms)?;
    let parts = fill_parts(alloc, a.parts.as_slice(), left)?;
    Ok(Assertion {
        existentials,
        props,
        locals,
        parts,
    })
}
