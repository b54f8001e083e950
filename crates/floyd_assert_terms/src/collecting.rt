ghost use Rattle.std.specs.Prelude.{◌≡◌, ◌++◌, IfOk, OnOk};
ghost use Rattle.std.specs.List.{flat_map};
ghost use Rattle.floyd_assert_changes.specs.Changed.{local_terms, part_terms, region_terms, step_terms, terms_in as terms_in_lem};

use floyd_assert_trees::{Assertion, Local, Region, Sep};
use floyd_tree::{Path, PathStep, Term};
use std::alloc::{AllocError, Global};

/// The terms of LOCAL and SEP, in order: those of a part are its share, the sizes of its type, the subscripts of its path and
/// its root, and behind them its value or its arguments.
pub fn terms_in(alloc: Global, a: &Assertion) -> Result<Vec<Term>, AllocError>
    ensures { IfOk result (λ all. all.items ≡ terms_in_lem a.now) }
{
    let mut all = Vec::new(alloc);
    push_locals(&mut all, a.locals.as_slice())?;
    push_parts(&mut all, a.parts.as_slice())?;
    Ok(all)
}

fn push_locals(all: &mut Vec<Term>, locals: &[Local]) -> Result<(), AllocError>
    ensures { OnOk result (all.new.items ≡ all.old.items ++ local_terms locals.now) }
{
    'locals: for local in locals {
        all.push(local.term.share()?)?;
    }
    Ok(())
}

fn push_parts(all: &mut Vec<Term>, parts: &[Sep]) -> Result<(), AllocError>
    ensures { OnOk result (all.new.items ≡ all.old.items ++ flat_map part_terms parts.now) }
{
    'parts: for part in parts {
        push_part(all, part)?;
    }
    Ok(())
}

fn push_part(all: &mut Vec<Term>, part: &Sep) -> Result<(), AllocError>
    ensures { OnOk result (all.new.items ≡ all.old.items ++ part_terms part.now) }
{
    match part {
        Sep::FieldAt(region, value) => {
            push_region(all, region)?;
            all.push(value.share()?)?;
        }
        Sep::Padding(region) => push_region(all, region)?,
        Sep::Valid(address) => all.push(address.share()?)?,
        Sep::Anything => {}
        Sep::Predicate(_, terms) => push_terms(all, terms.as_slice())?,
    }
    Ok(())
}

fn push_region(all: &mut Vec<Term>, region: &Region) -> Result<(), AllocError>
    ensures { OnOk result (all.new.items ≡ all.old.items ++ region_terms region.now) }
{
    all.push(region.share.share()?)?;
    push_terms(all, region.ty.sizes().as_slice())?;
    push_path(all, &region.path)?;
    all.push(region.root.share()?)?;
    Ok(())
}

fn push_terms(all: &mut Vec<Term>, terms: &[Term]) -> Result<(), AllocError>
    ensures { OnOk result (all.new.items ≡ all.old.items ++ terms.now) }
{
    'terms: for term in terms {
        all.push(term.share()?)?;
    }
    Ok(())
}

fn push_path(all: &mut Vec<Term>, path: &Path) -> Result<(), AllocError>
    ensures { OnOk result (all.new.items ≡ all.old.items ++ flat_map step_terms path.now) }
{
    'steps: for place in 0..path.len() {
        push_step(all, path.step(place))?;
    }
    Ok(())
}

fn push_step(all: &mut Vec<Term>, step: &PathStep) -> Result<(), AllocError>
    ensures { OnOk result (all.new.items ≡ all.old.items ++ step_terms step.now) }
{
    match step {
        PathStep::Field(_) => {}
        PathStep::Subscript(term) => all.push(term.share()?)?,
    }
    Ok(())
}
