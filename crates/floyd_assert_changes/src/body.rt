ghost use Rattle.std.specs.Prelude.{◌≡◌, ◌++◌, IfOk, OnOk};
ghost use Rattle.std.specs.List.{flat_map, list_any};
ghost use Rattle.floyd_assert_changes.specs.Changed.{existential_name, has_name, local_terms, part_terms, region_terms, step_terms, terms_in};
ghost use Rattle.floyd_assert_changes.specs.ChangesClauses.{changes_of};
ghost use Rattle.floyd_assert_changes.specs.BodyClauses.{binders_names, body_capturing, captured_in};
ghost use Rattle.floyd_tree.specs.Plain.{mentions_in, plains};

use crate::changing::{Change, brings_in, in_terms};
use crate::fresh::{some_mentions, unmarked};
use crate::names::{add_changes, add_formulas, add_name, add_terms};
use floyd_assert_trees::{Assertion, Binder, Local, Names, Region, Sep};
use floyd_text::Name;
use floyd_tree::{Path, PathStep, Term, mentions};
use std::alloc::{AllocError, Global};

/// The new name of an existential of x, where these are the others of its list: the earlier ones with their new names, and
/// the later ones.
#[tactic(auto, using(crate::proofs::Existentials::quiet_existential, crate::proofs::Existentials::kept_existential))]
pub fn existential_name(
    alloc: Global,
    changes: &[Change],
    a: &Assertion,
    done: &[Binder],
    more: &[Binder],
    x: &Name,
) -> Result<Name, AllocError>
    ensures { IfOk result (λ name. name ≡ existential_name (changes_of changes.now) a.now (done.now ++ more.now) x.now) }
{
    if !in_terms(changes, x) {
        return x.share();
    }
    let terms = terms_in(alloc, a)?;
    if !body_captures(changes, changes, a, terms.as_slice(), x) {
        return x.share();
    }
    let mut names = Names::new(alloc);
    add_changes(&mut names, changes)?;
    add_formulas(&mut names, a.props.as_slice())?;
    add_terms(&mut names, terms.as_slice())?;
    add_binders(&mut names, done)?;
    add_binders(&mut names, more)?;
    unmarked(alloc, &names, x)
}

/// Whether an existential of x would capture a variable of a new term, as far as these changes tell.
fn body_captures(part: &[Change], whole: &[Change], a: &Assertion, terms: &[Term], x: &Name) -> bool
    requires { terms.now ≡ terms_in a.now }
    ensures { result ≡ list_any (body_capturing (changes_of whole.now) a.now x.now) (changes_of part.now) }
{
    'changes: for change in part {
        if captures_in_body(whole, a, terms, x, &change.name) {
            return true;
        }
    }
    false
}

/// Whether the variable is replaced by a term in which x is free, and is free in the assertion and another one than x.
fn captures_in_body(
    whole: &[Change],
    a: &Assertion,
    terms: &[Term],
    x: &Name,
    variable: &Name,
) -> bool
    requires { terms.now ≡ terms_in a.now }
    ensures { result ≡ captured_in (changes_of whole.now) a.now x.now variable.now }
{
    brings_in(whole, x, variable)
        && x != variable
        && (some_mentions(a.props.as_slice(), variable) || some_has(terms, variable))
        && !has_name(a.existentials.as_slice(), variable)
}

/// Whether the variable occurs in one of the terms.
fn some_has(terms: &[Term], x: &Name) -> bool
    ensures { result ≡ mentions_in x.now (plains terms.now) }
{
    'terms: for term in terms {
        if mentions(term, x) {
            return true;
        }
    }
    false
}

fn has_name(binders: &[Binder], x: &Name) -> bool
    ensures { result ≡ has_name x.now binders.now }
{
    'binders: for binder in binders {
        if x == &binder.name {
            return true;
        }
    }
    false
}

/// Adds the names of the binders.
pub fn add_binders(names: &mut Names, binders: &[Binder]) -> Result<(), AllocError>
    ensures { OnOk result (names.new ≡ binders_names binders.now names.old) }
{
    'binders: for binder in binders {
        add_name(names, &binder.name)?;
    }
    Ok(())
}

/// The terms of LOCAL and SEP.
pub fn terms_in(alloc: Global, a: &Assertion) -> Result<Vec<Term>, AllocError>
    ensures { IfOk result (λ all. all.items ≡ terms_in a.now) }
{
    let mut all = Vec::new(alloc);
    push_locals(&mut all, a.locals.as_slice())?;
    push_parts(&mut all, a.parts.as_slice())?;
    Ok(all)
}

fn push_locals(all: &mut Vec<Term>, locals: &[Local]) -> Result<(), AllocError>
    ensures { OnOk result (all.new.items ≡ all.old.items ++ local_terms locals.now) }
{
    'locals: for local in locals {
        all.push(local.term.share()?)?;
    }
    Ok(())
}

fn push_parts(all: &mut Vec<Term>, parts: &[Sep]) -> Result<(), AllocError>
    ensures { OnOk result (all.new.items ≡ all.old.items ++ flat_map part_terms parts.now) }
{
    'parts: for part in parts {
        push_part(all, part)?;
    }
    Ok(())
}

fn push_part(all: &mut Vec<Term>, part: &Sep) -> Result<(), AllocError>
    ensures { OnOk result (all.new.items ≡ all.old.items ++ part_terms part.now) }
{
    match part {
        Sep::FieldAt(region, value) => {
            push_region(all, region)?;
            all.push(value.share()?)?;
        }
        Sep::Padding(region) => push_region(all, region)?,
        Sep::Valid(address) => all.push(address.share()?)?,
        Sep::Anything => {}
        Sep::Predicate(_, terms) => push_terms(all, terms.as_slice())?,
    }
    Ok(())
}

fn push_region(all: &mut Vec<Term>, region: &Region) -> Result<(), AllocError>
    ensures { OnOk result (all.new.items ≡ all.old.items ++ region_terms region.now) }
{
    all.push(region.share.share()?)?;
    push_terms(all, region.ty.sizes().as_slice())?;
    push_path(all, &region.path)?;
    all.push(region.root.share()?)?;
    Ok(())
}

fn push_terms(all: &mut Vec<Term>, terms: &[Term]) -> Result<(), AllocError>
    ensures { OnOk result (all.new.items ≡ all.old.items ++ terms.now) }
{
    'terms: for term in terms {
        all.push(term.share()?)?;
    }
    Ok(())
}

fn push_path(all: &mut Vec<Term>, path: &Path) -> Result<(), AllocError>
    ensures { OnOk result (all.new.items ≡ all.old.items ++ flat_map step_terms path.now) }
{
    'steps: for place in 0..path.len() {
        push_step(all, path.step(place))?;
    }
    Ok(())
}

fn push_step(all: &mut Vec<Term>, step: &PathStep) -> Result<(), AllocError>
    ensures { OnOk result (all.new.items ≡ all.old.items ++ step_terms step.now) }
{
    match step {
        PathStep::Field(_) => {}
        PathStep::Subscript(term) => all.push(term.share()?)?,
    }
    Ok(())
}
