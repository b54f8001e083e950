ghost use Rattle.std.specs.Prelude.{◌≡◌, ◌++◌, IfOk, OnOk};
ghost use Rattle.std.specs.List.{flat_map};
ghost use Rattle.floyd_assert_changes.specs.Changed.{has_name as has_name_lem};
ghost use Rattle.floyd_predicates.specs.Calls.{body_calls, part_calls, pred_calls as pred_calls_lem, pred_case_calls, unhidden as unhidden_lem};

use crate::recursion::{add_call, parts_of};
use floyd_assert_trees::{Assertion, Binder, PredBody, PredCase, Sep};
use floyd_text::Name;
use std::alloc::{AllocError, Global};

fn has_name(name: &Name, binders: &[Binder]) -> bool
    ensures { result ≡ has_name_lem name.now binders.now }
{
    binders.iter().any(|binder| name == &binder.name)
}

/// The names that no existential has.
pub fn unhidden(
    alloc: Global,
    existentials: &[Binder],
    parts: &[Name],
) -> Result<Vec<Name>, AllocError>
    ensures { IfOk result (λ all. all.items ≡ unhidden_lem existentials.now parts.now) }
{
    let mut all = Vec::new(alloc);
    'parts: for name in parts {
        if !has_name(name, existentials) {
            all.push(name.share()?)?;
        }
    }
    Ok(all)
}

fn add_part_calls(
    all: &mut Vec<bool>,
    own: &Name,
    parts: &[Name],
    part: &Sep,
) -> Result<(), AllocError>
    ensures { OnOk result (all.new.items ≡ all.old.items ++ part_calls own.now parts.now part.now) }
{
    match part {
        Sep::FieldAt(_, _) => Ok(()),
        Sep::Padding(_) => Ok(()),
        Sep::Valid(_) => Ok(()),
        Sep::Anything => Ok(()),
        Sep::Predicate(name, terms) => add_call(all, own, parts, name, terms.as_slice()),
    }
}

fn add_parts_calls(
    all: &mut Vec<bool>,
    own: &Name,
    parts: &[Name],
    sep: &[Sep],
) -> Result<(), AllocError>
    ensures { OnOk result (all.new.items ≡ all.old.items ++ flat_map (part_calls own.now parts.now) sep.now) }
{
    'sep: for part in sep {
        add_part_calls(all, own, parts, part)?;
    }
    Ok(())
}

fn add_body_calls(
    alloc: Global,
    all: &mut Vec<bool>,
    own: &Name,
    parts: &[Name],
    a: &Assertion,
) -> Result<(), AllocError>
    ensures { OnOk result (all.new.items ≡ all.old.items ++ body_calls own.now parts.now a.now) }
{
    let seen = unhidden(alloc, a.existentials.as_slice(), parts)?;
    add_parts_calls(all, own, seen.as_slice(), a.parts.as_slice())
}

fn case_calls(alloc: Global, own: &Name, cases: &[PredCase]) -> Result<Vec<bool>, AllocError>
    ensures { IfOk result (λ all. all.items ≡ flat_map (pred_case_calls own.now) cases.now) }
{
    let mut all = Vec::new(alloc);
    'cases: for case in cases {
        let parts = parts_of(alloc, &case.pattern)?;
        add_body_calls(alloc, &mut all, own, parts.as_slice(), &case.body)?;
    }
    Ok(all)
}

/// The calls that a PRED makes of itself, in the order of the text: whether each is on a part of the first argument.
pub fn pred_calls(alloc: Global, own: &Name, body: &PredBody) -> Result<Vec<bool>, AllocError>
    ensures { IfOk result (λ all. all.items ≡ pred_calls_lem own.now body.now) }
{
    match body {
        PredBody::Whole(whole) => {
            let mut all = Vec::new(alloc);
            add_body_calls(alloc, &mut all, own, &[], whole)?;
            Ok(all)
        }
        PredBody::Cases(cases) => case_calls(alloc, own, cases.as_slice()),
    }
}
