ghost use Rattle.std.specs.Prelude.{◌≡◌, IfOk, map};
ghost use Rattle.floyd_predicates.specs.WellFormed.{earliest, first_refusal as first_refusal_lem, fun_refusal as fun_refusal_lem, judged, lemma_refusal as lemma_refusal_lem, pred_refusal as pred_refusal_lem};
ghost use Rattle.floyd_text.specs.Gives.{Gives};

use crate::cases::{fun_fits, pred_fits};
use crate::fun_calls::fun_calls;
use crate::pred_calls::pred_calls;
use crate::refusals::{call_refusal, clash, is_clash, not_structural, sooner};
use floyd_assert_trees::{Defs, Fun, Lemma, Pred};
use floyd_text::{Halt, Name, Refusal};
use std::alloc::{AllocError, Global};

/// The refusal of a FUN of that file.
fn fun_refusal(
    alloc: Global,
    defs: &Defs,
    file: u32,
    name: &Name,
    item: &Fun,
) -> Result<Option<Refusal>, AllocError>
    ensures { IfOk result (λ r. r ≡ fun_refusal_lem defs.now file (name.now, item.now)) }
{
    if item.place.file != file {
        return Ok(None);
    }
    if !fun_fits(item.arguments.as_slice(), &item.body)? {
        return Ok(Some(not_structural(item.place, name)?));
    }
    if is_clash(defs, name, item.place) {
        return Ok(Some(clash(item.place, name)?));
    }
    let calls = fun_calls(alloc, name, &item.body)?;
    call_refusal(name, item.place, item.calls.as_slice(), calls.as_slice())
}

/// The refusal of a PRED of that file.
fn pred_refusal(
    alloc: Global,
    defs: &Defs,
    file: u32,
    name: &Name,
    item: &Pred,
) -> Result<Option<Refusal>, AllocError>
    ensures { IfOk result (λ r. r ≡ pred_refusal_lem defs.now file (name.now, item.now)) }
{
    if item.place.file != file {
        return Ok(None);
    }
    if !pred_fits(item.arguments.as_slice(), &item.body)? {
        return Ok(Some(not_structural(item.place, name)?));
    }
    if is_clash(defs, name, item.place) {
        return Ok(Some(clash(item.place, name)?));
    }
    let calls = pred_calls(alloc, name, &item.body)?;
    call_refusal(name, item.place, item.calls.as_slice(), calls.as_slice())
}

/// The refusal of a lemma of that file.
fn lemma_refusal(
    defs: &Defs,
    file: u32,
    name: &Name,
    item: &Lemma,
) -> Result<Option<Refusal>, AllocError>
    ensures { IfOk result (λ r. r ≡ lemma_refusal_lem defs.now file (name.now, item.now)) }
{
    if item.place.file == file && is_clash(defs, name, item.place) {
        return Ok(Some(clash(item.place, name)?));
    }
    Ok(None)
}

/// The earliest refusal of a FUN, or of what was judged before.
fn after_funs(
    alloc: Global,
    defs: &Defs,
    file: u32,
    first: Option<Refusal>,
) -> Result<Option<Refusal>, AllocError>
    ensures { IfOk result (λ r. r ≡ earliest first (map (fun_refusal_lem defs.now file) defs.now.funs)) }
{
    let mut found = first;
    'items: for i in 0..defs.funs.len() {
        if let Some((name, item)) = defs.funs.at(i) {
            found = sooner(found, fun_refusal(alloc, defs, file, name, item)?);
        }
    }
    Ok(found)
}

fn after_preds(
    alloc: Global,
    defs: &Defs,
    file: u32,
    first: Option<Refusal>,
) -> Result<Option<Refusal>, AllocError>
    ensures { IfOk result (λ r. r ≡ earliest first (map (pred_refusal_lem defs.now file) defs.now.preds)) }
{
    let mut found = first;
    'items: for i in 0..defs.preds.len() {
        if let Some((name, item)) = defs.preds.at(i) {
            found = sooner(found, pred_refusal(alloc, defs, file, name, item)?);
        }
    }
    Ok(found)
}

fn after_lemmas(
    defs: &Defs,
    file: u32,
    first: Option<Refusal>,
) -> Result<Option<Refusal>, AllocError>
    ensures { IfOk result (λ r. r ≡ earliest first (map (lemma_refusal_lem defs.now file) defs.now.lemmas)) }
{
    let mut found = first;
    'items: for i in 0..defs.lemmas.len() {
        if let Some((name, item)) = defs.lemmas.at(i) {
            found = sooner(found, lemma_refusal(defs, file, name, item)?);
        }
    }
    Ok(found)
}

fn first_refusal(alloc: Global, defs: &Defs, file: u32) -> Result<Option<Refusal>, AllocError>
    ensures { IfOk result (λ r. r ≡ first_refusal_lem defs.now file) }
{
    let found = after_funs(alloc, defs, file, None)?;
    let found = after_preds(alloc, defs, file, found)?;
    after_lemmas(defs, file, found)
}

/// Whether the FUNs, PREDs and lemmas whose places lie in that file are well formed. The refusal at the earliest place is
/// told, and shows the item's name.
///
/// 511 stands at the name of an item whose cases are not one for each constructor of its first argument, or at the first
/// call of itself that is not on a part of it; an item without cases has no such part. 512 stands at a name that an earlier
/// item has. At one name 511 goes first.
pub fn well_formed(alloc: Global, defs: &Defs, file: u32) -> Result<(), Halt>
    ensures exact { Gives (λ u. u) result (judged defs.now file) }
{
    match first_refusal(alloc, defs, file)? {
        None => Ok(()),
        Some(refusal) => Err(Halt::Refused(refusal)),
    }
}
