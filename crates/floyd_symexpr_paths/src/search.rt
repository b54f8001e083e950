ghost use Rattle.std.specs.Prelude.{◌≡◌, IfOk};
ghost use Rattle.floyd_fieldpath.specs.Nested.{type_after as type_after_lem};
ghost use Rattle.floyd_symexpr_paths.specs.Locating.{agreeing_end as agreeing_end_lem, agreeing_step as agreeing_step_lem, agrees as agrees_lem, agrees_at as agrees_at_lem, found_from, found_in as found_in_lem, holds as holds_lem, identical_steps as identical_steps_lem, is_prefix as is_prefix_lem};

use crate::forms::share_form;
use crate::lvalue::Taken;
use crate::matching::Found;
use crate::same::{identical, same_type};
use floyd_assert_trees::{Region, Sep};
use floyd_ctypes::StructTable;
use floyd_fieldpath::nested_type;
use floyd_text::RuleStop;
use floyd_tree::{AType, Path, PathStep, Term};
use std::alloc::{AllocError, Global};

/// What is looked for: an object of the last type at a root, in the first part that has it.
#[derive(Clone, Copy)]
pub(crate) struct Search<'a> {
    pub(crate) structs: &'a StructTable,
    pub(crate) parts: &'a [Sep],
    pub(crate) root: &'a Term,
    pub(crate) last: &'a AType,
}

/// The type after a step, where there is one.
#[tactic(auto, using(crate::proofs::SearchLemmas::after_is))]
pub(crate) fn type_after(
    alloc: Global,
    structs: &StructTable,
    t: &AType,
    step: &PathStep,
) -> Result<Option<AType>, AllocError>
    ensures { IfOk result (λ u. u ≡ type_after_lem structs.now t.now step.now) }
{
    let mut path = Path::new(alloc);
    path.push(step.share()?)?;
    match nested_type(alloc, structs, t, &path) {
        Ok(u) => Ok(Some(u)),
        Err(stop) => match &stop {
            RuleStop::No(_) => Ok(None),
            RuleStop::Memory => Err(AllocError),
        },
    }
}

fn identical_steps(a: &PathStep, b: &PathStep) -> bool
    ensures { result ≡ identical_steps_lem a.now b.now }
{
    match (a, b) {
        (PathStep::Field(x), PathStep::Field(y)) => x == y,
        (PathStep::Subscript(i), PathStep::Subscript(j)) => identical(i, j),
        _ => false,
    }
}

/// Whether a form of a path begins with the path.
#[tactic(auto, using(crate::proofs::SearchLemmas::longer, crate::proofs::SearchLemmas::prefix_true, crate::proofs::SearchLemmas::prefix_false))]
fn is_prefix(path: &Path, form: &[Taken]) -> bool
    ensures { result ≡ is_prefix_lem path.now form.now }
{
    if path.len() > form.len() {
        return false;
    }
    'steps: for i in 0..path.len() {
        if !identical_steps(path.step(i), &form[i].step) {
            return false;
        }
    }
    true
}

/// Whether the type beside a step, if there is one, is the type before a field, or that after a subscript.
fn agrees_at(before: &AType, after: &AType, taken: &Taken) -> bool
    ensures { result ≡ agrees_at_lem before.now after.now taken.now.step taken.now.ty }
{
    match (&taken.step, &taken.ty) {
        (_, None) => true,
        (PathStep::Field(_), Some(t)) => same_type(before, t),
        (PathStep::Subscript(_), Some(t)) => same_type(after, t),
    }
}

/// The type after a step, where it agrees with the type beside it.
fn agreeing_step(
    alloc: Global,
    structs: &StructTable,
    t: &AType,
    taken: &Taken,
) -> Result<Option<AType>, AllocError>
    ensures { IfOk result (λ u. u ≡ agreeing_step_lem structs.now t.now taken.now) }
{
    let Some(after) = type_after(alloc, structs, t, &taken.step)? else {
        return Ok(None);
    };
    if agrees_at(t, &after, taken) {
        Ok(Some(after))
    } else {
        Ok(None)
    }
}

/// The type at the end of a path, where the types along it agree with those beside it.
fn agreeing_end(
    alloc: Global,
    structs: &StructTable,
    t: &AType,
    form: &[Taken],
) -> Result<Option<AType>, AllocError>
    ensures { IfOk result (λ u. u ≡ agreeing_end_lem structs.now t.now form.now) }
{
    let mut inner = t.share(alloc)?;
    'steps: for taken in form {
        let Some(after) = agreeing_step(alloc, structs, &inner, taken)? else {
            return Ok(None);
        };
        inner = after;
    }
    Ok(Some(inner))
}

/// Whether the types along a path agree with those beside it, and its end has the last type.
fn agrees(
    alloc: Global,
    structs: &StructTable,
    t: &AType,
    form: &[Taken],
    last: &AType,
) -> Result<bool, AllocError>
    ensures { IfOk result (λ yes. yes ≡ agrees_lem structs.now t.now form.now last.now) }
{
    match agreeing_end(alloc, structs, t, form)? {
        Some(end) => Ok(same_type(&end, last)),
        None => Ok(false),
    }
}

/// Whether the region has the object.
fn holds(
    alloc: Global,
    search: Search<'_>,
    form: &[Taken],
    region: &Region,
) -> Result<bool, AllocError>
    ensures { IfOk result (λ yes. yes ≡ holds_lem search.entry.structs.now search.entry.root.now search.entry.last.now form.now region.now) }
{
    if !identical(search.root, &region.root) || !is_prefix(&region.path, form) {
        return Ok(false);
    }
    agrees(alloc, search.structs, &region.ty, form, search.last)
}

/// The number of a part. One that fits in no `u32` is want of memory.
fn part_number(number: usize) -> Result<u32, AllocError>
    ensures { IfOk result (λ n. n ≡ number) }
{
    match u32::try_from(number) {
        Ok(n) => Ok(n),
        Err(_) => Err(AllocError),
    }
}

/// Where the part of that number has the object.
fn found_in(
    alloc: Global,
    search: Search<'_>,
    form: &[Taken],
    number: usize,
    part: &Sep,
) -> Result<Option<Found>, AllocError>
    ensures { IfOk result (λ f. f ≡ found_in_lem search.entry.structs.now search.entry.root.now search.entry.last.now form.now number part.now) }
{
    let Sep::FieldAt(region, _) = part else {
        return Ok(None);
    };
    if !holds(alloc, search, form, region)? {
        return Ok(None);
    }
    Ok(Some(Found {
        form: share_form(alloc, form)?,
        number: part_number(number)?,
        ty: region.ty.share(alloc)?,
        own_steps: region.path.len(),
    }))
}

/// The first part that has the object.
pub(crate) fn first_found(
    alloc: Global,
    search: Search<'_>,
    form: &[Taken],
) -> Result<Option<Found>, AllocError>
    ensures { IfOk result (λ f. f ≡ found_from search.entry.structs.now search.entry.root.now search.entry.last.now form.now 1 search.entry.parts.now) }
{
    'parts: for i in 0..search.parts.len() {
        if let Some(f) = found_in(alloc, search, form, i + 1, &search.parts[i])? {
            return Ok(Some(f));
        }
    }
    Ok(None)
}
