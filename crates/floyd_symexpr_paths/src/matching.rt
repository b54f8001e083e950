ghost use Rattle.std.specs.Prelude.{◌≡◌, IfOk, option_and_then};
ghost use Rattle.floyd_symexpr_paths.specs.Locating.{found as found_lem, found_from, with_first as with_first_lem, without_first as without_first_lem};

use crate::forms::{with_first, without_first};
use crate::lvalue::{Taken, TakenList};
use crate::search::{Search, first_found};
use floyd_text::Steps;
use floyd_tree::AType;
use std::alloc::{AllocError, Global};
use std::sync::ledger::Ledger;

/// Where an object was found.
pub(crate) struct Found {
    /// The form of its path.
    pub(crate) form: TakenList,
    /// The number of the part, from 1.
    pub(crate) number: u32,
    /// The type of the part.
    pub(crate) ty: AType,
    /// How many steps the part's own path has.
    pub(crate) own_steps: usize,
}

impl Drop for Found {
    fn drop(self) {
        let Found {
            form,
            number: _,
            ty,
            own_steps: _,
        } = self;
        drop(form);
        drop(ty);
    }
}

/// The same with the form without a leading `[0]`, if it has one.
fn found_without(
    alloc: Global,
    search: Search<'_>,
    form: &[Taken],
) -> Result<Option<Found>, AllocError>
    ensures { IfOk result (λ f. f ≡ option_and_then (λ shorter. found_from search.entry.structs.now search.entry.root.now search.entry.last.now shorter 1 search.entry.parts.now) (without_first_lem form.now)) }
{
    match without_first(form) {
        Some(shorter) => first_found(alloc, search, shorter),
        None => Ok(None),
    }
}

/// The same with a leading `[0]` added.
fn found_with<L: Ledger>(
    alloc: Global,
    search: Search<'_>,
    form: &[Taken],
    steps: &mut Steps<L>,
) -> Result<Option<Found>, AllocError>
    ensures { IfOk result (λ f. f ≡ found_from search.entry.structs.now search.entry.root.now search.entry.last.now (with_first_lem form.now) 1 search.entry.parts.now) }
{
    let longer = with_first(alloc, form, steps)?;
    first_found(alloc, search, longer.as_slice())
}

/// The first part that has the object, for the first of the three forms of its path for which there is one.
pub(crate) fn find<L: Ledger>(
    alloc: Global,
    search: Search<'_>,
    form: &[Taken],
    steps: &mut Steps<L>,
) -> Result<Option<Found>, AllocError>
    ensures { IfOk result (λ f. f ≡ found_lem search.entry.structs.now search.entry.parts.now search.entry.root.now search.entry.last.now form.now) }
{
    if let Some(f) = first_found(alloc, search, form)? {
        return Ok(Some(f));
    }
    if let Some(f) = found_without(alloc, search, form)? {
        return Ok(Some(f));
    }
    found_with(alloc, search, form, steps)
}
