ghost use Rattle.std.specs.Prelude.{◌≡◌, ◌↔◌, IfOk, IsTrue};
ghost use Rattle.std.specs.Option.{option_copied};
ghost use Rattle.floyd_arrays_structs.specs.JoinStruct.{IsFound, IsValue, LacksFirst, none_found};
ghost use Rattle.floyd_arrays_structs.specs.JoinStructClauses.{Adds, IsHere, IsIn, with_last as with_last_lem};
ghost use Rattle.floyd_assert.specs.Removal.{Lacks};
ghost use Rattle.floyd_goal.specs.Answers.{IsAnswer};

use crate::structs::field_region;
use floyd_assert::{Region, Sep, SepList, equal_part, equal_region};
use floyd_ctypes::Field;
use floyd_goal_parts::wrong_goal;
use floyd_text::RuleStop;
use floyd_tree::{Term, TermList};
use std::alloc::{AllocError, Global};

/// Objects in order, and their values.
pub(crate) struct Found {
    values: TermList,
    objects: SepList,
}

impl Found {
    /// None.
    fn new(alloc: Global) -> Found
        ensures { result ≡ none_found }
    {
        Found {
            values: TermList::new(alloc),
            objects: SepList::new(alloc),
        }
    }

    /// With one object more, last.
    fn with_last(self, place: Region, value: Term) -> Result<Found, AllocError>
        ensures { IfOk result (λ f. f ≡ with_last_lem self place value) }
    {
        let Found {
            mut values,
            mut objects,
        } = self;
        values.push(value.share()?)?;
        objects.push(Sep::FieldAt(place, value))?;
        Ok(Found { values, objects })
    }

    /// The values, and the objects.
    pub(crate) fn into_parts(self) -> (TermList, SepList)
        ensures { result ≡ (self.values, self.objects) }
    {
        let Found { values, objects } = self;
        (values, objects)
    }
}

impl Drop for Found {
    fn drop(self) {
        let Found { values, objects } = self;
        drop(values);
        drop(objects);
    }
}

/// The value of an object at `here`, where that is the region.
fn value_here<'a>(here: &Region, value: &'a Term, region: &Region) -> Option<&'a Term>
    ensures { IsHere here.now value.now region.now (option_copied result) }
{
    if equal_region(here, region) {
        Some(value)
    } else {
        None
    }
}

/// The value of the part, where it is an object at that region.
fn value_in<'a>(part: &'a Sep, region: &Region) -> Option<&'a Term>
    ensures { IsIn region.now part.now (option_copied result) }
{
    match part {
        Sep::FieldAt(here, value) => value_here(here, value, region),
        Sep::Padding(_) => None,
        Sep::Valid(_) => None,
        Sep::Anything => None,
        Sep::Predicate(_, _) => None,
    }
}

/// The value of the first object at that region, of which there must be one.
fn value_at(parts: &[Sep], region: &Region) -> Result<Term, RuleStop>
    ensures exact { IsAnswer (IsValue region.now parts.now) result }
{
    'parts: for part in parts {
        if let Some(value) = value_in(part, region) {
            return Ok(value.share()?);
        }
    }
    Err(RuleStop::No(wrong_goal()))
}

/// With the first object at that region more.
fn adds(parts: &[Sep], place: Region, found: Found) -> Result<Found, RuleStop>
    ensures exact { IsAnswer (Adds found place parts.now) result }
{
    let value = value_at(parts, &place)?;
    Ok(found.with_last(place, value)?)
}

/// The objects of these fields of the struct at the region, each the first one at its place, and their values.
pub(crate) fn found_in(
    alloc: Global,
    region: &Region,
    parts: &[Sep],
    fields: &[Field],
) -> Result<Found, RuleStop>
    ensures exact { IsAnswer (IsFound region.now parts.now fields.now) result }
{
    let mut found = Found::new(alloc);
    'fields: for field in fields {
        let place = field_region(alloc, region, &field.name)?;
        let more = adds(parts, place, found)?;
        found = more;
    }
    Ok(found)
}

/// Whether none of the parts is equal to this one.
fn lacks(parts: &[Sep], part: &Sep) -> bool
    ensures { IsTrue result ↔ Lacks part.now parts.now }
{
    'parts: for other in parts {
        if equal_part(other, part) {
            return false;
        }
    }
    true
}

/// Whether there is padding, and it is not among the parts.
#[tactic(auto, using(crate::proofs::ObjectLemmas::lacks_none))]
pub(crate) fn lacks_first(parts: &[Sep], padding: &[Sep]) -> bool
    ensures { IsTrue result ↔ LacksFirst padding.now parts.now }
{
    match padding {
        [part, ..] => lacks(parts, part),
        [] => false,
    }
}
