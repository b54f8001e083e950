ghost use Rattle.std.specs.Prelude.{◌≡◌, IfOk, drop};
ghost use Rattle.floyd_forward.specs.Objects.{item_in as item_in_lem, part_with as part_with_lem, region_at as region_at_lem, region_of as region_of_lem};
ghost use Rattle.floyd_text.specs.Gives.{RuleGives};

use floyd_assert::{Region, Sep};
use floyd_ctypes::StructTable;
use floyd_fieldpath::{nested_type, project, update};
use floyd_goal_runs::part_at;
use floyd_symexpr_paths::no_part;
use floyd_text::{RuleStop, Steps};
use floyd_tree::{Path, Term};
use std::alloc::{AllocError, Global};
use std::sync::ledger::Ledger;

/// Where a part lies, and its value.
fn region_of(part: &Sep) -> Result<(&Region, &Term), RuleStop>
    ensures exact { RuleGives (λ p. (p.0.now, p.1.now)) result (region_of_lem part.now) }
{
    match part {
        Sep::FieldAt(region, value) => Ok((region, value)),
        Sep::Padding(_) => Err(RuleStop::No(no_part())),
        Sep::Valid(_) => Err(RuleStop::No(no_part())),
        Sep::Anything => Err(RuleStop::No(no_part())),
        Sep::Predicate(_, _) => Err(RuleStop::No(no_part())),
    }
}

/// The same of the part of that number, from 1.
pub(crate) fn region_at(parts: &[Sep], number: u32) -> Result<(&Region, &Term), RuleStop>
    ensures exact { RuleGives (λ p. (p.0.now, p.1.now)) result (region_at_lem parts.now number) }
{
    match part_at(parts, number) {
        Ok(part) => region_of(part),
        Err(stop) => Err(stop),
    }
}

/// The steps of a path but so many first ones.
fn steps_behind(alloc: Global, path: &Path, first: usize) -> Result<Path, AllocError>
    ensures { IfOk result (λ p. p ≡ drop first path.now) }
{
    let mut rest = Path::new(alloc);
    'steps: for place in first..path.len() {
        rest.push(path.step(place).share()?)?;
    }
    Ok(rest)
}

/// The value of the object at that path, in a part with this value.
#[tactic(auto, using(floyd_symexpr_rows::proofs::SayingLemmas::goes_on, floyd_symexpr_rows::proofs::SayingLemmas::stops))]
pub(crate) fn item_in<L: Ledger>(
    alloc: Global,
    structs: &StructTable,
    path: &Path,
    region: &Region,
    value: &Term,
    steps: &mut Steps<L>,
) -> Result<Term, RuleStop>
    ensures exact { RuleGives (λ v. v) result (item_in_lem structs.now path.now (region.now, value.now)) }
{
    let t = nested_type(alloc, structs, &region.ty, &region.path)?;
    let inside = steps_behind(alloc, path, region.path.len())?;
    project(alloc, structs, &t, &inside, value, steps)
}

/// A part that is updated: where it lies, and its value.
#[derive(Clone, Copy)]
pub(crate) struct Target<'a> {
    pub(crate) region: &'a Region,
    pub(crate) value: &'a Term,
}

/// The part with another value for the object at that path.
#[tactic(auto, using(floyd_symexpr_rows::proofs::SayingLemmas::goes_on, floyd_symexpr_rows::proofs::SayingLemmas::stops))]
pub(crate) fn part_with<L: Ledger>(
    alloc: Global,
    structs: &StructTable,
    path: &Path,
    v: &Term,
    part: Target<'_>,
    steps: &mut Steps<L>,
) -> Result<Sep, RuleStop>
    ensures exact { RuleGives (λ p. p) result (part_with_lem structs.now path.now v.now (part.entry.region.now, part.entry.value.now)) }
{
    let region = part.region;
    let t = nested_type(alloc, structs, &region.ty, &region.path)?;
    let inside = steps_behind(alloc, path, region.path.len())?;
    let whole = update(alloc, structs, &t, &inside, part.value, v, steps)?;
    Ok(Sep::FieldAt(region.share(alloc)?, whole))
}
