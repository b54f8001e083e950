ghost use Rattle.std.specs.Prelude.{◌≡◌, ◌+◌, ◌<◌, ◌^◌, ℕ, IfOk, IfSome, length};
ghost use Rattle.std.specs.List.{list_any};
ghost use Rattle.floyd_entail_cancel.specs.Cancel.{IsFirstLeft, is_anything as is_anything_lem, is_done as is_done_lem, number_among as number_among_lem, part_left as part_left_lem, solid as solid_lem};
ghost use Rattle.floyd_entail_cancel.specs.CancelClauses.{IsMissing, Renumbers, is_here as is_here_lem, number_behind as number_behind_lem, shown_part as shown_part_lem};

use floyd_assert::{Sep, SepList, remove_parts};
use floyd_text::{Code, No, RuleStop, Shown};
use std::alloc::{AllocError, Global};

fn is_anything(part: &Sep) -> bool
    ensures { result ≡ is_anything_lem part.now }
{
    match part {
        Sep::FieldAt(_, _) => false,
        Sep::Padding(_) => false,
        Sep::Valid(_) => false,
        Sep::Anything => true,
        Sep::Predicate(_, _) => false,
    }
}

/// The parts but TT.
pub(crate) fn solid(alloc: Global, parts: &[Sep]) -> Result<SepList, AllocError>
    ensures { IfOk result (λ all. all ≡ solid_lem parts.now) }
{
    let mut all = SepList::new(alloc);
    'parts: for part in parts {
        if !is_anything(part) {
            all.push(part.share(alloc)?)?;
        }
    }
    Ok(all)
}

fn has_anything(parts: &[Sep]) -> bool
    ensures { result ≡ list_any is_anything_lem parts.now }
{
    parts.iter().any(|part| is_anything(part))
}

/// Whether none is left, or the target has TT.
#[tactic(auto, using(crate::proofs::CancelLemmas::done_more))]
pub(crate) fn is_done(rest: &SepList, target: &[Sep]) -> bool
    ensures { result ≡ is_done_lem rest.now target.now }
{
    if rest.is_empty() {
        true
    } else {
        has_anything(target)
    }
}

/// The number of the part that a refusal shows.
fn shown_part(stop: &RuleStop) -> Option<u32>
    ensures { result ≡ shown_part_lem stop.now }
{
    match stop {
        RuleStop::No(no) => match &no.shown {
            Shown::Part(number) => Some(*number),
            _ => None,
        },
        RuleStop::Memory => None,
    }
}

/// The number of a place, from 0, where it fits in a `u32`.
fn number_of(place: usize) -> Option<u32>
    requires { place + 1 < 2 ^ 64 }
    ensures { IfSome result (λ n. n ≡ place + 1) }
{
    match u32::try_from(place + 1) {
        Ok(number) => Some(number),
        Err(_) => None,
    }
}

/// Whether the part is the one of that number among those but TT.
fn is_here(part: &Sep, number: u32) -> bool
    ensures { result ≡ is_here_lem part.now number }
{
    let is_solid = !is_anything(part);
    is_solid && number <= 1
}

/// The number behind the part.
fn number_behind(part: &Sep, number: u32) -> u32
    ensures { result ≡ number_behind_lem part.now number }
{
    if is_anything(part) {
        number
    } else {
        number.saturating_sub(1)
    }
}

/// The number among all of these parts of the one that has this number among those but TT.
fn number_among(parts: &[Sep], number: u32) -> Option<u32>
    ensures { IfSome result (λ n. n ≡ number_among_lem parts.now number) }
{
    let mut left = number;
    'parts: for i in 0..parts.len() {
        let part = &parts[i];
        if is_here(part, left) {
            return number_of(i);
        }
        left = number_behind(part, left);
    }
    None
}

/// The refusal of the part that has this number among those but TT, by its number among all. A number that fits in no `u32`
/// is want of memory.
fn missing_part(target: &[Sep], number: u32) -> RuleStop
    ensures { IsMissing result (number_among_lem target.now number) }
{
    match number_among(target, number) {
        Some(number) => RuleStop::No(No {
            code: Code::PartMissing,
            shown: Shown::Part(number),
        }),
        None => RuleStop::Memory,
    }
}

/// The refusal of a part by its number among those but TT, as one by its number among all.
#[tactic(auto, using(crate::proofs::CancelLemmas::renumbers, crate::proofs::CancelLemmas::renumbers_none))]
pub(crate) fn missing_among(target: &[Sep], stop: &RuleStop) -> RuleStop
    ensures { Renumbers target.now stop.now result }
{
    match shown_part(stop) {
        Some(number) => missing_part(target, number),
        None => RuleStop::Memory,
    }
}

/// The refusal of the source's first part that is left, where the source has more parts than the target.
pub(crate) fn first_left(
    alloc: Global,
    source: &SepList,
    target: &SepList,
) -> Result<No, AllocError>
    requires { length target.now < length source.now }
    ensures { IfOk result (λ no. (k : ℕ) × IsFirstLeft source.now target.now k × (no ≡ part_left_lem k)) }
{
    match remove_parts(alloc, target, source) {
        Ok(_) => unreachable!(),
        Err(stop) => match shown_part(&stop) {
            Some(number) => Ok(No {
                code: Code::PartLeft,
                shown: Shown::Part(number),
            }),
            None => Err(AllocError),
        },
    }
}
