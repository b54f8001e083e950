ghost use Rattle.std.specs.Prelude.{◌≡◌, ◌+◌, ◌<◌, ◌^◌, IfOk, false, length, true};
ghost use Rattle.floyd_assert.specs.Removal.{GivesDifference, Lacks, Without};
ghost use Rattle.floyd_assert.specs.RemovalClauses.{Misses, left};

use crate::parts::equal_part;
use floyd_assert_trees::{Sep, SepList};
use floyd_text::{Code, No, RuleStop, Shown};
use sqlite_items::Items;
use std::alloc::{AllocError, Global};

/// What is left of the parts once those that are to go are taken out, each with the first equal one that is left. The
/// number of a part that is missing is its number among those that are to go, from 1; one that fits in no `u32` is want
/// of memory.
pub fn remove_parts(alloc: Global, from: &SepList, gone: &SepList) -> Result<SepList, RuleStop>
    ensures exact { GivesDifference result from.now gone.now }
{
    let parts = from.as_slice();
    let gone = gone.as_slice();
    let mut taken = vec![in alloc; false; parts.len()]?;
    'gone: for i in 0..gone.len() {
        if !take_first(parts, &mut taken, &gone[i]) {
            return Err(missing(i));
        }
    }
    Ok(share_left(alloc, parts, &taken)?)
}

/// Marks the first part that is equal to this one and not yet taken, and says whether there is one.
fn take_first(parts: &[Sep], taken: &mut [bool], part: &Sep) -> bool
    requires { length parts.now ≡ length taken.old }
    ensures count { length taken.new ≡ length taken.old }
    ensures there { result ≡ true → Without part.now (left parts.now taken.old) (left parts.now taken.new) }
    ensures missing { result ≡ false → Lacks part.now (left parts.now taken.old) }
{
    'parts: for i in 0..parts.len() {
        if !taken[i] && equal_part(&parts[i], part) {
            taken[i] = true;
            return true;
        }
    }
    false
}

/// The refusal of the part at this place, from 0.
fn missing(place: usize) -> RuleStop
    requires { place + 1 < 2 ^ 64 }
    ensures { Misses result (place + 1) }
{
    match u32::try_from(place + 1) {
        Ok(number) => RuleStop::No(No {
            code: Code::PartMissing,
            shown: Shown::Part(number),
        }),
        Err(_) => RuleStop::Memory,
    }
}

/// The parts that are not taken.
fn share_left(alloc: Global, parts: &[Sep], taken: &[bool]) -> Result<SepList, AllocError>
    requires { length parts.now ≡ length taken.now }
    ensures { IfOk result (λ all. all ≡ left parts.now taken.now) }
{
    let mut all = Vec::new(alloc);
    'parts: for i in 0..parts.len() {
        if !taken[i] {
            all.push(parts[i].share(alloc)?)?;
        }
    }
    Ok(Items::from_vec(all))
}
