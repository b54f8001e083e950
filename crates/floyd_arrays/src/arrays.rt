ghost use Rattle.std.specs.Prelude.{◌≡◌, ◌∷◌, IfOk, Ok, drop};
ghost use Rattle.floyd_arrays.specs.Arrays.{array_at as array_at_lem, array_of as array_of_lem, array_part as array_part_lem, array_with as array_with_lem, behind as behind_lem, is_whole as is_whole_lem, piece_at as piece_at_lem, resized as resized_lem, slice as slice_lem, with_first as with_first_lem};
ghost use Rattle.floyd_goal_plans.specs.Counts.{count_of as count_of_lem};
ghost use Rattle.floyd_text.specs.Gives.{RuleGives};

use floyd_assert::{Region, Sep, share_terms};
use floyd_ctypes::StructTable;
use floyd_fieldpath::address;
use floyd_folding::written;
use floyd_goal_parts::wrong_goal;
use floyd_goal_plans::count_of;
use floyd_text::{RuleStop, Steps};
use floyd_tree::{AType, Head, Operator, Path, PathStep, Term, TermList};
use std::alloc::{AllocError, Global};
use std::sync::ledger::Ledger;

/// A part that is a whole array: where it lies, the number of its elements, and its value.
pub(crate) struct ArrayPart {
    pub(crate) region: Region,
    pub(crate) count: Term,
    pub(crate) value: Term,
}

impl Drop for ArrayPart {
    fn drop(self) {
        let ArrayPart {
            region,
            count,
            value,
        } = self;
        drop(region);
        drop(count);
        drop(value);
    }
}

fn array_part(
    alloc: Global,
    region: &Region,
    value: &Term,
    n: &Term,
) -> Result<ArrayPart, AllocError>
    ensures { IfOk result (λ a. array_part_lem region.now value.now n.now ≡ Ok a) }
{
    let region = region.share(alloc)?;
    let count = n.share()?;
    let value = value.share()?;
    Ok(ArrayPart {
        region,
        count,
        value,
    })
}

fn array_with(alloc: Global, region: &Region, value: &Term) -> Result<ArrayPart, RuleStop>
    ensures exact { RuleGives (λ a. a) result (array_with_lem region.now value.now (count_of_lem region.now.ty)) }
{
    match count_of(&region.ty) {
        Some(n) => Ok(array_part(alloc, region, value, n)?),
        None => Err(RuleStop::No(wrong_goal())),
    }
}

/// Whether the region has the empty path.
fn is_whole(region: &Region) -> bool
    ensures { result ≡ is_whole_lem region.now }
{
    region.path.len() == 0
}

fn array_at(alloc: Global, region: &Region, value: &Term) -> Result<ArrayPart, RuleStop>
    ensures exact { RuleGives (λ a. a) result (array_at_lem region.now value.now) }
{
    if is_whole(region) {
        array_with(alloc, region, value)
    } else {
        Err(RuleStop::No(wrong_goal()))
    }
}

/// The part as a whole array, which it must be.
pub(crate) fn array_of(alloc: Global, part: &Sep) -> Result<ArrayPart, RuleStop>
    ensures exact { RuleGives (λ a. a) result (array_of_lem part.now) }
{
    match part {
        Sep::FieldAt(region, value) => array_at(alloc, region, value),
        Sep::Padding(_) => Err(RuleStop::No(wrong_goal())),
        Sep::Valid(_) => Err(RuleStop::No(wrong_goal())),
        Sep::Anything => Err(RuleStop::No(wrong_goal())),
        Sep::Predicate(_, _) => Err(RuleStop::No(wrong_goal())),
    }
}

/// The sizes but the first one.
#[tactic(auto, using(crate::proofs::ArrayLemmas::rest_taken, crate::proofs::ArrayLemmas::no_rest))]
fn behind_first(sizes: &[Term]) -> &[Term]
    ensures { result.now ≡ drop 1 sizes.now }
{
    match sizes {
        [_, others @ ..] => others,
        [] => sizes,
    }
}

/// A size before others.
fn one_before(alloc: Global, n: &Term, others: &[Term]) -> Result<TermList, AllocError>
    ensures { IfOk result (λ all. all ≡ n.now ∷ others.now) }
{
    let mut all = TermList::new(alloc);
    all.push(n.share()?)?;
    all.append(share_terms(alloc, others)?)?;
    Ok(all)
}

/// The sizes with another first one, if there is one.
#[tactic(auto, using(crate::proofs::ArrayLemmas::with_none))]
fn with_first(alloc: Global, n: &Term, sizes: &[Term]) -> Result<TermList, AllocError>
    ensures { IfOk result (λ all. all ≡ with_first_lem n.now sizes.now) }
{
    match sizes {
        [_, ..] => one_before(alloc, n, behind_first(sizes)),
        [] => Ok(TermList::new(alloc)),
    }
}

/// An array of so many of the same elements.
fn resized(alloc: Global, t: &AType, n: &Term) -> Result<AType, AllocError>
    ensures { IfOk result (λ u. u ≡ resized_lem t.now n.now) }
{
    let all = with_first(alloc, n, t.sizes().as_slice())?;
    let shape = t.shape().share()?;
    Ok(AType::new(shape, all))
}

/// The array's part of so many elements at that address, with that value.
pub(crate) fn piece(
    alloc: Global,
    a: &ArrayPart,
    n: &Term,
    root: &Term,
    value: Term,
) -> Result<Sep, AllocError>
    ensures { IfOk result (λ p. piece_at_lem a.now n.now root.now value ≡ Ok p) }
{
    let share = a.region.share.share()?;
    let ty = resized(alloc, &a.region.ty, n)?;
    let path = Path::new(alloc);
    let root = root.share()?;
    let region = Region {
        share,
        ty,
        path,
        root,
    };
    Ok(Sep::FieldAt(region, value))
}

/// The address of the element at that subscript.
pub(crate) fn behind<L: Ledger>(
    alloc: Global,
    structs: &StructTable,
    a: &ArrayPart,
    m: &Term,
    steps: &mut Steps<L>,
) -> Result<Term, RuleStop>
    ensures exact { RuleGives (λ t. t) result (behind_lem structs.now a.now m.now) }
{
    let mut path = Path::new(alloc);
    path.push(PathStep::Subscript(m.share()?))?;
    address(alloc, structs, &a.region.ty, &path, &a.region.root, steps)
}

/// The elements of a list from one place up to another.
pub(crate) fn slice<L: Ledger>(
    alloc: Global,
    low: &Term,
    high: &Term,
    list: &Term,
    steps: &mut Steps<L>,
) -> Result<Term, RuleStop>
    ensures exact { RuleGives (λ t. t) result (slice_lem low.now high.now list.now) }
{
    let kids = [low.share()?, high.share()?, list.share()?];
    written(alloc, Head::Operator(Operator::Sublist), &kids, steps)
}
