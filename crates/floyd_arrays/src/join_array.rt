ghost use Rattle.std.specs.Prelude.{◌≡◌, ◌↔◌, IfOk, IsTrue, Ok, Some, false};
ghost use Rattle.std.specs.Option.{option_copied};
ghost use Rattle.floyd_arrays.specs.Arrays.{piece as piece_lem};
ghost use Rattle.floyd_arrays.specs.JoinArray.{IsNew, IsSum, IsUnion, Joins, Meets, OfSides, Row, both as both_lem, both_at as both_at_lem, is_difference as is_difference_lem};
ghost use Rattle.floyd_arrays.specs.JoinArrayClauses.{HasRefused};
ghost use Rattle.floyd_fieldpath.specs.Projections.{kid_under};
ghost use Rattle.floyd_fieldpath.specs.Sums.{two as two_lem};
ghost use Rattle.floyd_fieldpath.specs.Written.{written as written_lem};
ghost use Rattle.floyd_goal.specs.Answers.{IsAnswer};
ghost use Rattle.floyd_text.specs.Gives.{RuleGives};
ghost use Rattle.floyd_tree_sorts.specs.declared.operators.Operator.TheVariants.{Append};

use crate::arrays::{ArrayPart, array_of, behind, piece};
use floyd_assert::{Defs, Sep, SepList, SpecTable, equal_part};
use floyd_ctypes::StructTable;
use floyd_fieldpath::plus;
use floyd_folding::written;
use floyd_goal_parts::{Args, Goal, GoalList, wrong_goal};
use floyd_goal_plans::{pair_of, put_joined, two_of};
use floyd_text::{RuleStop, Steps};
use floyd_tree::{Head, Operator, Term, equal, head, kids};
use std::alloc::{AllocError, Global};
use std::sync::ledger::Ledger;

/// Whether the part is the array's piece of so many elements at that address.
fn is_piece(
    alloc: Global,
    a: &ArrayPart,
    b: &ArrayPart,
    root: &Term,
    part: &Sep,
) -> Result<bool, AllocError>
    ensures { IfOk result (λ yes. IsTrue yes ↔ (piece_lem a.now b.now.count root.now b.now.value ≡ part.now)) }
{
    let value = b.value.share()?;
    let wanted = piece(alloc, a, &b.count, root, value)?;
    Ok(equal_part(&wanted, part))
}

/// No, unless memory ran out.
fn refused(stop: &RuleStop) -> Result<bool, AllocError>
    ensures { IfOk result (λ yes. (yes ≡ false) × HasRefused stop.now) }
{
    match stop {
        RuleStop::No(_) => Ok(false),
        RuleStop::Memory => Err(AllocError),
    }
}

/// Whether the second part has the share and the elements of the first, and begins where that ends.
fn meets<L: Ledger>(
    alloc: Global,
    structs: &StructTable,
    a: &ArrayPart,
    b: &ArrayPart,
    second: &Sep,
    steps: &mut Steps<L>,
) -> Result<bool, AllocError>
    ensures { IfOk result (λ yes. IsTrue yes ↔ Meets structs.now a.now b.now second.now) }
{
    match behind(alloc, structs, a, &a.count, steps) {
        Ok(root) => is_piece(alloc, a, b, &root, second),
        Err(stop) => refused(&stop),
    }
}

fn is_difference(head: &Head) -> bool
    ensures { result ≡ is_difference_lem head.now }
{
    match head {
        Head::Operator(operator) => matches!(operator, Operator::Sub),
        _ => false,
    }
}

/// The side of a difference at that place, from 0.
fn side_of(t: &Term, place: usize) -> Option<&Term>
    ensures { option_copied result ≡ kid_under is_difference_lem place t.now }
{
    if is_difference(head(t)) {
        kids(t).get(place)
    } else {
        None
    }
}

/// The number of elements of both arrays, where the second's is the difference of these.
#[tactic(auto, using(crate::proofs::JoinLemmas::sum_whole))]
fn of_sides<L: Ledger>(
    alloc: Global,
    m: &Term,
    c: &Term,
    whole: &Term,
    less: &Term,
    steps: &mut Steps<L>,
) -> Result<Term, RuleStop>
    ensures exact { IsAnswer (OfSides m.now c.now (Some whole.now) (Some less.now)) result }
{
    let same = equal(less, m);
    if same {
        return Ok(whole.share()?);
    }
    plus(alloc, m, c, steps)
}

fn of_left<L: Ledger>(
    alloc: Global,
    m: &Term,
    c: &Term,
    whole: &Term,
    less: Option<&Term>,
    steps: &mut Steps<L>,
) -> Result<Term, RuleStop>
    ensures exact { IsAnswer (OfSides m.now c.now (Some whole.now) (option_copied less.entry)) result }
{
    match less {
        Some(less) => of_sides(alloc, m, c, whole, less, steps),
        None => plus(alloc, m, c, steps),
    }
}

fn of_both<L: Ledger>(
    alloc: Global,
    m: &Term,
    c: &Term,
    whole: Option<&Term>,
    less: Option<&Term>,
    steps: &mut Steps<L>,
) -> Result<Term, RuleStop>
    ensures exact { IsAnswer (OfSides m.now c.now (option_copied whole.entry) (option_copied less.entry)) result }
{
    match whole {
        Some(whole) => of_left(alloc, m, c, whole, less, steps),
        None => plus(alloc, m, c, steps),
    }
}

/// The number of elements of both arrays.
fn sum<L: Ledger>(alloc: Global, m: &Term, c: &Term, steps: &mut Steps<L>) -> Result<Term, RuleStop>
    ensures exact { IsAnswer (IsSum m.now c.now) result }
{
    let whole = side_of(c, 0);
    let less = side_of(c, 1);
    of_both(alloc, m, c, whole, less, steps)
}

/// The values of both, one behind the other.
fn appended_value<L: Ledger>(
    alloc: Global,
    a: &ArrayPart,
    b: &ArrayPart,
    steps: &mut Steps<L>,
) -> Result<Term, RuleStop>
    ensures exact { RuleGives (λ t. t) result (written_lem (two_lem Append a.now.value b.now.value)) }
{
    let kids = [a.value.share()?, b.value.share()?];
    written(alloc, Head::Operator(Operator::Append), &kids, steps)
}

fn both_at(alloc: Global, a: &ArrayPart, n: &Term, value: Term) -> Result<SepList, AllocError>
    ensures { IfOk result (λ ps. both_at_lem a.now n.now value ≡ Ok ps) }
{
    let whole = piece(alloc, a, n, &a.region.root, value)?;
    let mut parts = SepList::new(alloc);
    parts.push(whole)?;
    Ok(parts)
}

/// The array of n elements that has the values of both.
#[tactic(auto, using(floyd_fieldpath::proofs::WrittenLemmas::goes_on, floyd_fieldpath::proofs::WrittenLemmas::stops))]
fn both<L: Ledger>(
    alloc: Global,
    a: &ArrayPart,
    b: &ArrayPart,
    n: &Term,
    steps: &mut Steps<L>,
) -> Result<SepList, RuleStop>
    ensures exact { RuleGives (λ ps. ps) result (both_lem a.now b.now n.now) }
{
    let value = appended_value(alloc, a, b, steps)?;
    Ok(both_at(alloc, a, n, value)?)
}

/// The array that has the elements of both.
fn union<L: Ledger>(
    alloc: Global,
    a: &ArrayPart,
    b: &ArrayPart,
    steps: &mut Steps<L>,
) -> Result<SepList, RuleStop>
    ensures exact { IsAnswer (IsUnion a.now b.now) result }
{
    let n = sum(alloc, &a.count, &b.count, steps)?;
    both(alloc, a, b, &n, steps)
}

/// The same, where the second begins where the first ends.
fn joins<L: Ledger>(
    alloc: Global,
    structs: &StructTable,
    second: &Sep,
    a: &ArrayPart,
    b: &ArrayPart,
    steps: &mut Steps<L>,
) -> Result<SepList, RuleStop>
    ensures exact { IsAnswer (Joins structs.now second.now a.now b.now) result }
{
    let met = meets(alloc, structs, a, b, second, steps)?;
    if met {
        union(alloc, a, b, steps)
    } else {
        Err(RuleStop::No(wrong_goal()))
    }
}

/// What becomes of both parts.
fn new_parts<L: Ledger>(
    alloc: Global,
    structs: &StructTable,
    first: &Sep,
    second: &Sep,
    steps: &mut Steps<L>,
) -> Result<SepList, RuleStop>
    ensures exact { IsAnswer (IsNew structs.now first.now second.now) result }
{
    let a = array_of(alloc, first)?;
    let b = array_of(alloc, second)?;
    joins(alloc, structs, second, &a, &b, steps)
}

/// Makes one array of two, of which the second begins where the first ends and has the same share and elements.
pub fn do_join_array<L: Ledger>(
    alloc: Global,
    goal: &Goal,
    args: &Args,
    defs: &Defs,
    _specs: &SpecTable,
    steps: &mut Steps<L>,
) -> Result<GoalList, RuleStop>
    ensures exact { IsAnswer (Row defs.now.structs goal.now args.now) result }
{
    let pair = pair_of(args);
    let (source, first, second) = two_of(goal, pair)?;
    let new = new_parts(alloc, &defs.structs, first, second, steps)?;
    Ok(put_joined(alloc, goal, source, pair, new)?)
}
