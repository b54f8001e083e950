ghost use Rattle.std.specs.Prelude.{◌≡◌};
ghost use Rattle.std.specs.Option.{option_copied};
ghost use Rattle.floyd_text.specs.Gives.{RuleGives};
ghost use Rattle.floyd_fieldpath.specs.Projections.{kid_under};
ghost use Rattle.floyd_fieldpath.specs.Updates.{is_int as is_int_lem, is_long as is_long_lem, numbers_with as numbers_with_lem, three as three_lem, with_element as with_element_lem};
ghost use Rattle.floyd_fieldpath.specs.Written.{written as written_lem};

use crate::projections::one;
use crate::views::{ints_in, longs_in};
use crate::writing::written;
use floyd_text::{RuleStop, Steps};
use floyd_tree::{Head, Operator, Term, head, kids};
use std::alloc::Global;
use std::sync::ledger::Ledger;

/// An array's value with another element at a subscript.
pub(crate) fn with_element<L: Ledger>(
    alloc: Global,
    i: &Term,
    v: &Term,
    u: &Term,
    steps: &mut Steps<L>,
) -> Result<Term, RuleStop>
    ensures exact { RuleGives (λ u. u) result (with_element_lem i.now v.now u.now) }
{
    if let (Some(z), Some(l)) = (int_in(u), ints_in(v)) {
        return numbers_with(alloc, Operator::Vints, i, z, l, steps);
    }
    if let (Some(z), Some(l)) = (long_in(u), longs_in(v)) {
        return numbers_with(alloc, Operator::Vlongs, i, z, l, steps);
    }
    three(alloc, i, u, v, steps)
}

/// A list of numbers with another number at a subscript, as values.
#[tactic(auto, using(crate::proofs::WrittenLemmas::goes_on, crate::proofs::WrittenLemmas::stops))]
fn numbers_with<L: Ledger>(
    alloc: Global,
    values: Operator,
    i: &Term,
    z: &Term,
    l: &Term,
    steps: &mut Steps<L>,
) -> Result<Term, RuleStop>
    ensures exact { RuleGives (λ u. u) result (numbers_with_lem values i.now (z.now, l.now)) }
{
    let numbers = three(alloc, i, z, l, steps)?;
    one(alloc, values, &numbers, steps)
}

/// A list with another item at a subscript.
fn three<L: Ledger>(
    alloc: Global,
    i: &Term,
    u: &Term,
    l: &Term,
    steps: &mut Steps<L>,
) -> Result<Term, RuleStop>
    ensures exact { RuleGives (λ u. u) result (written_lem (three_lem Operator.Upd i.now u.now l.now)) }
{
    let kids = [i.share()?, u.share()?, l.share()?];
    written(alloc, Head::Operator(Operator::Upd), &kids, steps)
}

fn is_int(head: &Head) -> bool
    ensures { result ≡ is_int_lem head.now }
{
    match head {
        Head::Operator(operator) => matches!(operator, Operator::Vint),
        _ => false,
    }
}

fn is_long(head: &Head) -> bool
    ensures { result ≡ is_long_lem head.now }
{
    match head {
        Head::Operator(operator) => matches!(operator, Operator::Vlong),
        _ => false,
    }
}

/// The number that `Vint` reads as a value.
fn int_in(t: &Term) -> Option<&Term>
    ensures { option_copied result ≡ kid_under is_int_lem 0 t.now }
{
    if is_int(head(t)) {
        kids(t).get(0)
    } else {
        None
    }
}

/// The same of `Vlong`.
fn long_in(t: &Term) -> Option<&Term>
    ensures { option_copied result ≡ kid_under is_long_lem 0 t.now }
{
    if is_long(head(t)) {
        kids(t).get(0)
    } else {
        None
    }
}
