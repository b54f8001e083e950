ghost use Rattle.std.specs.Prelude.{◌≡◌, ◌+ℤ◌, ◌*ℤ◌, Some};
ghost use Rattle.floyd_text.specs.Gives.{RuleGives};
ghost use Rattle.floyd_fieldpath.specs.Sums.{is_small as is_small_lem, is_zero as is_zero_lem, literal_in as literal_in_lem, literal_or as literal_or_lem, moved as moved_lem, number_of as number_of_lem, of_both, plus as plus_lem, small, times as times_lem, two as two_lem};
ghost use Rattle.floyd_fieldpath.specs.Written.{written as written_lem};

use crate::literals::literal;
use crate::writing::written;
use floyd_text::{RuleStop, Steps};
use floyd_tree::{Head, Operator, Term, head};
use std::alloc::Global;
use std::sync::ledger::Ledger;

/// The number that a literal is.
pub fn literal_in(t: &Term) -> Option<i128>
    ensures { result ≡ literal_in_lem t.now }
{
    number_of(head(t))
}

fn number_of(head: &Head) -> Option<i128>
    ensures { result ≡ number_of_lem head.now }
{
    match head {
        Head::Literal(z) => Some(*z),
        _ => None,
    }
}

/// Whether a number may be folded into a literal: it is below 2^126 in absolute value.
fn is_small(z: i128) -> bool
    ensures { result ≡ is_small_lem z }
{
    z.unsigned_abs() < 1 << 126
}

/// The sum of two terms. Two literals are folded where their sum is below 2^126 in absolute value.
pub fn plus<L: Ledger>(
    alloc: Global,
    a: &Term,
    b: &Term,
    steps: &mut Steps<L>,
) -> Result<Term, RuleStop>
    ensures exact { RuleGives (λ t. t) result (plus_lem a.now b.now) }
{
    let sum = sum_in(a, b);
    literal_or(alloc, sum, Operator::Add, a, b, steps)
}

/// The product of two terms, folded likewise.
pub fn times<L: Ledger>(
    alloc: Global,
    a: &Term,
    b: &Term,
    steps: &mut Steps<L>,
) -> Result<Term, RuleStop>
    ensures exact { RuleGives (λ t. t) result (times_lem a.now b.now) }
{
    let product = product_in(a, b);
    literal_or(alloc, product, Operator::Mul, a, b, steps)
}

/// A pointer moved by a number of bytes. Moved by the literal 0 it is itself.
pub fn moved<L: Ledger>(
    alloc: Global,
    p: &Term,
    n: &Term,
    steps: &mut Steps<L>,
) -> Result<Term, RuleStop>
    ensures exact { RuleGives (λ t. t) result (moved_lem p.now n.now) }
{
    if is_zero(n) {
        return Ok(p.share()?);
    }
    two(alloc, Operator::PtrAdd, p, n, steps)
}

fn is_zero(t: &Term) -> bool
    ensures { result ≡ is_zero_lem t.now }
{
    match literal_in(t) {
        Some(z) => z == 0,
        None => false,
    }
}

/// The sum of two literals, where it is small.
fn sum_in(a: &Term, b: &Term) -> Option<i128>
    ensures { result ≡ small (of_both (λ x y. x +ℤ y) (literal_in_lem a.now) (literal_in_lem b.now)) }
{
    match (literal_in(a), literal_in(b)) {
        (Some(x), Some(y)) => small_sum(x, y),
        _ => None,
    }
}

/// The product of two literals, where it is small.
fn product_in(a: &Term, b: &Term) -> Option<i128>
    ensures { result ≡ small (of_both (λ x y. x *ℤ y) (literal_in_lem a.now) (literal_in_lem b.now)) }
{
    match (literal_in(a), literal_in(b)) {
        (Some(x), Some(y)) => small_product(x, y),
        _ => None,
    }
}

#[tactic(auto, using(crate::proofs::SumLemmas::not_small))]
fn small_sum(x: i128, y: i128) -> Option<i128>
    ensures { result ≡ small (Some (x +ℤ y)) }
{
    match x.checked_add(y) {
        Some(sum) => if is_small(sum) { Some(sum) } else { None },
        None => None,
    }
}

#[tactic(auto, using(crate::proofs::SumLemmas::not_small))]
fn small_product(x: i128, y: i128) -> Option<i128>
    ensures { result ≡ small (Some (x *ℤ y)) }
{
    match x.checked_mul(y) {
        Some(product) => if is_small(product) {
            Some(product)
        } else {
            None
        },
        None => None,
    }
}

/// The literal of a number, or else the two terms under an operator.
fn literal_or<L: Ledger>(
    alloc: Global,
    z: Option<i128>,
    operator: Operator,
    a: &Term,
    b: &Term,
    steps: &mut Steps<L>,
) -> Result<Term, RuleStop>
    ensures exact { RuleGives (λ t. t) result (literal_or_lem z (two_lem operator a.now b.now)) }
{
    match z {
        Some(z) => Ok(literal(alloc, z, steps)?),
        None => two(alloc, operator, a, b, steps),
    }
}

/// Two terms under an operator.
pub(crate) fn two<L: Ledger>(
    alloc: Global,
    operator: Operator,
    a: &Term,
    b: &Term,
    steps: &mut Steps<L>,
) -> Result<Term, RuleStop>
    ensures exact { RuleGives (λ t. t) result (written_lem (two_lem operator a.now b.now)) }
{
    let kids = [a.share()?, b.share()?];
    written(alloc, Head::Operator(operator), &kids, steps)
}
