//! Rows and operators before an operand, from their parts.
ghost use Rattle.std.specs.Prelude.{◌≡◌, ◌≤◌, IfOk, length};
ghost use Rattle.std.specs.List.{prefix_len};
ghost use Rattle.floyd_termread_groups.specs.RowClauses.{is_other};
ghost use Rattle.floyd_termread_groups.specs.Groups as g;

use crate::copies::copy_prefixes;
use crate::grouped::{Grouped, GroupedLink, Strength};
use crate::strengths::has_strength;
use floyd_termread_trees::{Link, Prefix};
use floyd_text::Place;
use sqlite_items::{Boxed, Items};
use std::alloc::{AllocError, Global};

pub(crate) fn prefixed(
    alloc: Global,
    prefixes: &[Prefix],
    operand: Grouped,
) -> Result<Grouped, AllocError>
    ensures { IfOk result (λ x. x ≡ g.prefixed prefixes.now operand) }
{
    if prefixes.is_empty() {
        return Ok(operand);
    }
    let prefixes = copy_prefixes(alloc, prefixes)?;
    let operand = Boxed::new(alloc, operand)?;
    Ok(Grouped::Prefixed { prefixes, operand })
}

fn is_of_formula(prefix: &Prefix) -> bool
    ensures { result ≡ g.is_of_formula prefix.now }
{
    !matches!(prefix, Prefix::Minus(_))
}

/// How many operators there are before a formula.
pub(crate) fn count_of_formula(prefixes: &[Prefix]) -> usize
    ensures value { result ≡ prefix_len g.is_of_formula prefixes.now }
    ensures within { result ≤ length prefixes.now }
{
    let mut count = 0;
    'each: while count < prefixes.len() && is_of_formula(&prefixes[count]) {
        count += 1;
    }
    count
}

fn sign_of(prefix: &Prefix) -> Option<Place>
    ensures { result ≡ g.sign_of prefix.now }
{
    match prefix {
        Prefix::Minus(at) => Some(*at),
        _ => None,
    }
}

/// The place of a `-` that is the last operator.
#[tactic(auto, using(crate::proofs::RowLemmas::sign_last))]
fn sign(prefixes: &[Prefix]) -> Option<Place>
    ensures { result ≡ g.sign prefixes.now }
{
    match prefixes.split_last() {
        Some((last, _)) => sign_of(last),
        None => None,
    }
}

fn number(
    alloc: Global,
    prefixes: &[Prefix],
    value: u128,
    place: Place,
) -> Result<Grouped, AllocError>
    ensures { IfOk result (λ x. x ≡ g.number (g.sign prefixes.now) prefixes.now value place) }
{
    let minus = sign(prefixes);
    let number = Grouped::Literal {
        minus,
        value,
        place,
    };
    match minus {
        Some(_) => prefixed(alloc, &prefixes[..prefixes.len().saturating_sub(1)], number),
        None => prefixed(alloc, prefixes, number),
    }
}

fn plain_number(atom: &Grouped) -> Option<(u128, Place)>
    ensures { result ≡ g.plain_number atom.now }
{
    match atom {
        Grouped::Literal {
            minus: None,
            value,
            place,
        } => Some((*value, *place)),
        _ => None,
    }
}

/// Operators before what is no formula.
pub(crate) fn signed(
    alloc: Global,
    prefixes: &[Prefix],
    atom: Grouped,
) -> Result<Grouped, AllocError>
    ensures { IfOk result (λ x. x ≡ g.signed prefixes.now atom) }
{
    if let [] = prefixes {
        return Ok(atom);
    }
    match plain_number(&atom) {
        Some((value, place)) => number(alloc, prefixes, value, place),
        None => prefixed(alloc, prefixes, atom),
    }
}

/// How many links there are before the first whose operator is so strong.
pub(crate) fn count_until(strength: Strength, links: &[Link]) -> usize
    ensures value { result ≡ prefix_len (is_other strength) links.now }
    ensures within { result ≤ length links.now }
{
    let mut count = 0;
    'each: while count < links.len() && !has_strength(strength, links[count].infix) {
        count += 1;
    }
    count
}

pub(crate) fn joined(
    alloc: Global,
    strength: Strength,
    first: Grouped,
    links: Items<GroupedLink>,
) -> Result<Grouped, AllocError>
    ensures { IfOk result (λ x. x ≡ g.joined strength first links) }
{
    if links.is_empty() {
        return Ok(first);
    }
    let first = Boxed::new(alloc, first)?;
    Ok(Grouped::Row {
        strength,
        first,
        links,
    })
}
