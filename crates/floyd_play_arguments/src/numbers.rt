//! What one token names.
ghost use Rattle.std.specs.Prelude.{◌≡◌, ◌+◌, ◌-◌, ◌*◌, IfOk};
ghost use Rattle.floyd_play_arguments.specs.Numbers as specs;

use floyd_lex::TokenKind;
use floyd_termread_tokens::{Seen, is_hypothesis};
use floyd_text::Name;
use std::alloc::{AllocError, Global};

/// The greatest number, which no part and no hypothesis has.
const LAST: u32 = 4_294_967_295;

/// Weights are less than this in absolute value.
const WEIGHTS: u128 = 1 << 126;

fn capped(value: u128) -> u32
    ensures { result ≡ specs.capped value }
{
    if value < LAST as u128 {
        value as u32
    } else {
        LAST
    }
}

/// The number that a token writes.
fn literal(token: &Seen<'_>) -> Option<u128>
    ensures { result ≡ specs.literal token.now }
{
    match token.kind() {
        TokenKind::Literal(_, value) => Some(value),
        _ => None,
    }
}

/// The number of a part.
pub(crate) fn part_number(token: &Seen<'_>) -> Option<u32>
    ensures { result ≡ specs.part_number token.now }
{
    match literal(token) {
        Some(value) => Some(capped(value)),
        None => None,
    }
}

/// The number with one more digit, or the greatest one.
fn with_digit(number: u32, digit: u8) -> u32
    ensures { result ≡ specs.capped (number * 10 + (digit - 48)) }
{
    let next = number as u64 * 10 + digit.saturating_sub(48) as u64;
    if next < LAST as u64 {
        next as u32
    } else {
        LAST
    }
}

/// The number that digits write, or the greatest one.
#[tactic(auto, using(crate::proofs::DigitLemmas::one_digit))]
fn digits(text: &[u8]) -> u32
    ensures { result ≡ specs.capped (specs.digits_behind 0 text.now) }
{
    let mut rest = text;
    let mut number = 0;
    'digits: while let Some((digit, more)) = rest.split_first() {
        number = with_digit(number, *digit);
        rest = more;
    }
    number
}

/// The number in a hypothesis's name.
fn number_in_name(name: &[u8]) -> u32
    ensures { result ≡ specs.number_in_name name.now }
{
    match name {
        [_, rest @ ..] => digits(rest),
        [] => 0,
    }
}

/// The number of a hypothesis.
pub(crate) fn hypothesis_number(token: &Seen<'_>) -> Option<u32>
    ensures { result ≡ specs.hypothesis_number token.now }
{
    if token.is_name() && is_hypothesis(token.text()) {
        Some(number_in_name(token.text()))
    } else {
        None
    }
}

/// The number of what has a weight: a hypothesis, or the negated goal, which is 0.
pub(crate) fn weighed_number(token: &Seen<'_>) -> Option<u32>
    ensures { result ≡ specs.weighed_number token.now }
{
    if token.is_name() && token.text() == b"N".as_slice() {
        Some(0)
    } else {
        hypothesis_number(token)
    }
}

/// The number of a weight.
pub(crate) fn weight_number(token: &Seen<'_>) -> Option<u128>
    ensures { result ≡ specs.weight_number token.now }
{
    match literal(token) {
        Some(value) if value < WEIGHTS => Some(value),
        _ => None,
    }
}

/// A name.
pub(crate) fn name_of(alloc: Global, token: &Seen<'_>) -> Result<Option<Name>, AllocError>
    ensures { IfOk result (λ x. x ≡ specs.name_of token.now) }
{
    if token.is_name() {
        Ok(Some(Name::from_slice(alloc, token.text())?))
    } else {
        Ok(None)
    }
}

/// A name that a variable may have.
pub(crate) fn variable_of(alloc: Global, token: &Seen<'_>) -> Result<Option<Name>, AllocError>
    ensures { IfOk result (λ x. x ≡ specs.variable_of token.now) }
{
    if token.is_free_name() {
        Ok(Some(Name::from_slice(alloc, token.text())?))
    } else {
        Ok(None)
    }
}
