//! Arguments of one token.
ghost use Rattle.std.specs.Prelude.{◌≡◌, ◌≤◌, ◌<◌, ◌+◌, ◌^◌, IfOk, length};
ghost use Rattle.floyd_play_arguments.specs.Arguments as specs;
ghost use Rattle.floyd_play_arguments.specs.Numbers as n;
ghost use Rattle.floyd_termread_marks.specs.Marks.{found_in, if_next, is_next, one, tokens_at};
ghost use Rattle.floyd_termread_phrases.specs.Reads.{Answers};

use crate::numbers::{
    hypothesis_number, name_of, part_number, variable_of, weighed_number, weight_number,
};
use floyd_lex::Punctuator;
use floyd_termread_marks::{leads_mark, take, take_mark};
use floyd_termread_phrases::{Spot, Text};
use floyd_termread_tokens::Reader;
use floyd_text::{Halt, Name};
use std::alloc::{AllocError, Global};

fn part_number_at(text: Text<'_>, at: u32) -> Option<u32>
    requires { at ≤ length text.tokens.now.items }
    ensures { result ≡ found_in n.part_number (tokens_at text.entry.bytes.now text.entry.tokens.now at) }
{
    match Reader::new(text.bytes, text.tokens, at as usize).peek() {
        Ok(token) => part_number(&token),
        Err(_) => None,
    }
}

fn hypothesis_number_at(text: Text<'_>, at: u32) -> Option<u32>
    requires { at ≤ length text.tokens.now.items }
    ensures { result ≡ found_in n.hypothesis_number (tokens_at text.entry.bytes.now text.entry.tokens.now at) }
{
    match Reader::new(text.bytes, text.tokens, at as usize).peek() {
        Ok(token) => hypothesis_number(&token),
        Err(_) => None,
    }
}

fn weighed_number_at(text: Text<'_>, at: u32) -> Option<u32>
    requires { at ≤ length text.tokens.now.items }
    ensures { result ≡ found_in n.weighed_number (tokens_at text.entry.bytes.now text.entry.tokens.now at) }
{
    match Reader::new(text.bytes, text.tokens, at as usize).peek() {
        Ok(token) => weighed_number(&token),
        Err(_) => None,
    }
}

fn weight_number_at(text: Text<'_>, at: u32) -> Option<u128>
    requires { at ≤ length text.tokens.now.items }
    ensures { result ≡ found_in n.weight_number (tokens_at text.entry.bytes.now text.entry.tokens.now at) }
{
    match Reader::new(text.bytes, text.tokens, at as usize).peek() {
        Ok(token) => weight_number(&token),
        Err(_) => None,
    }
}

fn name_at(alloc: Global, text: Text<'_>, at: u32) -> Result<Option<Name>, AllocError>
    requires { at ≤ length text.tokens.now.items }
    ensures { IfOk result (λ x. x ≡ found_in n.name_of (tokens_at text.entry.bytes.now text.entry.tokens.now at)) }
{
    match Reader::new(text.bytes, text.tokens, at as usize).peek() {
        Ok(token) => name_of(alloc, &token),
        Err(_) => Ok(None),
    }
}

fn variable_at(alloc: Global, text: Text<'_>, at: u32) -> Result<Option<Name>, AllocError>
    requires { at ≤ length text.tokens.now.items }
    ensures { IfOk result (λ x. x ≡ found_in n.variable_of (tokens_at text.entry.bytes.now text.entry.tokens.now at)) }
{
    match Reader::new(text.bytes, text.tokens, at as usize).peek() {
        Ok(token) => variable_of(alloc, &token),
        Err(_) => Ok(None),
    }
}

/// Whether a number stands next.
pub(crate) fn leads_literal(text: Text<'_>, at: u32) -> bool
    requires { at ≤ length text.tokens.now.items }
    ensures { result ≡ is_next text.entry.bytes.now text.entry.tokens.now n.is_literal at }
{
    match Reader::new(text.bytes, text.tokens, at as usize).peek() {
        Ok(token) => part_number(&token).is_some(),
        Err(_) => false,
    }
}

/// Whether the name of a hypothesis stands next.
pub(crate) fn leads_hypothesis(text: Text<'_>, at: u32) -> bool
    requires { at ≤ length text.tokens.now.items }
    ensures { result ≡ is_next text.entry.bytes.now text.entry.tokens.now n.names_hypothesis at }
{
    match Reader::new(text.bytes, text.tokens, at as usize).peek() {
        Ok(token) => hypothesis_number(&token).is_some(),
        Err(_) => false,
    }
}

/// Whether a name stands next that a variable may have.
pub(crate) fn leads_variable(text: Text<'_>, at: u32) -> bool
    requires { at ≤ length text.tokens.now.items }
    ensures { result ≡ is_next text.entry.bytes.now text.entry.tokens.now n.is_variable at }
{
    match Reader::new(text.bytes, text.tokens, at as usize).peek() {
        Ok(token) => token.is_free_name(),
        Err(_) => false,
    }
}

/// The number of a part, which is to stand next, and the number of the token behind it. Else the refusal of what stands
/// there: 302 where it is too deep, and else 501.
pub(crate) fn take_part(text: Text<'_>, at: u32) -> Result<(u32, u32), Halt>
    requires at { at ≤ length text.tokens.now.items }
    requires count { length text.tokens.now.items < 2 ^ 32 }
    ensures exact { Answers (λ x. x) (specs.number text.entry.bytes.now text.entry.tokens.now at) result }
    ensures behind { IfOk result (λ x. x.1 ≡ at + 1) }
    ensures within { IfOk result (λ x. x.1 ≤ length text.entry.tokens.now.items) }
{
    let found = part_number_at(text, at);
    take(text, Spot { at, depth: 0 }, found)
}

/// The number of a hypothesis in the same way.
pub(crate) fn take_hypothesis(text: Text<'_>, at: u32) -> Result<(u32, u32), Halt>
    requires at { at ≤ length text.tokens.now.items }
    requires count { length text.tokens.now.items < 2 ^ 32 }
    ensures exact { Answers (λ x. x) (specs.hypothesis text.entry.bytes.now text.entry.tokens.now at) result }
    ensures behind { IfOk result (λ x. x.1 ≡ at + 1) }
    ensures within { IfOk result (λ x. x.1 ≤ length text.entry.tokens.now.items) }
{
    let found = hypothesis_number_at(text, at);
    take(text, Spot { at, depth: 0 }, found)
}

/// The number of what has a weight, in parentheses.
pub(crate) fn take_weighed(text: Text<'_>, at: u32) -> Result<(u32, u32), Halt>
    requires at { at ≤ length text.tokens.now.items }
    requires count { length text.tokens.now.items < 2 ^ 32 }
    ensures exact { Answers (λ x. x) (one text.entry.bytes.now text.entry.tokens.now 1 n.weighed_number at) result }
    ensures behind { IfOk result (λ x. x.1 ≡ at + 1) }
    ensures within { IfOk result (λ x. x.1 ≤ length text.entry.tokens.now.items) }
{
    let found = weighed_number_at(text, at);
    take(text, Spot { at, depth: 1 }, found)
}

/// The number of a weight, in parentheses.
pub(crate) fn take_weight_number(text: Text<'_>, at: u32) -> Result<(u128, u32), Halt>
    requires at { at ≤ length text.tokens.now.items }
    requires count { length text.tokens.now.items < 2 ^ 32 }
    ensures exact { Answers (λ x. x) (one text.entry.bytes.now text.entry.tokens.now 1 n.weight_number at) result }
    ensures small { IfOk result (λ x. x.0 < 2 ^ 126) }
    ensures behind { IfOk result (λ x. x.1 ≡ at + 1) }
    ensures within { IfOk result (λ x. x.1 ≤ length text.entry.tokens.now.items) }
{
    let found = weight_number_at(text, at);
    take(text, Spot { at, depth: 1 }, found)
}

/// A name, which is to stand next and may be any, and the number of the token behind it. Else the refusal of what stands
/// there: 302 where it is too deep, and else 501.
pub fn take_name(alloc: Global, text: Text<'_>, at: u32) -> Result<(Name, u32), Halt>
    requires at { at ≤ length text.tokens.now.items }
    requires count { length text.tokens.now.items < 2 ^ 32 }
    ensures exact { Answers (λ x. x) (specs.name text.entry.bytes.now text.entry.tokens.now at) result }
    ensures behind { IfOk result (λ x. x.1 ≡ at + 1) }
    ensures within { IfOk result (λ x. x.1 ≤ length text.entry.tokens.now.items) }
{
    let found = name_at(alloc, text, at)?;
    take(text, Spot { at, depth: 0 }, found)
}

/// A name that a variable may have, at this depth.
pub(crate) fn take_variable(alloc: Global, text: Text<'_>, spot: Spot) -> Result<(Name, u32), Halt>
    requires at { spot.at ≤ length text.tokens.now.items }
    requires count { length text.tokens.now.items < 2 ^ 32 }
    ensures exact { Answers (λ x. x) (one text.entry.bytes.now text.entry.tokens.now spot.depth n.variable_of spot.at) result }
    ensures behind { IfOk result (λ x. x.1 ≡ spot.at + 1) }
    ensures within { IfOk result (λ x. x.1 ≤ length text.entry.tokens.now.items) }
{
    let found = variable_at(alloc, text, spot.at)?;
    take(text, spot, found)
}

/// Whether the arrow stands next that turns an equation around, and the number of the token behind it.
pub(crate) fn take_arrow(text: Text<'_>, at: u32) -> Result<(bool, u32), Halt>
    requires at { at ≤ length text.tokens.now.items }
    requires count { length text.tokens.now.items < 2 ^ 32 }
    ensures exact { Answers (λ x. x) (specs.arrow text.entry.bytes.now text.entry.tokens.now at) result }
    ensures within { IfOk result (λ x. x.1 ≤ length text.entry.tokens.now.items) }
{
    if leads_mark(text, at, Punctuator::LeftArrow) {
        let (_arrow, behind) = take_mark(text, Spot { at, depth: 0 }, Punctuator::LeftArrow)?;
        return Ok((true, behind));
    }
    Ok((false, at))
}

/// Whether a minus stands next, in parentheses, and the number of the token behind it.
pub(crate) fn take_minus(text: Text<'_>, at: u32) -> Result<(bool, u32), Halt>
    requires at { at ≤ length text.tokens.now.items }
    requires count { length text.tokens.now.items < 2 ^ 32 }
    ensures exact { Answers (λ x. x) (specs.minus text.entry.bytes.now text.entry.tokens.now at) result }
    ensures from { IfOk result (λ x. at ≤ x.1) }
    ensures within { IfOk result (λ x. x.1 ≤ length text.entry.tokens.now.items) }
{
    if leads_mark(text, at, Punctuator::Minus) {
        let (_minus, behind) = take_mark(text, Spot { at, depth: 1 }, Punctuator::Minus)?;
        return Ok((true, behind));
    }
    Ok((false, at))
}
