//! Lists of names and of weights.
ghost use Rattle.std.specs.Prelude.{◌≡◌, ◌≤◌, ◌<◌, ◌+◌, ◌^◌, [], IfOk, length};
ghost use Rattle.floyd_lex.specs.declared.kinds.Punctuator.TheVariants as p;
ghost use Rattle.floyd_play_arguments.specs.Arguments as specs;
ghost use Rattle.floyd_termread_marks.specs.Lists as lists;
ghost use Rattle.floyd_termread_phrases.specs.Reads.{Answers};

use crate::tokens::{leads_variable, take_minus, take_variable, take_weighed, take_weight_number};
use floyd_assert_trees::NameList;
use floyd_lex::Punctuator;
use floyd_termread_marks::{leads_mark, take_before, take_mark};
use floyd_termread_phrases::{Spot, Text};
use floyd_text::{Halt, Name};
use floyd_tree::{Weight, WeightList};
use sqlite_items::Items;
use std::alloc::Global;

/// Names of variables, one after another.
pub(crate) fn variables_at(alloc: Global, text: Text<'_>, at: u32) -> Result<(NameList, u32), Halt>
    requires at { at ≤ length text.tokens.now.items }
    requires count { length text.tokens.now.items < 2 ^ 32 }
    ensures exact { Answers (λ x. x) (specs.Variables text.entry.bytes.now text.entry.tokens.now [] at) result }
    ensures within { IfOk result (λ x. x.1 ≤ length text.entry.tokens.now.items) }
{
    let mut next = at;
    let mut names = Items::new(alloc);
    'each: while leads_variable(text, next) {
        let (name, behind) = take_variable(alloc, text, Spot { at: next, depth: 0 })?;
        names.push(name)?;
        next = behind;
    }
    Ok((names, next))
}

/// A name of a variable with so many before it in parentheses.
fn next_given(alloc: Global, text: Text<'_>, at: u32, names: &[Name]) -> Result<(Name, u32), Halt>
    requires at { at ≤ length text.tokens.now.items }
    requires count { length text.tokens.now.items < 2 ^ 32 }
    ensures exact { Answers (λ x. x) (lists.next_item text.entry.bytes.now text.entry.tokens.now 1 p.Semicolon (specs.given text.entry.bytes.now text.entry.tokens.now) names.now at) result }
    ensures from { IfOk result (λ x. at + 1 ≤ x.1) }
    ensures within { IfOk result (λ x. x.1 ≤ length text.entry.tokens.now.items) }
{
    let first = take_before(
        text,
        Spot { at, depth: 1 },
        Punctuator::Semicolon,
        names.len(),
    )?;
    take_variable(
        alloc,
        text,
        Spot {
            at: first,
            depth: 1,
        },
    )
}

/// The names up to the end of their list.
fn more_givens(alloc: Global, text: Text<'_>, at: u32) -> Result<(NameList, u32), Halt>
    requires at { at ≤ length text.tokens.now.items }
    requires count { length text.tokens.now.items < 2 ^ 32 }
    ensures exact { Answers (λ x. x) (lists.Listed text.entry.bytes.now text.entry.tokens.now 1 p.Semicolon (specs.given text.entry.bytes.now text.entry.tokens.now) [] at) result }
    ensures within { IfOk result (λ x. x.1 ≤ length text.entry.tokens.now.items) }
{
    let mut next = at;
    let mut names = Items::new(alloc);
    'each: while !leads_mark(text, next, Punctuator::CloseParen) {
        let (name, behind) = next_given(alloc, text, next, names.as_slice())?;
        names.push(name)?;
        next = behind;
    }
    Ok((names, next + 1))
}

/// Names of variables in parentheses, with `;` between them.
pub(crate) fn givens_at(alloc: Global, text: Text<'_>, at: u32) -> Result<(NameList, u32), Halt>
    requires at { at ≤ length text.tokens.now.items }
    requires count { length text.tokens.now.items < 2 ^ 32 }
    ensures exact { Answers (λ x. x) (specs.givens text.entry.bytes.now text.entry.tokens.now at) result }
    ensures within { IfOk result (λ x. x.1 ≤ length text.entry.tokens.now.items) }
{
    let (_open, first) = take_mark(text, Spot { at, depth: 0 }, Punctuator::OpenParen)?;
    more_givens(alloc, text, first)
}

/// The names of variables in parentheses, if they stand there.
pub(crate) fn maybe_givens_at(
    alloc: Global,
    text: Text<'_>,
    at: u32,
) -> Result<(NameList, u32), Halt>
    requires at { at ≤ length text.tokens.now.items }
    requires count { length text.tokens.now.items < 2 ^ 32 }
    ensures exact { Answers (λ x. x) (specs.maybe_givens text.entry.bytes.now text.entry.tokens.now at) result }
    ensures within { IfOk result (λ x. x.1 ≤ length text.entry.tokens.now.items) }
{
    if leads_mark(text, at, Punctuator::OpenParen) {
        return givens_at(alloc, text, at);
    }
    Ok((Items::new(alloc), at))
}

fn weight_of(hypothesis: u32, minus: bool, value: u128) -> Weight
    requires { value < 2 ^ 126 }
    ensures { result ≡ specs.weight_of hypothesis minus value }
{
    let value = value as i128;
    let weight = if minus { -value } else { value };
    Weight { hypothesis, weight }
}

/// A weight.
fn weight_at(text: Text<'_>, at: u32, weights: &[Weight]) -> Result<(Weight, u32), Halt>
    requires at { at ≤ length text.tokens.now.items }
    requires count { length text.tokens.now.items < 2 ^ 32 }
    ensures exact { Answers (λ x. x) (specs.weight text.entry.bytes.now text.entry.tokens.now weights.now at) result }
    ensures from { IfOk result (λ x. at + 1 ≤ x.1) }
    ensures within { IfOk result (λ x. x.1 ≤ length text.entry.tokens.now.items) }
{
    let (hypothesis, first) = take_weighed(text, at)?;
    let (_colon, second) = take_mark(
        text,
        Spot {
            at: first,
            depth: 1,
        },
        Punctuator::Colon,
    )?;
    let (minus, third) = take_minus(text, second)?;
    let (value, behind) = take_weight_number(text, third)?;
    let weight = weight_of(hypothesis, minus, value);
    Ok((weight, behind))
}

/// A weight behind others.
fn next_weight(text: Text<'_>, at: u32, weights: &[Weight]) -> Result<(Weight, u32), Halt>
    requires at { at ≤ length text.tokens.now.items }
    requires count { length text.tokens.now.items < 2 ^ 32 }
    ensures exact { Answers (λ x. x) (lists.next_item text.entry.bytes.now text.entry.tokens.now 1 p.Comma (specs.weight text.entry.bytes.now text.entry.tokens.now) weights.now at) result }
    ensures from { IfOk result (λ x. at + 1 ≤ x.1) }
    ensures within { IfOk result (λ x. x.1 ≤ length text.entry.tokens.now.items) }
{
    let first = take_before(
        text,
        Spot { at, depth: 1 },
        Punctuator::Comma,
        weights.len(),
    )?;
    weight_at(text, first, weights)
}

/// The weights up to the end of their list.
fn more_weights(alloc: Global, text: Text<'_>, at: u32) -> Result<(WeightList, u32), Halt>
    requires at { at ≤ length text.tokens.now.items }
    requires count { length text.tokens.now.items < 2 ^ 32 }
    ensures exact { Answers (λ x. x) (lists.Listed text.entry.bytes.now text.entry.tokens.now 1 p.Comma (specs.weight text.entry.bytes.now text.entry.tokens.now) [] at) result }
    ensures within { IfOk result (λ x. x.1 ≤ length text.entry.tokens.now.items) }
{
    let mut next = at;
    let mut weights = Items::new(alloc);
    'each: while !leads_mark(text, next, Punctuator::CloseParen) {
        let (weight, behind) = next_weight(text, next, weights.as_slice())?;
        weights.push(weight)?;
        next = behind;
    }
    Ok((weights, next + 1))
}

/// Weights in parentheses, with `,` between them.
pub(crate) fn weights_at(alloc: Global, text: Text<'_>, at: u32) -> Result<(WeightList, u32), Halt>
    requires at { at ≤ length text.tokens.now.items }
    requires count { length text.tokens.now.items < 2 ^ 32 }
    ensures exact { Answers (λ x. x) (specs.weights text.entry.bytes.now text.entry.tokens.now at) result }
    ensures within { IfOk result (λ x. x.1 ≤ length text.entry.tokens.now.items) }
{
    let (_open, first) = take_mark(text, Spot { at, depth: 0 }, Punctuator::OpenParen)?;
    more_weights(alloc, text, first)
}
