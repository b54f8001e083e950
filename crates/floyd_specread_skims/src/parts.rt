//! Parts of memory.
ghost use Rattle.std.specs.Prelude.{◌≡◌, ◌≤◌, ◌<◌, ◌+◌, ◌^◌, IfOk, OnOk, length};
ghost use Rattle.floyd_specread_skims.specs.Skims as specs;
ghost use Rattle.floyd_termread_marks.specs.Lists as lists;
ghost use Rattle.floyd_termread_phrases.specs.Reads.{Answers};

use crate::phrases::{skim_behind, skim_object, skim_phrase};
use floyd_lex::Punctuator;
use floyd_termread_marks::{
    AssertionWord, leads_mark, part_word, take_before, take_free_name, take_mark, take_word,
};
use floyd_termread_phrases::{Spot, Text};
use floyd_termread_tables::Want;
use floyd_text::Halt;
use sqlite_items::Items;
use std::alloc::Global;

/// An argument of a predicate, with so many before it, and the comma before it.
fn skim_argument(alloc: Global, text: Text<'_>, spot: Spot, before: usize) -> Result<u32, Halt>
    requires at { spot.at ≤ length text.tokens.now.items }
    requires count { length text.tokens.now.items < 2 ^ 32 }
    ensures exact { Answers (λ n. (tt, n)) (specs.argument_by text.entry.bytes.now text.entry.tokens.now spot.depth before spot.at) result }
    ensures from { IfOk result (λ n. spot.at + 1 ≤ n + lists.first_only before) }
    ensures within { IfOk result (λ n. n ≤ length text.entry.tokens.now.items) }
{
    let depth = spot.depth;
    let first = take_before(text, spot, Punctuator::Comma, before)?;
    skim_phrase(alloc, text, Spot { at: first, depth }, Want::Term)
}

/// The arguments of a predicate up to the end of their list.
fn skim_arguments(alloc: Global, text: Text<'_>, spot: Spot) -> Result<(Items<()>, u32), Halt>
    requires at { spot.at ≤ length text.tokens.now.items }
    requires count { length text.tokens.now.items < 2 ^ 32 }
    ensures exact { Answers (λ x. x) (specs.more_arguments text.entry.bytes.now text.entry.tokens.now spot.depth spot.at) result }
    ensures from { IfOk result (λ x. spot.at ≤ x.1) }
    ensures within { IfOk result (λ x. x.1 ≤ length text.entry.tokens.now.items) }
{
    let Spot { mut at, depth } = spot;
    let mut found = Items::new(alloc);
    'each: while !leads_mark(text, at, Punctuator::CloseParen) {
        let before = found.len();
        let next = skim_argument(alloc, text, Spot { at, depth }, before)?;
        found.push(())?;
        at = next;
    }
    Ok((found, at + 1))
}

/// `name "(" terms ")"`
fn skim_predicate(alloc: Global, text: Text<'_>, spot: Spot) -> Result<u32, Halt>
    requires at { spot.at ≤ length text.tokens.now.items }
    requires count { length text.tokens.now.items < 2 ^ 32 }
    ensures exact { Answers (λ n. (tt, n)) (specs.predicate text.entry.bytes.now text.entry.tokens.now spot.depth spot.at) result }
    ensures from { IfOk result (λ n. spot.at ≤ n) }
    ensures within { IfOk result (λ n. n ≤ length text.entry.tokens.now.items) }
{
    let depth = spot.depth;
    let (_name, first) = take_free_name(alloc, text, spot)?;
    let (_open, second) = take_mark(text, Spot { at: first, depth }, Punctuator::OpenParen)?;
    let inner = depth + 1;
    let (_arguments, behind) = skim_arguments(
        alloc,
        text,
        Spot {
            at: second,
            depth: inner,
        },
    )?;
    Ok(behind)
}

/// `"," term ")"`
fn skim_last(alloc: Global, text: Text<'_>, spot: Spot) -> Result<u32, Halt>
    requires at { spot.at ≤ length text.tokens.now.items }
    requires count { length text.tokens.now.items < 2 ^ 32 }
    ensures exact { Answers (λ n. (tt, n)) (specs.last text.entry.bytes.now text.entry.tokens.now spot.depth spot.at) result }
    ensures from { IfOk result (λ n. spot.at ≤ n) }
    ensures within { IfOk result (λ n. n ≤ length text.entry.tokens.now.items) }
{
    let depth = spot.depth;
    let first = skim_behind(alloc, text, spot, Want::Term)?;
    let (_close, behind) = take_mark(text, Spot { at: first, depth }, Punctuator::CloseParen)?;
    Ok(behind)
}

/// `"," term "," term ")"`
fn skim_last_two(alloc: Global, text: Text<'_>, spot: Spot) -> Result<u32, Halt>
    requires at { spot.at ≤ length text.tokens.now.items }
    requires count { length text.tokens.now.items < 2 ^ 32 }
    ensures exact { Answers (λ n. (tt, n)) (specs.last_two text.entry.bytes.now text.entry.tokens.now spot.depth spot.at) result }
    ensures from { IfOk result (λ n. spot.at ≤ n) }
    ensures within { IfOk result (λ n. n ≤ length text.entry.tokens.now.items) }
{
    let depth = spot.depth;
    let first = skim_behind(alloc, text, spot, Want::Term)?;
    skim_last(alloc, text, Spot { at: first, depth })
}

/// `"," path "," term ")"`, and a further term where the part has a value.
fn skim_path_last(alloc: Global, text: Text<'_>, spot: Spot, has_value: bool) -> Result<u32, Halt>
    requires at { spot.at ≤ length text.tokens.now.items }
    requires count { length text.tokens.now.items < 2 ^ 32 }
    ensures exact { Answers (λ n. (tt, n)) (specs.path_last text.entry.bytes.now text.entry.tokens.now spot.depth has_value spot.at) result }
    ensures from { IfOk result (λ n. spot.at ≤ n) }
    ensures within { IfOk result (λ n. n ≤ length text.entry.tokens.now.items) }
{
    let depth = spot.depth;
    let first = skim_behind(alloc, text, spot, Want::Path)?;
    if has_value {
        return skim_last_two(alloc, text, Spot { at: first, depth });
    }
    skim_last(alloc, text, Spot { at: first, depth })
}

/// What stands in the parentheses of a part with that word, up to the closing one.
fn skim_inside(alloc: Global, text: Text<'_>, spot: Spot, word: AssertionWord) -> Result<u32, Halt>
    requires at { spot.at ≤ length text.tokens.now.items }
    requires count { length text.tokens.now.items < 2 ^ 32 }
    ensures exact { Answers (λ n. (tt, n)) (specs.inside text.entry.bytes.now text.entry.tokens.now spot.depth word spot.at) result }
    ensures from { IfOk result (λ n. spot.at ≤ n) }
    ensures within { IfOk result (λ n. n ≤ length text.entry.tokens.now.items) }
{
    let depth = spot.depth;
    let at = skim_object(alloc, text, spot)?;
    let behind = Spot { at, depth };
    match word {
        AssertionWord::DataAt => skim_last_two(alloc, text, behind),
        AssertionWord::DataAtDefault => skim_last(alloc, text, behind),
        AssertionWord::FieldAt => skim_path_last(alloc, text, behind, true),
        _ => skim_path_last(alloc, text, behind, false),
    }
}

/// `"(" term ")"`
fn skim_address(alloc: Global, text: Text<'_>, spot: Spot) -> Result<u32, Halt>
    requires at { spot.at ≤ length text.tokens.now.items }
    requires count { length text.tokens.now.items < 2 ^ 32 }
    ensures exact { Answers (λ n. (tt, n)) (specs.address text.entry.bytes.now text.entry.tokens.now spot.depth spot.at) result }
    ensures from { IfOk result (λ n. spot.at ≤ n) }
    ensures within { IfOk result (λ n. n ≤ length text.entry.tokens.now.items) }
{
    let (_open, at) = take_mark(text, spot, Punctuator::OpenParen)?;
    let depth = spot.depth + 1;
    let end = skim_phrase(alloc, text, Spot { at, depth }, Want::Term)?;
    let (_close, behind) = take_mark(text, Spot { at: end, depth }, Punctuator::CloseParen)?;
    Ok(behind)
}

/// The parentheses of a part that has an object.
fn skim_opened(alloc: Global, text: Text<'_>, spot: Spot, word: AssertionWord) -> Result<u32, Halt>
    requires at { spot.at ≤ length text.tokens.now.items }
    requires count { length text.tokens.now.items < 2 ^ 32 }
    ensures exact { Answers (λ n. (tt, n)) (specs.opened text.entry.bytes.now text.entry.tokens.now spot.depth word spot.at) result }
    ensures from { IfOk result (λ n. spot.at ≤ n) }
    ensures within { IfOk result (λ n. n ≤ length text.entry.tokens.now.items) }
{
    let (_open, at) = take_mark(text, spot, Punctuator::OpenParen)?;
    let depth = spot.depth + 1;
    skim_inside(alloc, text, Spot { at, depth }, word)
}

/// A part behind its word.
fn skim_behind_word(
    alloc: Global,
    text: Text<'_>,
    spot: Spot,
    word: AssertionWord,
) -> Result<u32, Halt>
    requires at { spot.at ≤ length text.tokens.now.items }
    requires count { length text.tokens.now.items < 2 ^ 32 }
    ensures exact { Answers (λ n. (tt, n)) (specs.behind_word text.entry.bytes.now text.entry.tokens.now spot.depth word spot.at) result }
    ensures from { IfOk result (λ n. spot.at ≤ n) }
    ensures within { IfOk result (λ n. n ≤ length text.entry.tokens.now.items) }
{
    match word {
        AssertionWord::DataAt => skim_opened(alloc, text, spot, word),
        AssertionWord::DataAtDefault => skim_opened(alloc, text, spot, word),
        AssertionWord::FieldAt => skim_opened(alloc, text, spot, word),
        AssertionWord::Padding => skim_opened(alloc, text, spot, word),
        AssertionWord::Valid => skim_address(alloc, text, spot),
        _ => Ok(spot.at),
    }
}

/// A part that begins with that word.
fn skim_worded(alloc: Global, text: Text<'_>, spot: Spot, word: AssertionWord) -> Result<u32, Halt>
    requires at { spot.at ≤ length text.tokens.now.items }
    requires count { length text.tokens.now.items < 2 ^ 32 }
    ensures exact { Answers (λ n. (tt, n)) (specs.worded text.entry.bytes.now text.entry.tokens.now spot.depth word spot.at) result }
    ensures from { IfOk result (λ n. spot.at ≤ n) }
    ensures within { IfOk result (λ n. n ≤ length text.entry.tokens.now.items) }
{
    let depth = spot.depth;
    let (_place, at) = take_word(text, spot, word)?;
    skim_behind_word(alloc, text, Spot { at, depth }, word)
}

/// The number of the token behind a part. Else the refusal of the grammar, with 302 or 501.
pub fn skim_part(alloc: Global, text: Text<'_>, spot: Spot) -> Result<u32, Halt>
    requires at { spot.at ≤ length text.tokens.now.items }
    requires count { length text.tokens.now.items < 2 ^ 32 }
    ensures exact { Answers (λ n. (tt, n)) (specs.part text.entry.bytes.now text.entry.tokens.now spot.depth spot.at) result }
    ensures from { IfOk result (λ n. spot.at ≤ n) }
    ensures within { IfOk result (λ n. n ≤ length text.entry.tokens.now.items) }
{
    match part_word(text, spot.at) {
        Some(word) => skim_worded(alloc, text, spot, word),
        None => skim_predicate(alloc, text, spot),
    }
}
