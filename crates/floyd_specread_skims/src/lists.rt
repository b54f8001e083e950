//! Lists in parentheses.
ghost use Rattle.std.specs.Prelude.{◌≡◌, ◌≤◌, ◌<◌, ◌+◌, ◌^◌, [], IfOk, OnOk, length};
ghost use Rattle.floyd_specread_skims.specs.Skims as specs;
ghost use Rattle.floyd_termread_marks.specs.Lists as lists;
ghost use Rattle.floyd_termread_phrases.specs.Reads.{Answers};

use crate::parts::skim_part;
use crate::phrases::skim_phrase;
use floyd_lex::Punctuator;
use floyd_termread_marks::{given_name_at, leads_mark, take, take_before, take_mark};
use floyd_termread_phrases::{Spot, Text};
use floyd_termread_tables::Want;
use floyd_text::Halt;
use sqlite_items::Items;
use std::alloc::Global;

/// What an item of a list is.
#[derive(Clone, Copy)]
pub enum Skimmed {
    Term,
    Formula,
    /// A name of the source.
    Name,
    Part,
}

/// A name of the source, which may be a word.
fn skim_name(alloc: Global, text: Text<'_>, spot: Spot) -> Result<u32, Halt>
    requires at { spot.at ≤ length text.tokens.now.items }
    requires count { length text.tokens.now.items < 2 ^ 32 }
    ensures exact { Answers (λ n. (tt, n)) (specs.name text.entry.bytes.now text.entry.tokens.now spot.depth spot.at) result }
    ensures from { IfOk result (λ n. spot.at ≤ n) }
    ensures within { IfOk result (λ n. n ≤ length text.entry.tokens.now.items) }
{
    let found = given_name_at(alloc, text, spot.at)?;
    let (_name, behind) = take(text, spot, found)?;
    Ok(behind)
}

fn skim_item(alloc: Global, text: Text<'_>, spot: Spot, what: Skimmed) -> Result<u32, Halt>
    requires at { spot.at ≤ length text.tokens.now.items }
    requires count { length text.tokens.now.items < 2 ^ 32 }
    ensures exact { Answers (λ n. (tt, n)) (specs.item text.entry.bytes.now text.entry.tokens.now spot.depth what spot.at) result }
    ensures from { IfOk result (λ n. spot.at ≤ n) }
    ensures within { IfOk result (λ n. n ≤ length text.entry.tokens.now.items) }
{
    match what {
        Skimmed::Term => skim_phrase(alloc, text, spot, Want::Term),
        Skimmed::Formula => skim_phrase(alloc, text, spot, Want::Formula),
        Skimmed::Name => skim_name(alloc, text, spot),
        Skimmed::Part => skim_part(alloc, text, spot),
    }
}

/// An item with so many before it, and the mark before it.
fn skim_next(
    alloc: Global,
    text: Text<'_>,
    spot: Spot,
    between: Punctuator,
    what: Skimmed,
    before: usize,
) -> Result<u32, Halt>
    requires at { spot.at ≤ length text.tokens.now.items }
    requires count { length text.tokens.now.items < 2 ^ 32 }
    ensures exact { Answers (λ n. (tt, n)) (specs.item_by text.entry.bytes.now text.entry.tokens.now spot.depth between what before spot.at) result }
    ensures from { IfOk result (λ n. spot.at + 1 ≤ n + lists.first_only before) }
    ensures within { IfOk result (λ n. n ≤ length text.entry.tokens.now.items) }
{
    let depth = spot.depth;
    let first = take_before(text, spot, between, before)?;
    skim_item(alloc, text, Spot { at: first, depth }, what)
}

/// The items up to the end of their list.
fn skim_more(
    alloc: Global,
    text: Text<'_>,
    spot: Spot,
    between: Punctuator,
    what: Skimmed,
) -> Result<(Items<()>, u32), Halt>
    requires at { spot.at ≤ length text.tokens.now.items }
    requires count { length text.tokens.now.items < 2 ^ 32 }
    ensures exact { Answers (λ x. x) (specs.more text.entry.bytes.now text.entry.tokens.now spot.depth between what spot.at) result }
    ensures from { IfOk result (λ x. spot.at ≤ x.1) }
    ensures within { IfOk result (λ x. x.1 ≤ length text.entry.tokens.now.items) }
{
    let Spot { mut at, depth } = spot;
    let mut found = Items::new(alloc);
    'each: while !leads_mark(text, at, Punctuator::CloseParen) {
        let before = found.len();
        let next = skim_next(alloc, text, Spot { at, depth }, between, what, before)?;
        found.push(())?;
        at = next;
    }
    Ok((found, at + 1))
}

/// The number of the token behind a list in parentheses, of such items with that mark between them. Else the refusal of the
/// grammar, with 302 or 501.
pub fn skim_list(
    alloc: Global,
    text: Text<'_>,
    spot: Spot,
    between: Punctuator,
    what: Skimmed,
) -> Result<u32, Halt>
    requires at { spot.at ≤ length text.tokens.now.items }
    requires count { length text.tokens.now.items < 2 ^ 32 }
    ensures exact { Answers (λ n. (tt, n)) (specs.list_of text.entry.bytes.now text.entry.tokens.now spot.depth between what spot.at) result }
    ensures from { IfOk result (λ n. spot.at ≤ n) }
    ensures within { IfOk result (λ n. n ≤ length text.entry.tokens.now.items) }
{
    let (_open, at) = take_mark(text, spot, Punctuator::OpenParen)?;
    let depth = spot.depth + 1;
    let (_found, behind) = skim_more(alloc, text, Spot { at, depth }, between, what)?;
    Ok(behind)
}
