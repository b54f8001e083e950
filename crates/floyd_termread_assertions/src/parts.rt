//! Parts in lists.
ghost use Rattle.std.specs.Prelude.{◌≡◌, ◌≤◌, ◌<◌, ◌+◌, ◌^◌, [], IfOk, OnOk, length};
ghost use Rattle.floyd_lex.specs.declared.kinds.Punctuator.TheVariants as p;
ghost use Rattle.floyd_termread_assertions.specs.Assertions as specs;
ghost use Rattle.floyd_termread_marks.specs.Lists as lists;
ghost use Rattle.floyd_termread_parts.specs.Parts as parts;
ghost use Rattle.floyd_termread_phrases.specs.Reads.{Answers};
ghost use Rattle.floyd_termread_scope.specs.Scopes.{env};

use floyd_assert_trees::{Sep, SepList};
use floyd_lex::Punctuator;
use floyd_termread_marks::{AssertionWord, leads_mark, take_before, take_mark, take_word};
use floyd_termread_parts::part_at;
use floyd_termread_phrases::{Spot, Text};
use floyd_termread_scope::{Scope, Variables};
use floyd_text::Halt;
use sqlite_items::Items;
use std::alloc::Global;

/// A part with so many before it, and the mark before it.
fn next_part(
    alloc: Global,
    scope: &Scope<'_>,
    bound: &Variables,
    text: Text<'_>,
    spot: Spot,
    number: usize,
) -> Result<(Sep, u32), Halt>
    requires at { spot.at ≤ length text.tokens.now.items }
    requires count { length text.tokens.now.items < 2 ^ 32 }
    ensures exact { Answers (λ x. x) (specs.item_by text.entry.bytes.now text.entry.tokens.now spot.depth number (parts.part text.entry.bytes.now text.entry.tokens.now spot.depth (env scope.now bound.now)) spot.at) result }
    ensures from { IfOk result (λ x. spot.at + 1 ≤ x.1 + lists.first_only number) }
    ensures within { IfOk result (λ x. x.1 ≤ length text.entry.tokens.now.items) }
{
    let depth = spot.depth;
    let first = take_before(text, spot, Punctuator::Semicolon, number)?;
    part_at(alloc, scope, bound, text, Spot { at: first, depth })
}

/// The parts up to the end of their list.
fn more_parts(
    alloc: Global,
    scope: &Scope<'_>,
    bound: &Variables,
    text: Text<'_>,
    spot: Spot,
) -> Result<(SepList, u32), Halt>
    requires at { spot.at ≤ length text.tokens.now.items }
    requires count { length text.tokens.now.items < 2 ^ 32 }
    ensures exact { Answers (λ x. x) (lists.Listed text.entry.bytes.now text.entry.tokens.now spot.depth p.Semicolon (specs.part_behind text.entry.bytes.now text.entry.tokens.now spot.depth (env scope.now bound.now)) [] spot.at) result }
    ensures from { IfOk result (λ x. spot.at ≤ x.1) }
    ensures within { IfOk result (λ x. x.1 ≤ length text.entry.tokens.now.items) }
{
    let Spot { mut at, depth } = spot;
    let mut parts = Items::new(alloc);
    'each: while !leads_mark(text, at, Punctuator::CloseParen) {
        let number = parts.len();
        let (part, next) = next_part(alloc, scope, bound, text, Spot { at, depth }, number)?;
        parts.push(part)?;
        at = next;
    }
    Ok((parts, at + 1))
}

/// Parts in parentheses with `;` between them, from a spot on, and the number of the token behind them. Each is read or
/// refused as `part_at` does; the marks are refused with 302 and 501.
pub fn part_list_at(
    alloc: Global,
    scope: &Scope<'_>,
    bound: &Variables,
    text: Text<'_>,
    spot: Spot,
) -> Result<(SepList, u32), Halt>
    requires at { spot.at ≤ length text.tokens.now.items }
    requires count { length text.tokens.now.items < 2 ^ 32 }
    ensures exact { Answers (λ x. x) (specs.part_list text.entry.bytes.now text.entry.tokens.now spot.depth (env scope.now bound.now) spot.at) result }
    ensures from { IfOk result (λ x. spot.at ≤ x.1) }
    ensures within { IfOk result (λ x. x.1 ≤ length text.entry.tokens.now.items) }
{
    let (_open, first) = take_mark(text, spot, Punctuator::OpenParen)?;
    let depth = spot.depth + 1;
    more_parts(alloc, scope, bound, text, Spot { at: first, depth })
}

/// `"SEP"` and its parts, as `part_list_at` has them.
pub fn seps_at(
    alloc: Global,
    scope: &Scope<'_>,
    bound: &Variables,
    text: Text<'_>,
    spot: Spot,
) -> Result<(SepList, u32), Halt>
    requires at { spot.at ≤ length text.tokens.now.items }
    requires count { length text.tokens.now.items < 2 ^ 32 }
    ensures exact { Answers (λ x. x) (specs.seps text.entry.bytes.now text.entry.tokens.now spot.depth (env scope.now bound.now) spot.at) result }
    ensures from { IfOk result (λ x. spot.at ≤ x.1) }
    ensures within { IfOk result (λ x. x.1 ≤ length text.entry.tokens.now.items) }
{
    let depth = spot.depth;
    let (_word, first) = take_word(text, spot, AssertionWord::Sep)?;
    part_list_at(alloc, scope, bound, text, Spot { at: first, depth })
}
