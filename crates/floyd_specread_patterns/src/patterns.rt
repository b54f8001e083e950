//! Patterns.
ghost use Rattle.std.specs.Prelude.{◌≡◌, ◌≤◌, ◌<◌, ◌+◌, ◌^◌, IfOk, length};
ghost use Rattle.floyd_specread_patterns.specs.NameClauses as clauses;
ghost use Rattle.floyd_specread_patterns.specs.Patterns as specs;
ghost use Rattle.floyd_termread_phrases.specs.Reads.{Answers};

use crate::names::{Others, new_name_at};
use floyd_assert_trees::Pattern;
use floyd_lex::Punctuator;
use floyd_specread_words::{SpecWord, leads_spec_word, take_spec_word};
use floyd_termread_marks::take_mark;
use floyd_termread_phrases::{Spot, Text};
use floyd_text::{Halt, Name};
use std::alloc::Global;

/// `name "::" name`
fn cons_at(alloc: Global, text: Text<'_>, at: u32) -> Result<(Pattern, u32), Halt>
    requires at { at ≤ length text.tokens.now.items }
    requires count { length text.tokens.now.items < 2 ^ 32 }
    ensures exact { Answers (λ x. x) (specs.cons text.entry.bytes.now text.entry.tokens.now at) result }
    ensures from { IfOk result (λ x. at ≤ x.1) }
    ensures within { IfOk result (λ x. x.1 ≤ length text.entry.tokens.now.items) }
{
    let (item, first) = new_name_at(alloc, text, Spot { at, depth: 0 }, Others::Nothing)?;
    let (_mark, second) = take_mark(
        text,
        Spot {
            at: first,
            depth: 0,
        },
        Punctuator::ColonColon,
    )?;
    let (rest, behind) = new_name_at(
        alloc,
        text,
        Spot {
            at: second,
            depth: 0,
        },
        Others::One(&item),
    )?;
    Ok((Pattern::Cons(item, rest), behind))
}

/// `"Node" "(" name`
fn node_front_at(alloc: Global, text: Text<'_>, at: u32) -> Result<(Name, u32), Halt>
    requires at { at ≤ length text.tokens.now.items }
    requires count { length text.tokens.now.items < 2 ^ 32 }
    ensures exact { Answers (λ x. x) (specs.node_front text.entry.bytes.now text.entry.tokens.now at) result }
    ensures from { IfOk result (λ x. at ≤ x.1) }
    ensures within { IfOk result (λ x. x.1 ≤ length text.entry.tokens.now.items) }
{
    let (_word, first) = take_spec_word(text, Spot { at, depth: 0 }, SpecWord::Node)?;
    let (_open, second) = take_mark(
        text,
        Spot {
            at: first,
            depth: 0,
        },
        Punctuator::OpenParen,
    )?;
    let (left, behind) = new_name_at(
        alloc,
        text,
        Spot {
            at: second,
            depth: 1,
        },
        Others::Nothing,
    )?;
    Ok((left, behind))
}

/// `"," name`
fn next_name_at(
    alloc: Global,
    text: Text<'_>,
    at: u32,
    others: Others<'_, '_>,
) -> Result<(Name, u32), Halt>
    requires at { at ≤ length text.tokens.now.items }
    requires count { length text.tokens.now.items < 2 ^ 32 }
    ensures exact { Answers (λ x. x) (specs.next_name text.entry.bytes.now text.entry.tokens.now (clauses.names_of others.entry) at) result }
    ensures from { IfOk result (λ x. at ≤ x.1) }
    ensures within { IfOk result (λ x. x.1 ≤ length text.entry.tokens.now.items) }
{
    let (_comma, first) = take_mark(text, Spot { at, depth: 1 }, Punctuator::Comma)?;
    new_name_at(
        alloc,
        text,
        Spot {
            at: first,
            depth: 1,
        },
        others,
    )
}

/// `"Node" "(" name "," name "," name ")"`
fn node_at(alloc: Global, text: Text<'_>, at: u32) -> Result<(Pattern, u32), Halt>
    requires at { at ≤ length text.tokens.now.items }
    requires count { length text.tokens.now.items < 2 ^ 32 }
    ensures exact { Answers (λ x. x) (specs.node text.entry.bytes.now text.entry.tokens.now at) result }
    ensures from { IfOk result (λ x. at ≤ x.1) }
    ensures within { IfOk result (λ x. x.1 ≤ length text.entry.tokens.now.items) }
{
    let (left, first) = node_front_at(alloc, text, at)?;
    let (item, second) = next_name_at(alloc, text, first, Others::One(&left))?;
    let (right, third) = next_name_at(alloc, text, second, Others::Two(&left, &item))?;
    let (_close, behind) = take_mark(
        text,
        Spot {
            at: third,
            depth: 1,
        },
        Punctuator::CloseParen,
    )?;
    Ok((Pattern::Node(left, item, right), behind))
}

/// A pattern that is this word.
fn bare_at(
    text: Text<'_>,
    at: u32,
    word: SpecWord,
    pattern: Pattern,
) -> Result<(Pattern, u32), Halt>
    requires at { at ≤ length text.tokens.now.items }
    requires count { length text.tokens.now.items < 2 ^ 32 }
    ensures exact { Answers (λ x. x) (specs.bare text.entry.bytes.now text.entry.tokens.now word pattern at) result }
    ensures from { IfOk result (λ x. at ≤ x.1) }
    ensures within { IfOk result (λ x. x.1 ≤ length text.entry.tokens.now.items) }
{
    let (_word, behind) = take_spec_word(text, Spot { at, depth: 0 }, word)?;
    Ok((pattern, behind))
}

/// The pattern from the token of this number on, where no bracket is open before it, and the number of the token behind it.
/// Else the refusal: 302 and 501 where the tokens so far begin no pattern. A name that is a word, and one that the pattern
/// has before it, are refused at it.
pub fn pattern_at(alloc: Global, text: Text<'_>, at: u32) -> Result<(Pattern, u32), Halt>
    requires at { at ≤ length text.tokens.now.items }
    requires count { length text.tokens.now.items < 2 ^ 32 }
    ensures exact { Answers (λ x. x) (specs.pattern text.entry.bytes.now text.entry.tokens.now at) result }
    ensures from { IfOk result (λ x. at ≤ x.1) }
    ensures within { IfOk result (λ x. x.1 ≤ length text.entry.tokens.now.items) }
{
    if leads_spec_word(text, at, SpecWord::Nil) {
        return bare_at(text, at, SpecWord::Nil, Pattern::Nil);
    }
    if leads_spec_word(text, at, SpecWord::Leaf) {
        return bare_at(text, at, SpecWord::Leaf, Pattern::Leaf);
    }
    if leads_spec_word(text, at, SpecWord::Node) {
        return node_at(alloc, text, at);
    }
    cons_at(alloc, text, at)
}
