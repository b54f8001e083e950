//! Terms in lists and in parentheses.
ghost use Rattle.std.specs.Prelude.{◌≡◌, ◌≤◌, ◌<◌, ◌+◌, ◌^◌, [], IfOk, length};
ghost use Rattle.floyd_lex.specs.declared.kinds.Punctuator.TheVariants as p;
ghost use Rattle.floyd_play_terms.specs.Expected.{expected as expected_lem};
ghost use Rattle.floyd_play_terms.specs.Terms as specs;
ghost use Rattle.floyd_termread_marks.specs.Lists as lists;
ghost use Rattle.floyd_termread_phrases.specs.Phrases as phrase;
ghost use Rattle.floyd_termread_phrases.specs.Reads.{Answers};
ghost use Rattle.floyd_termread_scope.specs.Scopes.{env};

use crate::expected::Expected;
use floyd_lex::Punctuator;
use floyd_termread_marks::{leads_mark, take_before, take_mark};
use floyd_termread_phrases::{Spot, Text, term_at};
use floyd_termread_scope::{Scope, Variables};
use floyd_text::Halt;
use floyd_tree::{Sort, Term, TermList};
use sqlite_items::Items;
use std::alloc::Global;

/// The term from a spot on, as `term_at` has it, where a sort may be expected.
pub fn term_with(
    alloc: Global,
    scope: &Scope<'_>,
    bound: &Variables,
    text: Text<'_>,
    spot: Spot,
    sort: Option<Sort>,
) -> Result<(Term, u32), Halt>
    requires at { spot.at ≤ length text.tokens.now.items }
    requires count { length text.tokens.now.items < 2 ^ 32 }
    ensures exact { Answers (λ x. x) (phrase.term text.entry.bytes.now text.entry.tokens.now spot.depth (env scope.now bound.now) sort spot.at) result }
    ensures from { IfOk result (λ x. spot.at ≤ x.1) }
    ensures within { IfOk result (λ x. x.1 ≤ length text.entry.tokens.now.items) }
{
    match &sort {
        Some(sort) => term_at(alloc, scope, bound, text, spot, Some(sort)),
        None => term_at(alloc, scope, bound, text, spot, None),
    }
}

/// A term behind others in parentheses.
fn term_behind(
    alloc: Global,
    scope: &Scope<'_>,
    bound: &Variables,
    text: Text<'_>,
    at: u32,
    expected: Expected<'_>,
    terms: &[Term],
) -> Result<(Term, u32), Halt>
    requires at { at ≤ length text.tokens.now.items }
    requires count { length text.tokens.now.items < 2 ^ 32 }
    ensures exact { Answers (λ x. x) (specs.term_behind text.entry.bytes.now text.entry.tokens.now (env scope.now bound.now) expected.entry terms.now at) result }
    ensures from { IfOk result (λ x. at ≤ x.1) }
    ensures within { IfOk result (λ x. x.1 ≤ length text.entry.tokens.now.items) }
{
    let sort = expected.behind(alloc, terms)?;
    term_with(alloc, scope, bound, text, Spot { at, depth: 1 }, sort)
}

/// The same with the mark before it.
fn next_term(
    alloc: Global,
    scope: &Scope<'_>,
    bound: &Variables,
    text: Text<'_>,
    at: u32,
    expected: Expected<'_>,
    terms: &[Term],
) -> Result<(Term, u32), Halt>
    requires at { at ≤ length text.tokens.now.items }
    requires count { length text.tokens.now.items < 2 ^ 32 }
    ensures exact { Answers (λ x. x) (lists.next_item text.entry.bytes.now text.entry.tokens.now 1 p.Semicolon (specs.term_behind text.entry.bytes.now text.entry.tokens.now (env scope.now bound.now) expected.entry) terms.now at) result }
    ensures from { IfOk result (λ x. at + 1 ≤ x.1 + lists.first_only (length terms.now)) }
    ensures within { IfOk result (λ x. x.1 ≤ length text.entry.tokens.now.items) }
{
    let first = take_before(
        text,
        Spot { at, depth: 1 },
        Punctuator::Semicolon,
        terms.len(),
    )?;
    term_behind(alloc, scope, bound, text, first, expected, terms)
}

/// The terms up to the end of their list.
fn more_terms(
    alloc: Global,
    scope: &Scope<'_>,
    bound: &Variables,
    text: Text<'_>,
    at: u32,
    expected: Expected<'_>,
) -> Result<(TermList, u32), Halt>
    requires at { at ≤ length text.tokens.now.items }
    requires count { length text.tokens.now.items < 2 ^ 32 }
    ensures exact { Answers (λ x. x) (lists.Listed text.entry.bytes.now text.entry.tokens.now 1 p.Semicolon (specs.term_behind text.entry.bytes.now text.entry.tokens.now (env scope.now bound.now) expected.entry) [] at) result }
    ensures within { IfOk result (λ x. x.1 ≤ length text.entry.tokens.now.items) }
{
    let mut next = at;
    let mut terms = Items::new(alloc);
    'each: while !leads_mark(text, next, Punctuator::CloseParen) {
        let (term, behind) = next_term(
            alloc,
            scope,
            bound,
            text,
            next,
            expected,
            terms.as_slice(),
        )?;
        terms.push(term)?;
        next = behind;
    }
    Ok((terms, next + 1))
}

/// Terms in parentheses with `;` between them, from the token of this number on, and the number of the token behind them.
/// Each is read or refused as `term_at` does, with the sort that is expected behind those before it; the marks are refused
/// with 302 and 501.
pub fn terms_at(
    alloc: Global,
    scope: &Scope<'_>,
    bound: &Variables,
    text: Text<'_>,
    at: u32,
    expected: Expected<'_>,
) -> Result<(TermList, u32), Halt>
    requires at { at ≤ length text.tokens.now.items }
    requires count { length text.tokens.now.items < 2 ^ 32 }
    ensures exact { Answers (λ x. x) (specs.terms text.entry.bytes.now text.entry.tokens.now (env scope.now bound.now) expected.entry at) result }
    ensures within { IfOk result (λ x. x.1 ≤ length text.entry.tokens.now.items) }
{
    let (_open, first) = take_mark(text, Spot { at, depth: 0 }, Punctuator::OpenParen)?;
    more_terms(alloc, scope, bound, text, first, expected)
}

/// One term in parentheses in the same way.
pub fn enclosed_at(
    alloc: Global,
    scope: &Scope<'_>,
    bound: &Variables,
    text: Text<'_>,
    at: u32,
    sort: Option<Sort>,
) -> Result<(Term, u32), Halt>
    requires at { at ≤ length text.tokens.now.items }
    requires count { length text.tokens.now.items < 2 ^ 32 }
    ensures exact { Answers (λ x. x) (specs.enclosed text.entry.bytes.now text.entry.tokens.now (env scope.now bound.now) sort at) result }
    ensures within { IfOk result (λ x. x.1 ≤ length text.entry.tokens.now.items) }
{
    let (_open, first) = take_mark(text, Spot { at, depth: 0 }, Punctuator::OpenParen)?;
    let (term, second) = term_with(
        alloc,
        scope,
        bound,
        text,
        Spot {
            at: first,
            depth: 1,
        },
        sort,
    )?;
    let (_close, behind) = take_mark(
        text,
        Spot {
            at: second,
            depth: 1,
        },
        Punctuator::CloseParen,
    )?;
    Ok((term, behind))
}
