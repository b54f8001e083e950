//! The values of PARAMS and RETURN.
ghost use Rattle.std.specs.Prelude.{◌≡◌, ◌≤◌, ◌<◌, ◌+◌, ◌^◌, [], IfOk, length};
ghost use Rattle.floyd_lex.specs.declared.kinds.Punctuator.TheVariants as p;
ghost use Rattle.floyd_specread_specs.specs.Specifications as specs;
ghost use Rattle.floyd_termread_marks.specs.Lists as lists;
ghost use Rattle.floyd_termread_phrases.specs.Reads.{Answers};
ghost use Rattle.floyd_termread_scope.specs.Scopes.{env};

use floyd_lex::Punctuator;
use floyd_specread_words::{SpecWord, take_spec_word};
use floyd_termread_marks::{first_place, leads_mark, take_before, take_mark};
use floyd_termread_phrases::{Spot, Text, term_at};
use floyd_termread_scope::{Scope, Variables};
use floyd_termread_wants::ill_sorted;
use floyd_text::Halt;
use floyd_tree::{AType, Sort, Term, TermList};
use floyd_tree_sorts::Shape;
use sqlite_items::Items;
use std::alloc::Global;

/// A value behind others, with the mark before it.
fn next_value(
    alloc: Global,
    scope: &Scope<'_>,
    bound: &Variables,
    text: Text<'_>,
    at: u32,
    values: &[Term],
) -> Result<(Term, u32), Halt>
    requires at { at ≤ length text.tokens.now.items }
    requires count { length text.tokens.now.items < 2 ^ 32 }
    ensures exact { Answers (λ x. x) (lists.next_item text.entry.bytes.now text.entry.tokens.now 1 p.Semicolon (specs.value_behind text.entry.bytes.now text.entry.tokens.now (env scope.now bound.now)) values.now at) result }
    ensures from { IfOk result (λ x. at + 1 ≤ x.1 + lists.first_only (length values.now)) }
    ensures within { IfOk result (λ x. x.1 ≤ length text.entry.tokens.now.items) }
{
    let first = take_before(
        text,
        Spot { at, depth: 1 },
        Punctuator::Semicolon,
        values.len(),
    )?;
    term_at(
        alloc,
        scope,
        bound,
        text,
        Spot {
            at: first,
            depth: 1,
        },
        Some(&Sort::Val),
    )
}

/// The values up to the end of their list.
fn more_values(
    alloc: Global,
    scope: &Scope<'_>,
    bound: &Variables,
    text: Text<'_>,
    at: u32,
) -> Result<(TermList, u32), Halt>
    requires at { at ≤ length text.tokens.now.items }
    requires count { length text.tokens.now.items < 2 ^ 32 }
    ensures exact { Answers (λ x. x) (lists.Listed text.entry.bytes.now text.entry.tokens.now 1 p.Semicolon (specs.value_behind text.entry.bytes.now text.entry.tokens.now (env scope.now bound.now)) [] at) result }
    ensures from { IfOk result (λ x. at + 1 ≤ x.1) }
    ensures within { IfOk result (λ x. x.1 ≤ length text.entry.tokens.now.items) }
{
    let mut next = at;
    let mut values = Items::new(alloc);
    'each: while !leads_mark(text, next, Punctuator::CloseParen) {
        let (value, behind) = next_value(alloc, scope, bound, text, next, values.as_slice())?;
        values.push(value)?;
        next = behind;
    }
    Ok((values, next + 1))
}

/// So many values in parentheses.
fn counted_values_at(
    alloc: Global,
    scope: &Scope<'_>,
    bound: &Variables,
    text: Text<'_>,
    at: u32,
    count: usize,
) -> Result<(TermList, u32), Halt>
    requires at { at ≤ length text.tokens.now.items }
    requires count { length text.tokens.now.items < 2 ^ 32 }
    ensures exact { Answers (λ x. x) (specs.counted_values text.entry.bytes.now text.entry.tokens.now (env scope.now bound.now) count at) result }
    ensures within { IfOk result (λ x. x.1 ≤ length text.entry.tokens.now.items) }
{
    let (_open, first) = take_mark(text, Spot { at, depth: 0 }, Punctuator::OpenParen)?;
    let (values, behind) = more_values(alloc, scope, bound, text, first)?;
    let number = values.len();
    if number == count {
        return Ok((values, behind));
    }
    Err(Halt::Refused(ill_sorted(first_place(text, behind - 1))))
}

/// `"PARAMS" ts` for so many types.
pub(crate) fn params_at(
    alloc: Global,
    scope: &Scope<'_>,
    bound: &Variables,
    text: Text<'_>,
    at: u32,
    count: usize,
) -> Result<(TermList, u32), Halt>
    requires at { at ≤ length text.tokens.now.items }
    requires count { length text.tokens.now.items < 2 ^ 32 }
    ensures exact { Answers (λ x. x) (specs.params text.entry.bytes.now text.entry.tokens.now (env scope.now bound.now) count at) result }
    ensures within { IfOk result (λ x. x.1 ≤ length text.entry.tokens.now.items) }
{
    let (_word, first) = take_spec_word(text, Spot { at, depth: 0 }, SpecWord::Params)?;
    counted_values_at(alloc, scope, bound, text, first, count)
}

/// How many values a function gives back.
fn results_of(shape: &Shape) -> usize
    ensures { result ≡ specs.results_of shape.now }
{
    match shape {
        Shape::Void => 0,
        Shape::Int(_) => 1,
        Shape::Pointer(_) => 1,
        Shape::Array(_) => 1,
        Shape::Struct(_) => 1,
        Shape::Function(_, _) => 1,
    }
}

/// `"RETURN" ts` for a result of that type.
pub(crate) fn returned_at(
    alloc: Global,
    scope: &Scope<'_>,
    bound: &Variables,
    text: Text<'_>,
    at: u32,
    ty: &AType,
) -> Result<(TermList, u32), Halt>
    requires at { at ≤ length text.tokens.now.items }
    requires count { length text.tokens.now.items < 2 ^ 32 }
    ensures exact { Answers (λ x. x) (specs.returned text.entry.bytes.now text.entry.tokens.now (env scope.now bound.now) ty.now at) result }
    ensures within { IfOk result (λ x. x.1 ≤ length text.entry.tokens.now.items) }
{
    let (_word, first) = take_spec_word(text, Spot { at, depth: 0 }, SpecWord::Return)?;
    let count = results_of(ty.shape().get());
    counted_values_at(alloc, scope, bound, text, first, count)
}
