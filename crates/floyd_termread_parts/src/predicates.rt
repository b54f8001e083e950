//! Predicates of their arguments.
ghost use Rattle.std.specs.Prelude.{◌≡◌, ◌≤◌, ◌<◌, ◌+◌, ◌^◌, [], IfOk, OnOk, length, option_map, slice_get, Some};
ghost use Rattle.std.specs.Option.{option_copied};
ghost use Rattle.floyd_lex.specs.declared.kinds.Punctuator.TheVariants as p;
ghost use Rattle.floyd_termread_marks.specs.Lists as lists;
ghost use Rattle.floyd_termread_parts.specs.Parts as specs;
ghost use Rattle.floyd_termread_phrases.specs.Reads.{Answers};
ghost use Rattle.floyd_termread_scope.specs.Scopes.{env};

use floyd_assert_trees::{Pred, Sep};
use floyd_lex::Punctuator;
use floyd_termread_marks::{first_place, leads_mark, take_before, take_free_name, take_mark};
use floyd_termread_phrases::{Spot, Text, term_at};
use floyd_termread_scope::{Scope, Variables};
use floyd_termread_wants::{ill_sorted, unknown};
use floyd_text::Halt;
use floyd_tree::{Sort, Term, TermList};
use sqlite_items::Items;
use std::alloc::Global;

/// An argument of a predicate by its number, from 0.
#[derive(Clone, Copy)]
struct Argument<'a> {
    pred: &'a Pred,
    number: usize,
}

/// The sort of an argument; none is expected beyond the last.
fn argument_sort(pred: &Pred, number: usize) -> Option<&Sort>
    ensures { option_copied result ≡ specs.argument_sort pred.now number }
{
    match pred.arguments.get(number) {
        Some(binder) => Some(&binder.sort),
        None => None,
    }
}

/// An argument with the comma before it.
fn next_argument(
    alloc: Global,
    scope: &Scope<'_>,
    bound: &Variables,
    text: Text<'_>,
    spot: Spot,
    argument: Argument<'_>,
) -> Result<(Term, u32), Halt>
    requires at { spot.at ≤ length text.tokens.now.items }
    requires count { length text.tokens.now.items < 2 ^ 32 }
    ensures exact { Answers (λ x. x) (specs.argument_by text.entry.bytes.now text.entry.tokens.now spot.depth (env scope.now bound.now) argument.entry.pred.now argument.entry.number spot.at) result }
    ensures from { IfOk result (λ x. spot.at + 1 ≤ x.1 + lists.first_only argument.entry.number) }
    ensures within { IfOk result (λ x. x.1 ≤ length text.entry.tokens.now.items) }
{
    let Argument { pred, number } = argument;
    let depth = spot.depth;
    let first = take_before(text, spot, Punctuator::Comma, number)?;
    let expected = argument_sort(pred, number);
    term_at(
        alloc,
        scope,
        bound,
        text,
        Spot { at: first, depth },
        expected,
    )
}

/// The arguments up to the end of their list.
fn more_arguments(
    alloc: Global,
    scope: &Scope<'_>,
    bound: &Variables,
    text: Text<'_>,
    spot: Spot,
    pred: &Pred,
) -> Result<(TermList, u32), Halt>
    requires at { spot.at ≤ length text.tokens.now.items }
    requires count { length text.tokens.now.items < 2 ^ 32 }
    ensures exact { Answers (λ x. x) (lists.Listed text.entry.bytes.now text.entry.tokens.now spot.depth p.Comma (specs.argument_behind text.entry.bytes.now text.entry.tokens.now spot.depth (env scope.now bound.now) pred.now) [] spot.at) result }
    ensures from { IfOk result (λ x. spot.at + 1 ≤ x.1) }
    ensures within { IfOk result (λ x. x.1 ≤ length text.entry.tokens.now.items) }
{
    let Spot { mut at, depth } = spot;
    let mut terms = Items::new(alloc);
    'each: while !leads_mark(text, at, Punctuator::CloseParen) {
        let argument = Argument {
            pred,
            number: terms.len(),
        };
        let (term, next) = next_argument(alloc, scope, bound, text, Spot { at, depth }, argument)?;
        terms.push(term)?;
        at = next;
    }
    Ok((terms, at + 1))
}

/// The arguments of a predicate, as many as it takes.
fn arguments_at(
    alloc: Global,
    scope: &Scope<'_>,
    bound: &Variables,
    text: Text<'_>,
    spot: Spot,
    pred: &Pred,
) -> Result<(TermList, u32), Halt>
    requires at { spot.at ≤ length text.tokens.now.items }
    requires count { length text.tokens.now.items < 2 ^ 32 }
    ensures exact { Answers (λ x. x) (specs.counted_arguments text.entry.bytes.now text.entry.tokens.now spot.depth (env scope.now bound.now) pred.now spot.at) result }
    ensures from { IfOk result (λ x. spot.at ≤ x.1) }
    ensures within { IfOk result (λ x. x.1 ≤ length text.entry.tokens.now.items) }
{
    let (_open, first) = take_mark(text, spot, Punctuator::OpenParen)?;
    let depth = spot.depth + 1;
    let (terms, behind) = more_arguments(
        alloc,
        scope,
        bound,
        text,
        Spot { at: first, depth },
        pred,
    )?;
    if terms.len() == pred.arguments.len() {
        return Ok((terms, behind));
    }
    Err(Halt::Refused(ill_sorted(first_place(text, behind - 1))))
}

/// A predicate of its arguments.
pub(crate) fn predicate_at(
    alloc: Global,
    scope: &Scope<'_>,
    bound: &Variables,
    text: Text<'_>,
    spot: Spot,
) -> Result<(Sep, u32), Halt>
    requires at { spot.at ≤ length text.tokens.now.items }
    requires count { length text.tokens.now.items < 2 ^ 32 }
    ensures exact { Answers (λ x. x) (specs.predicate text.entry.bytes.now text.entry.tokens.now spot.depth (env scope.now bound.now) spot.at) result }
    ensures from { IfOk result (λ x. spot.at ≤ x.1) }
    ensures within { IfOk result (λ x. x.1 ≤ length text.entry.tokens.now.items) }
{
    let depth = spot.depth;
    let (name, open) = take_free_name(alloc, text, spot)?;
    let Some(pred) = scope.pred(&name.name) else {
        return Err(Halt::Refused(unknown(&name)?));
    };
    let (terms, behind) = arguments_at(alloc, scope, bound, text, Spot { at: open, depth }, pred)?;
    let called = name.name.share()?;
    Ok((Sep::Predicate(called, terms), behind))
}
