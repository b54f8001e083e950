//! BY, judged among the variables of the specification behind it.
ghost use Rattle.std.specs.Prelude.{◌≡◌, ◌≤◌, ◌<◌, ◌+◌, ◌^◌, [], IfOk, length};
ghost use Rattle.floyd_lex.specs.declared.kinds.Punctuator.TheVariants as p;
ghost use Rattle.floyd_specread_declarations.specs.Declarations as specs;
ghost use Rattle.floyd_termread.specs.Brackets.{outermost};
ghost use Rattle.floyd_termread_marks.specs.Lists as lists;
ghost use Rattle.floyd_termread_phrases.specs.Reads.{Answers};
ghost use Rattle.floyd_termread_scope.specs.Scopes.{env};

use crate::names::named_spec_at;
use floyd_assert_trees::{BinderList, share_binders};
use floyd_lex::Punctuator;
use floyd_specread_skims::{Skimmed, skim_list};
use floyd_specread_specs::with_at;
use floyd_specread_trees::{By, SpecItems};
use floyd_specread_words::{SpecWord, leads_spec_word, take_spec_word};
use floyd_termread_assertions::{bind_all, part_list_at};
use floyd_termread_marks::{leads_mark, take_before, take_mark};
use floyd_termread_phrases::{Spot, Text, term_at};
use floyd_termread_scope::{Scope, Variables};
use floyd_text::Halt;
use floyd_tree::{Term, TermList};
use sqlite_items::Items;
use std::alloc::Global;

/// BY by the grammar alone.
pub(crate) fn written_by_at(alloc: Global, text: Text<'_>, at: u32) -> Result<u32, Halt>
    requires at { at ≤ length text.tokens.now.items }
    requires count { length text.tokens.now.items < 2 ^ 32 }
    ensures exact { Answers (λ n. (tt, n)) (specs.written_by text.entry.bytes.now text.entry.tokens.now at) result }
    ensures within { IfOk result (λ n. n ≤ length text.entry.tokens.now.items) }
{
    let (_by, first) = take_spec_word(text, Spot { at, depth: 0 }, SpecWord::By)?;
    let second = skim_list(
        alloc,
        text,
        Spot {
            at: first,
            depth: 0,
        },
        Punctuator::Comma,
        Skimmed::Term,
    )?;
    let (_frame, third) = take_spec_word(
        text,
        Spot {
            at: second,
            depth: 0,
        },
        SpecWord::Frame,
    )?;
    skim_list(
        alloc,
        text,
        Spot {
            at: third,
            depth: 0,
        },
        Punctuator::Semicolon,
        Skimmed::Part,
    )
}

/// The variables of WITH of a SPEC.
fn with_named_at(
    alloc: Global,
    items: &SpecItems,
    text: Text<'_>,
    at: u32,
) -> Result<(BinderList, u32), Halt>
    requires at { at ≤ length text.tokens.now.items }
    requires count { length text.tokens.now.items < 2 ^ 32 }
    ensures exact { Answers (λ x. x) (specs.with_named text.entry.bytes.now text.entry.tokens.now items.now at) result }
{
    let (spec, behind) = named_spec_at(alloc, items, text, at)?;
    let with = share_binders(alloc, spec.get().with.as_slice())?;
    Ok((with, behind))
}

/// The variables of WITH of the specification that stands next.
fn with_behind_at(
    alloc: Global,
    items: &SpecItems,
    text: Text<'_>,
    at: u32,
) -> Result<(BinderList, u32), Halt>
    requires at { at ≤ length text.tokens.now.items }
    requires count { length text.tokens.now.items < 2 ^ 32 }
    ensures exact { Answers (λ x. x) (specs.with_behind text.entry.bytes.now text.entry.tokens.now items.now at) result }
{
    if leads_spec_word(text, at, SpecWord::Spec) {
        return with_named_at(alloc, items, text, at);
    }
    with_at(alloc, text, at)
}

/// The variables among which BY is judged.
fn by_variables_at(
    alloc: Global,
    items: &SpecItems,
    text: Text<'_>,
    at: u32,
) -> Result<(BinderList, u32), Halt>
    requires at { at ≤ length text.tokens.now.items }
    requires count { length text.tokens.now.items < 2 ^ 32 }
    ensures exact { Answers (λ x. x) (specs.by_variables text.entry.bytes.now text.entry.tokens.now items.now at) result }
{
    let first = written_by_at(alloc, text, at)?;
    with_behind_at(alloc, items, text, first)
}

/// A term behind others, with the comma before it.
fn next_term(
    alloc: Global,
    scope: &Scope<'_>,
    bound: &Variables,
    text: Text<'_>,
    at: u32,
    terms: &[Term],
) -> Result<(Term, u32), Halt>
    requires at { at ≤ length text.tokens.now.items }
    requires count { length text.tokens.now.items < 2 ^ 32 }
    ensures exact { Answers (λ x. x) (lists.next_item text.entry.bytes.now text.entry.tokens.now 1 p.Comma (specs.term_behind text.entry.bytes.now text.entry.tokens.now (env scope.now bound.now)) terms.now at) result }
    ensures from { IfOk result (λ x. at + 1 ≤ x.1 + lists.first_only (length terms.now)) }
    ensures within { IfOk result (λ x. x.1 ≤ length text.entry.tokens.now.items) }
{
    let first = take_before(text, Spot { at, depth: 1 }, Punctuator::Comma, terms.len())?;
    term_at(
        alloc,
        scope,
        bound,
        text,
        Spot {
            at: first,
            depth: 1,
        },
        None,
    )
}

/// The terms up to the end of their list.
fn more_terms(
    alloc: Global,
    scope: &Scope<'_>,
    bound: &Variables,
    text: Text<'_>,
    at: u32,
) -> Result<(TermList, u32), Halt>
    requires at { at ≤ length text.tokens.now.items }
    requires count { length text.tokens.now.items < 2 ^ 32 }
    ensures exact { Answers (λ x. x) (lists.Listed text.entry.bytes.now text.entry.tokens.now 1 p.Comma (specs.term_behind text.entry.bytes.now text.entry.tokens.now (env scope.now bound.now)) [] at) result }
    ensures within { IfOk result (λ x. x.1 ≤ length text.entry.tokens.now.items) }
{
    let mut next = at;
    let mut terms = Items::new(alloc);
    'each: while !leads_mark(text, next, Punctuator::CloseParen) {
        let (term, behind) = next_term(alloc, scope, bound, text, next, terms.as_slice())?;
        terms.push(term)?;
        next = behind;
    }
    Ok((terms, next + 1))
}

/// The terms in parentheses.
fn by_terms_at(
    alloc: Global,
    scope: &Scope<'_>,
    bound: &Variables,
    text: Text<'_>,
    at: u32,
) -> Result<(TermList, u32), Halt>
    requires at { at ≤ length text.tokens.now.items }
    requires count { length text.tokens.now.items < 2 ^ 32 }
    ensures exact { Answers (λ x. x) (specs.by_terms text.entry.bytes.now text.entry.tokens.now (env scope.now bound.now) at) result }
    ensures within { IfOk result (λ x. x.1 ≤ length text.entry.tokens.now.items) }
{
    let (_open, first) = take_mark(text, Spot { at, depth: 0 }, Punctuator::OpenParen)?;
    more_terms(alloc, scope, bound, text, first)
}

/// BY among variables.
fn judged_by_at(
    alloc: Global,
    scope: &Scope<'_>,
    bound: &Variables,
    text: Text<'_>,
    at: u32,
) -> Result<(By, u32), Halt>
    requires at { at ≤ length text.tokens.now.items }
    requires count { length text.tokens.now.items < 2 ^ 32 }
    ensures exact { Answers (λ x. x) (specs.judged_by text.entry.bytes.now text.entry.tokens.now (env scope.now bound.now) at) result }
    ensures within { IfOk result (λ x. x.1 ≤ length text.entry.tokens.now.items) }
{
    let (_by, first) = take_spec_word(text, Spot { at, depth: 0 }, SpecWord::By)?;
    let (terms, second) = by_terms_at(alloc, scope, bound, text, first)?;
    let (_frame, third) = take_spec_word(
        text,
        Spot {
            at: second,
            depth: 0,
        },
        SpecWord::Frame,
    )?;
    let (frame, behind) = part_list_at(
        alloc,
        scope,
        bound,
        text,
        Spot {
            at: third,
            depth: 0,
        },
    )?;
    Ok((By { terms, frame }, behind))
}

/// BY, whose terms and parts are judged among the variables of the specification behind it.
pub(crate) fn by_at(
    alloc: Global,
    scope: &Scope<'_>,
    items: &SpecItems,
    text: Text<'_>,
    at: u32,
) -> Result<(By, u32), Halt>
    requires at { at ≤ length text.tokens.now.items }
    requires count { length text.tokens.now.items < 2 ^ 32 }
    ensures exact { Answers (λ x. x) (specs.by text.entry.bytes.now text.entry.tokens.now (outermost scope.now) items.now at) result }
    ensures within { IfOk result (λ x. x.1 ≤ length text.entry.tokens.now.items) }
{
    let (variables, _behind) = by_variables_at(alloc, items, text, at)?;
    let mut bound = Variables::new(alloc);
    bind_all(variables.as_slice(), &mut bound)?;
    judged_by_at(alloc, scope, &bound, text, at)
}
