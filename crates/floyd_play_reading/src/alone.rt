//! Phrases where no variable is bound but those of the context.
ghost use Rattle.std.specs.Prelude.{◌≡◌, ◌≤◌, ◌<◌, ◌^◌, IfOk, length};
ghost use Rattle.floyd_play_terms.specs.Terms as terms;
ghost use Rattle.floyd_termread.specs.Brackets.{outermost};
ghost use Rattle.floyd_termread_assertions.specs.Assertions as assertions;
ghost use Rattle.floyd_termread_phrases.specs.Phrases as phrase;
ghost use Rattle.floyd_termread_phrases.specs.Reads.{Answers};

use floyd_assert_trees::Assertion;
use floyd_play_terms::{Expected, enclosed_at, term_with, terms_at};
use floyd_termread_assertions::assertion_at;
use floyd_termread_phrases::{Spot, Text, formula_at};
use floyd_termread_scope::{Scope, Variables};
use floyd_text::Halt;
use floyd_tree::{Formula, Sort, Term, TermList};
use std::alloc::Global;

/// Terms in parentheses.
pub(crate) fn terms_alone(
    alloc: Global,
    scope: &Scope<'_>,
    text: Text<'_>,
    at: u32,
    expected: Expected<'_>,
) -> Result<(TermList, u32), Halt>
    requires at { at ≤ length text.tokens.now.items }
    requires count { length text.tokens.now.items < 2 ^ 32 }
    ensures exact { Answers (λ x. x) (terms.terms text.entry.bytes.now text.entry.tokens.now (outermost scope.now) expected.entry at) result }
    ensures within { IfOk result (λ x. x.1 ≤ length text.entry.tokens.now.items) }
{
    let bound = Variables::new(alloc);
    terms_at(alloc, scope, &bound, text, at, expected)
}

/// One term in parentheses.
pub(crate) fn enclosed_alone(
    alloc: Global,
    scope: &Scope<'_>,
    text: Text<'_>,
    at: u32,
    sort: Option<Sort>,
) -> Result<(Term, u32), Halt>
    requires at { at ≤ length text.tokens.now.items }
    requires count { length text.tokens.now.items < 2 ^ 32 }
    ensures exact { Answers (λ x. x) (terms.enclosed text.entry.bytes.now text.entry.tokens.now (outermost scope.now) sort at) result }
    ensures within { IfOk result (λ x. x.1 ≤ length text.entry.tokens.now.items) }
{
    let bound = Variables::new(alloc);
    enclosed_at(alloc, scope, &bound, text, at, sort)
}

/// A term outside of parentheses.
pub(crate) fn term_alone(
    alloc: Global,
    scope: &Scope<'_>,
    text: Text<'_>,
    at: u32,
    sort: Option<Sort>,
) -> Result<(Term, u32), Halt>
    requires at { at ≤ length text.tokens.now.items }
    requires count { length text.tokens.now.items < 2 ^ 32 }
    ensures exact { Answers (λ x. x) (phrase.term text.entry.bytes.now text.entry.tokens.now 0 (outermost scope.now) sort at) result }
    ensures within { IfOk result (λ x. x.1 ≤ length text.entry.tokens.now.items) }
{
    let bound = Variables::new(alloc);
    term_with(alloc, scope, &bound, text, Spot { at, depth: 0 }, sort)
}

/// A formula outside of parentheses.
pub(crate) fn formula_alone(
    alloc: Global,
    scope: &Scope<'_>,
    text: Text<'_>,
    at: u32,
) -> Result<(Formula, u32), Halt>
    requires at { at ≤ length text.tokens.now.items }
    requires count { length text.tokens.now.items < 2 ^ 32 }
    ensures exact { Answers (λ x. x) (phrase.formula text.entry.bytes.now text.entry.tokens.now 0 (outermost scope.now) at) result }
    ensures within { IfOk result (λ x. x.1 ≤ length text.entry.tokens.now.items) }
{
    let mut bound = Variables::new(alloc);
    formula_at(alloc, scope, &mut bound, text, Spot { at, depth: 0 })
}

/// An assertion in the parentheses of a command.
pub(crate) fn assertion_alone(
    alloc: Global,
    scope: &Scope<'_>,
    text: Text<'_>,
    at: u32,
) -> Result<(Assertion, u32), Halt>
    requires at { at ≤ length text.tokens.now.items }
    requires count { length text.tokens.now.items < 2 ^ 32 }
    ensures exact { Answers (λ x. x) (assertions.assertion text.entry.bytes.now text.entry.tokens.now 1 (outermost scope.now) at) result }
    ensures within { IfOk result (λ x. x.1 ≤ length text.entry.tokens.now.items) }
{
    let mut bound = Variables::new(alloc);
    assertion_at(alloc, scope, &mut bound, text, Spot { at, depth: 1 })
}
