//! Assertions in the arguments of a command.
ghost use Rattle.std.specs.Prelude.{◌≡◌, ◌≤◌, ◌<◌, ◌^◌, IfOk, length};
ghost use Rattle.floyd_play_reading.specs.Assertions as specs;
ghost use Rattle.floyd_termread.specs.Brackets.{outermost};
ghost use Rattle.floyd_termread_phrases.specs.Reads.{Answers};

use crate::alone::assertion_alone;
use crate::making::{around, with_assertion, with_assertions};
use crate::words::{leads_text, take_text};
use floyd_assert_trees::Assertion;
use floyd_goal_trees::Args;
use floyd_lex::Punctuator;
use floyd_play_arguments::no_args;
use floyd_termread_marks::{leads_mark, take_mark};
use floyd_termread_phrases::{Spot, Text};
use floyd_termread_scope::Scope;
use floyd_text::Halt;
use std::alloc::Global;

/// An assertion in parentheses.
fn one_assertion_at(
    alloc: Global,
    scope: &Scope<'_>,
    text: Text<'_>,
    at: u32,
) -> Result<(Assertion, u32), Halt>
    requires at { at ≤ length text.tokens.now.items }
    requires count { length text.tokens.now.items < 2 ^ 32 }
    ensures exact { Answers (λ x. x) (specs.one_assertion text.entry.bytes.now text.entry.tokens.now (outermost scope.now) at) result }
    ensures within { IfOk result (λ x. x.1 ≤ length text.entry.tokens.now.items) }
{
    let (_open, first) = take_mark(text, Spot { at, depth: 0 }, Punctuator::OpenParen)?;
    let (assertion, second) = assertion_alone(alloc, scope, text, first)?;
    let (_close, behind) = take_mark(
        text,
        Spot {
            at: second,
            depth: 1,
        },
        Punctuator::CloseParen,
    )?;
    Ok((assertion, behind))
}

/// What stands between the parts of a loop.
fn between_at(
    alloc: Global,
    scope: &Scope<'_>,
    text: Text<'_>,
    at: u32,
) -> Result<(Option<Assertion>, u32), Halt>
    requires at { at ≤ length text.tokens.now.items }
    requires count { length text.tokens.now.items < 2 ^ 32 }
    ensures exact { Answers (λ x. x) (specs.between text.entry.bytes.now text.entry.tokens.now (outermost scope.now) at) result }
    ensures within { IfOk result (λ x. x.1 ≤ length text.entry.tokens.now.items) }
{
    let (_word, first) = take_text(text, at, b"continue".as_slice())?;
    let (assertion, behind) = one_assertion_at(alloc, scope, text, first)?;
    Ok((Some(assertion), behind))
}

/// The same, if it stands there.
fn maybe_between_at(
    alloc: Global,
    scope: &Scope<'_>,
    text: Text<'_>,
    at: u32,
) -> Result<(Option<Assertion>, u32), Halt>
    requires at { at ≤ length text.tokens.now.items }
    requires count { length text.tokens.now.items < 2 ^ 32 }
    ensures exact { Answers (λ x. x) (specs.maybe_between text.entry.bytes.now text.entry.tokens.now (outermost scope.now) at) result }
    ensures within { IfOk result (λ x. x.1 ≤ length text.entry.tokens.now.items) }
{
    if leads_text(text, at, b"continue".as_slice()) {
        return between_at(alloc, scope, text, at);
    }
    Ok((None, at))
}

/// The assertions of a loop.
pub(crate) fn loop_at(
    alloc: Global,
    scope: &Scope<'_>,
    text: Text<'_>,
    at: u32,
) -> Result<(Args, u32), Halt>
    requires at { at ≤ length text.tokens.now.items }
    requires count { length text.tokens.now.items < 2 ^ 32 }
    ensures exact { Answers (λ x. x) (specs.loop_assertions text.entry.bytes.now text.entry.tokens.now (outermost scope.now) at) result }
    ensures within { IfOk result (λ x. x.1 ≤ length text.entry.tokens.now.items) }
{
    let (invariant, first) = one_assertion_at(alloc, scope, text, at)?;
    let (between, second) = maybe_between_at(alloc, scope, text, first)?;
    let (_word, third) = take_text(text, second, b"break".as_slice())?;
    let (left, behind) = one_assertion_at(alloc, scope, text, third)?;
    let all = around(alloc, invariant, between, left)?;
    let args = with_assertions(alloc, all)?;
    Ok((args, behind))
}

/// One assertion.
pub(crate) fn assertion_args_at(
    alloc: Global,
    scope: &Scope<'_>,
    text: Text<'_>,
    at: u32,
) -> Result<(Args, u32), Halt>
    requires at { at ≤ length text.tokens.now.items }
    requires count { length text.tokens.now.items < 2 ^ 32 }
    ensures exact { Answers (λ x. x) (specs.enclosed_assertion text.entry.bytes.now text.entry.tokens.now (outermost scope.now) at) result }
    ensures within { IfOk result (λ x. x.1 ≤ length text.entry.tokens.now.items) }
{
    let (assertion, behind) = one_assertion_at(alloc, scope, text, at)?;
    let args = with_assertion(alloc, assertion)?;
    Ok((args, behind))
}

/// One assertion, if it stands there.
pub(crate) fn maybe_assertion_at(
    alloc: Global,
    scope: &Scope<'_>,
    text: Text<'_>,
    at: u32,
) -> Result<(Args, u32), Halt>
    requires at { at ≤ length text.tokens.now.items }
    requires count { length text.tokens.now.items < 2 ^ 32 }
    ensures exact { Answers (λ x. x) (specs.maybe_assertion text.entry.bytes.now text.entry.tokens.now (outermost scope.now) at) result }
    ensures within { IfOk result (λ x. x.1 ≤ length text.entry.tokens.now.items) }
{
    if leads_mark(text, at, Punctuator::OpenParen) {
        return assertion_args_at(alloc, scope, text, at);
    }
    Ok((no_args(alloc)?, at))
}
