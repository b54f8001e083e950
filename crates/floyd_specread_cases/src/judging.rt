//! Whether cases differ from one for each constructor.
ghost use Rattle.std.specs.Prelude.{◌≡◌, ◌≤◌, ◌<◌, ◌+◌, ◌^◌, IfOk, length};
ghost use Rattle.floyd_predicates.specs.WellFormed.{of_first as of_first_lem};
ghost use Rattle.floyd_specread_cases.specs.Cases as specs;
ghost use Rattle.floyd_specread_cases.specs.ToldClauses.{IsTold};
ghost use Rattle.floyd_termread_phrases.specs.Reads.{Answers};

use crate::forms::{CaseForm, cases_form_at, whole_form_at};
use floyd_assert_trees::{Binder, Pattern};
use floyd_lex::Punctuator;
use floyd_predicates::are_of;
use floyd_specread_items::{fun_head_at, pred_head_at};
use floyd_specread_patterns::leads_pattern;
use floyd_termread_marks::take_mark;
use floyd_termread_phrases::{Spot, Text};
use floyd_text::Halt;
use std::alloc::{AllocError, Global};

/// Whether patterns are one for each constructor of the first argument.
fn of_first(arguments: &[Binder], patterns: &[Pattern]) -> Result<bool, AllocError>
    ensures { IfOk result (λ r. r ≡ of_first_lem arguments.now patterns.now) }
{
    match arguments {
        [] => Ok(false),
        [first, ..] => match patterns {
            [a, b] => are_of(&first.sort, a, b),
            _ => Ok(false),
        },
    }
}

/// Whether cases differ.
fn cases_differ_at(
    alloc: Global,
    text: Text<'_>,
    at: u32,
    arguments: &[Binder],
    form: CaseForm,
) -> Result<(bool, u32), Halt>
    requires at { at ≤ length text.tokens.now.items }
    requires count { length text.tokens.now.items < 2 ^ 32 }
    ensures exact { Answers (λ x. x) (specs.cases_differ text.entry.bytes.now text.entry.tokens.now arguments.now form at) result }
    ensures within { IfOk result (λ x. x.1 ≤ length text.entry.tokens.now.items) }
{
    let (patterns, behind) = cases_form_at(alloc, text, at, form)?;
    let fit = of_first(arguments, patterns.as_slice())?;
    Ok((!fit, behind))
}

/// Whether a body has cases that differ.
fn body_differs_at(
    alloc: Global,
    text: Text<'_>,
    at: u32,
    arguments: &[Binder],
    form: CaseForm,
) -> Result<(bool, u32), Halt>
    requires at { at ≤ length text.tokens.now.items }
    requires count { length text.tokens.now.items < 2 ^ 32 }
    ensures exact { Answers (λ x. x) (specs.body_differs text.entry.bytes.now text.entry.tokens.now arguments.now form at) result }
    ensures within { IfOk result (λ x. x.1 ≤ length text.entry.tokens.now.items) }
{
    if leads_pattern(text, at) {
        return cases_differ_at(alloc, text, at, arguments, form);
    }
    whole_form_at(alloc, text, at, form)
}

/// The same of a body with the end of its item.
fn item_differs_at(
    alloc: Global,
    text: Text<'_>,
    at: u32,
    arguments: &[Binder],
    form: CaseForm,
) -> Result<(bool, u32), Halt>
    requires at { at ≤ length text.tokens.now.items }
    requires count { length text.tokens.now.items < 2 ^ 32 }
    ensures exact { Answers (λ x. x) (specs.item_differs text.entry.bytes.now text.entry.tokens.now arguments.now form at) result }
    ensures within { IfOk result (λ x. x.1 ≤ length text.entry.tokens.now.items) }
{
    let (differ, end) = body_differs_at(alloc, text, at, arguments, form)?;
    let (_end, behind) = take_mark(text, Spot { at: end, depth: 0 }, Punctuator::Semicolon)?;
    Ok((differ, behind))
}

fn fun_form_at(alloc: Global, text: Text<'_>, at: u32) -> Result<(bool, u32), Halt>
    requires at { at ≤ length text.tokens.now.items }
    requires count { length text.tokens.now.items < 2 ^ 32 }
    ensures exact { Answers (λ x. x) (specs.fun_form text.entry.bytes.now text.entry.tokens.now at) result }
{
    let (head, first) = fun_head_at(alloc, text, at)?;
    item_differs_at(
        alloc,
        text,
        first,
        head.arguments.as_slice(),
        CaseForm::OfTerms,
    )
}

fn pred_form_at(alloc: Global, text: Text<'_>, at: u32) -> Result<(bool, u32), Halt>
    requires at { at ≤ length text.tokens.now.items }
    requires count { length text.tokens.now.items < 2 ^ 32 }
    ensures exact { Answers (λ x. x) (specs.pred_form text.entry.bytes.now text.entry.tokens.now at) result }
{
    let (arguments, first) = pred_head_at(alloc, text, at)?;
    item_differs_at(
        alloc,
        text,
        first,
        arguments.as_slice(),
        CaseForm::OfAssertions,
    )
}

/// What a reading tells; nothing where there is none.
fn told(read: &Result<(bool, u32), Halt>) -> Result<bool, AllocError>
    ensures { IfOk result (IsTold read.now) }
{
    match read {
        Ok((differ, _)) => Ok(*differ),
        Err(Halt::Refused(_)) => Ok(false),
        Err(Halt::Memory) => Err(AllocError),
    }
}

/// Whether the FUN behind whose name this token stands reads by the grammar alone, up to its `;`, and has cases that are not
/// one for each constructor of its first argument.
pub fn fun_cases_differ_at(alloc: Global, text: Text<'_>, at: u32) -> Result<bool, AllocError>
    requires at { at ≤ length text.tokens.now.items }
    requires count { length text.tokens.now.items < 2 ^ 32 }
    ensures { IfOk result (λ differ. specs.FunCasesDiffer text.entry.bytes.now text.entry.tokens.now at differ) }
{
    let read = fun_form_at(alloc, text, at);
    told(&read)
}

/// The same of a PRED.
pub fn pred_cases_differ_at(alloc: Global, text: Text<'_>, at: u32) -> Result<bool, AllocError>
    requires at { at ≤ length text.tokens.now.items }
    requires count { length text.tokens.now.items < 2 ^ 32 }
    ensures { IfOk result (λ differ. specs.PredCasesDiffer text.entry.bytes.now text.entry.tokens.now at differ) }
{
    let read = pred_form_at(alloc, text, at);
    told(&read)
}
