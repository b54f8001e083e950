//! Bodies of PREDs.
ghost use Rattle.std.specs.Prelude.{◌≡◌, ◌≤◌, ◌<◌, ◌+◌, ◌^◌, IfOk, length};
ghost use Rattle.floyd_specread_items.specs.Predicates as specs;
ghost use Rattle.floyd_termread.specs.Brackets.{outermost};
ghost use Rattle.floyd_termread_phrases.specs.Reads.{Answers};

use crate::bodies::{Calls, judged_body_at};
use crate::variables::{argument_variables, case_variables};
use floyd_assert_trees::{Assertion, Binder, Pattern, PredBody, PredCase, PredCaseList};
use floyd_cparse_trees::Identifier;
use floyd_lex::Punctuator;
use floyd_predicates::parts_of;
use floyd_specread_patterns::{leads_pattern, pattern_at};
use floyd_termread_marks::{leads_mark, take_mark};
use floyd_termread_phrases::{Spot, Text};
use floyd_termread_scope::Scope;
use floyd_text::Halt;
use sqlite_items::Items;
use std::alloc::Global;

/// The name of a PRED, and its arguments.
#[derive(Clone, Copy)]
struct Item<'a> {
    own: &'a Identifier,
    arguments: &'a [Binder],
}

/// The assertion of a PRED without cases.
fn whole_body_at(
    alloc: Global,
    scope: &Scope<'_>,
    item: Item<'_>,
    text: Text<'_>,
    at: u32,
) -> Result<(Assertion, u32), Halt>
    requires at { at ≤ length text.tokens.now.items }
    requires count { length text.tokens.now.items < 2 ^ 32 }
    ensures exact { Answers (λ x. x) (specs.whole_body text.entry.bytes.now text.entry.tokens.now item.entry.own.now item.entry.arguments.now (outermost scope.now) at) result }
    ensures within { IfOk result (λ x. x.1 ≤ length text.entry.tokens.now.items) }
{
    let mut bound = argument_variables(alloc, item.arguments)?;
    let calls = Calls {
        own: item.own,
        parts: &[],
    };
    judged_body_at(alloc, scope, &mut bound, calls, text, at)
}

/// The assertion of a case.
fn case_body_at(
    alloc: Global,
    scope: &Scope<'_>,
    item: Item<'_>,
    text: Text<'_>,
    at: u32,
    pattern: &Pattern,
) -> Result<(Assertion, u32), Halt>
    requires at { at ≤ length text.tokens.now.items }
    requires count { length text.tokens.now.items < 2 ^ 32 }
    ensures exact { Answers (λ x. x) (specs.case_body text.entry.bytes.now text.entry.tokens.now item.entry.own.now item.entry.arguments.now (outermost scope.now) pattern.now at) result }
    ensures from { IfOk result (λ x. at ≤ x.1) }
    ensures within { IfOk result (λ x. x.1 ≤ length text.entry.tokens.now.items) }
{
    let mut bound = case_variables(alloc, item.arguments, pattern)?;
    let parts = parts_of(alloc, pattern)?;
    let calls = Calls {
        own: item.own,
        parts: parts.as_slice(),
    };
    judged_body_at(alloc, scope, &mut bound, calls, text, at)
}

/// `pat "=>" assertion`
fn case_at(
    alloc: Global,
    scope: &Scope<'_>,
    item: Item<'_>,
    text: Text<'_>,
    at: u32,
) -> Result<(PredCase, u32), Halt>
    requires at { at ≤ length text.tokens.now.items }
    requires count { length text.tokens.now.items < 2 ^ 32 }
    ensures exact { Answers (λ x. x) (specs.pred_case text.entry.bytes.now text.entry.tokens.now item.entry.own.now item.entry.arguments.now (outermost scope.now) at) result }
    ensures from { IfOk result (λ x. at ≤ x.1) }
    ensures within { IfOk result (λ x. x.1 ≤ length text.entry.tokens.now.items) }
{
    let (pattern, first) = pattern_at(alloc, text, at)?;
    let (_arrow, second) = take_mark(
        text,
        Spot {
            at: first,
            depth: 0,
        },
        Punctuator::FatArrow,
    )?;
    let (body, behind) = case_body_at(alloc, scope, item, text, second, &pattern)?;
    Ok((PredCase { pattern, body }, behind))
}

/// The same with the mark before it.
fn next_case_at(
    alloc: Global,
    scope: &Scope<'_>,
    item: Item<'_>,
    text: Text<'_>,
    at: u32,
    cases: &[PredCase],
) -> Result<(PredCase, u32), Halt>
    requires at { at ≤ length text.tokens.now.items }
    requires count { length text.tokens.now.items < 2 ^ 32 }
    ensures exact { Answers (λ x. x) (specs.next_case text.entry.bytes.now text.entry.tokens.now item.entry.own.now item.entry.arguments.now (outermost scope.now) cases.now at) result }
    ensures from { IfOk result (λ x. at + 1 ≤ x.1) }
    ensures within { IfOk result (λ x. x.1 ≤ length text.entry.tokens.now.items) }
{
    let (_bar, first) = take_mark(text, Spot { at, depth: 0 }, Punctuator::Bar)?;
    case_at(alloc, scope, item, text, first)
}

/// The cases behind the first one, with it.
fn more_cases_at(
    alloc: Global,
    scope: &Scope<'_>,
    item: Item<'_>,
    text: Text<'_>,
    at: u32,
    first: PredCase,
) -> Result<(PredCaseList, u32), Halt>
    requires at { at ≤ length text.tokens.now.items }
    requires count { length text.tokens.now.items < 2 ^ 32 }
    ensures exact { Answers (λ x. x) (specs.more_cases text.entry.bytes.now text.entry.tokens.now item.entry.own.now item.entry.arguments.now (outermost scope.now) first at) result }
    ensures within { IfOk result (λ x. x.1 ≤ length text.entry.tokens.now.items) }
{
    let mut next = at;
    let mut cases = Items::new(alloc);
    cases.push(first)?;
    'each: while leads_mark(text, next, Punctuator::Bar) {
        let (case, behind) = next_case_at(alloc, scope, item, text, next, cases.as_slice())?;
        cases.push(case)?;
        next = behind;
    }
    Ok((cases, next))
}

/// The cases of a PRED.
fn cases_at(
    alloc: Global,
    scope: &Scope<'_>,
    item: Item<'_>,
    text: Text<'_>,
    at: u32,
) -> Result<(PredBody, u32), Halt>
    requires at { at ≤ length text.tokens.now.items }
    requires count { length text.tokens.now.items < 2 ^ 32 }
    ensures exact { Answers (λ x. x) (specs.pred_cases text.entry.bytes.now text.entry.tokens.now item.entry.own.now item.entry.arguments.now (outermost scope.now) at) result }
    ensures within { IfOk result (λ x. x.1 ≤ length text.entry.tokens.now.items) }
{
    let (first, second) = case_at(alloc, scope, item, text, at)?;
    let (cases, behind) = more_cases_at(alloc, scope, item, text, second, first)?;
    Ok((PredBody::Cases(cases), behind))
}

/// The body of a PRED without cases.
fn whole_at(
    alloc: Global,
    scope: &Scope<'_>,
    item: Item<'_>,
    text: Text<'_>,
    at: u32,
) -> Result<(PredBody, u32), Halt>
    requires at { at ≤ length text.tokens.now.items }
    requires count { length text.tokens.now.items < 2 ^ 32 }
    ensures exact { Answers (λ x. x) (specs.whole text.entry.bytes.now text.entry.tokens.now item.entry.own.now item.entry.arguments.now (outermost scope.now) at) result }
    ensures within { IfOk result (λ x. x.1 ≤ length text.entry.tokens.now.items) }
{
    let (body, behind) = whole_body_at(alloc, scope, item, text, at)?;
    Ok((PredBody::Whole(body), behind))
}

/// The body of the PRED of that name and those arguments, from the token of this number on, where no bracket is open before
/// it, and the number of the token behind it. Else the first refusal: 302 and 501 where the tokens so far begin no body, 502
/// at a name that stands for nothing, 503 at what does not fit its place, 511 at a call of the PRED itself that is not on a
/// part of its first argument, 802 at what is beyond the limits; at one place the first of these. A call is judged once it
/// was read. LOCAL is 501 at that word.
///
/// The scope has the PRED itself, of which its arguments count. That its cases are one for each constructor is not judged.
pub fn pred_body_at(
    alloc: Global,
    scope: &Scope<'_>,
    own: &Identifier,
    arguments: &[Binder],
    text: Text<'_>,
    at: u32,
) -> Result<(PredBody, u32), Halt>
    requires at { at ≤ length text.tokens.now.items }
    requires count { length text.tokens.now.items < 2 ^ 32 }
    ensures exact { Answers (λ x. x) (specs.pred_body text.entry.bytes.now text.entry.tokens.now own.now arguments.now (outermost scope.now) at) result }
    ensures within { IfOk result (λ x. x.1 ≤ length text.entry.tokens.now.items) }
{
    let item = Item { own, arguments };
    if leads_pattern(text, at) {
        return cases_at(alloc, scope, item, text, at);
    }
    whole_at(alloc, scope, item, text, at)
}
