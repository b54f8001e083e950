//! Bodies of FUNs.
ghost use Rattle.std.specs.Prelude.{◌≡◌, ◌≤◌, ◌<◌, ◌+◌, ◌^◌, IfOk, length};
ghost use Rattle.floyd_specread_items.specs.Functions as specs;
ghost use Rattle.floyd_termread.specs.Brackets.{outermost};
ghost use Rattle.floyd_termread_phrases.specs.Reads.{Answers};

use crate::heads::FunHead;
use crate::variables::{argument_variables, case_variables};
use floyd_assert_trees::{FunBody, FunCase, FunCaseList, Pattern};
use floyd_cparse_trees::Identifier;
use floyd_lex::Punctuator;
use floyd_predicates::parts_of;
use floyd_specread_patterns::{leads_pattern, pattern_at};
use floyd_specread_recursion::structural;
use floyd_termread_marks::{leads_mark, take_mark};
use floyd_termread_phrases::{Spot, Text, term_at};
use floyd_termread_scope::Scope;
use floyd_text::Halt;
use floyd_tree::Term;
use sqlite_items::Items;
use std::alloc::Global;

/// The name of a FUN, and what stands before its body.
#[derive(Clone, Copy)]
struct Item<'a> {
    own: &'a Identifier,
    head: &'a FunHead,
}

/// The term of a FUN without cases.
fn whole_result_at(
    alloc: Global,
    scope: &Scope<'_>,
    item: Item<'_>,
    text: Text<'_>,
    at: u32,
) -> Result<(Term, u32), Halt>
    requires at { at ≤ length text.tokens.now.items }
    requires count { length text.tokens.now.items < 2 ^ 32 }
    ensures exact { Answers (λ x. x) (specs.whole_result text.entry.bytes.now text.entry.tokens.now item.entry.own.now item.entry.head.now (outermost scope.now) at) result }
    ensures from { IfOk result (λ x. at ≤ x.1) }
    ensures within { IfOk result (λ x. x.1 ≤ length text.entry.tokens.now.items) }
{
    let bound = argument_variables(alloc, item.head.arguments.as_slice())?;
    let expected = &item.head.result;
    let read = term_at(
        alloc,
        scope,
        &bound,
        text,
        Spot { at, depth: 0 },
        Some(expected),
    );
    structural(text, item.own, &[], at, read)
}

/// The term of a case.
fn case_result_at(
    alloc: Global,
    scope: &Scope<'_>,
    item: Item<'_>,
    text: Text<'_>,
    at: u32,
    pattern: &Pattern,
) -> Result<(Term, u32), Halt>
    requires at { at ≤ length text.tokens.now.items }
    requires count { length text.tokens.now.items < 2 ^ 32 }
    ensures exact { Answers (λ x. x) (specs.case_result text.entry.bytes.now text.entry.tokens.now item.entry.own.now item.entry.head.now (outermost scope.now) pattern.now at) result }
    ensures from { IfOk result (λ x. at ≤ x.1) }
    ensures within { IfOk result (λ x. x.1 ≤ length text.entry.tokens.now.items) }
{
    let bound = case_variables(alloc, item.head.arguments.as_slice(), pattern)?;
    let parts = parts_of(alloc, pattern)?;
    let expected = &item.head.result;
    let read = term_at(
        alloc,
        scope,
        &bound,
        text,
        Spot { at, depth: 0 },
        Some(expected),
    );
    structural(text, item.own, parts.as_slice(), at, read)
}

/// `pat "=>" term`
fn case_at(
    alloc: Global,
    scope: &Scope<'_>,
    item: Item<'_>,
    text: Text<'_>,
    at: u32,
) -> Result<(FunCase, u32), Halt>
    requires at { at ≤ length text.tokens.now.items }
    requires count { length text.tokens.now.items < 2 ^ 32 }
    ensures exact { Answers (λ x. x) (specs.fun_case text.entry.bytes.now text.entry.tokens.now item.entry.own.now item.entry.head.now (outermost scope.now) at) result }
    ensures from { IfOk result (λ x. at ≤ x.1) }
    ensures within { IfOk result (λ x. x.1 ≤ length text.entry.tokens.now.items) }
{
    let (pattern, first) = pattern_at(alloc, text, at)?;
    let (_arrow, second) = take_mark(
        text,
        Spot {
            at: first,
            depth: 0,
        },
        Punctuator::FatArrow,
    )?;
    let (term, behind) = case_result_at(alloc, scope, item, text, second, &pattern)?;
    Ok((FunCase { pattern, term }, behind))
}

/// The same with the mark before it.
fn next_case_at(
    alloc: Global,
    scope: &Scope<'_>,
    item: Item<'_>,
    text: Text<'_>,
    at: u32,
    cases: &[FunCase],
) -> Result<(FunCase, u32), Halt>
    requires at { at ≤ length text.tokens.now.items }
    requires count { length text.tokens.now.items < 2 ^ 32 }
    ensures exact { Answers (λ x. x) (specs.next_case text.entry.bytes.now text.entry.tokens.now item.entry.own.now item.entry.head.now (outermost scope.now) cases.now at) result }
    ensures from { IfOk result (λ x. at + 1 ≤ x.1) }
    ensures within { IfOk result (λ x. x.1 ≤ length text.entry.tokens.now.items) }
{
    let (_bar, first) = take_mark(text, Spot { at, depth: 0 }, Punctuator::Bar)?;
    case_at(alloc, scope, item, text, first)
}

/// The cases behind the first one, with it.
fn more_cases_at(
    alloc: Global,
    scope: &Scope<'_>,
    item: Item<'_>,
    text: Text<'_>,
    at: u32,
    first: FunCase,
) -> Result<(FunCaseList, u32), Halt>
    requires at { at ≤ length text.tokens.now.items }
    requires count { length text.tokens.now.items < 2 ^ 32 }
    ensures exact { Answers (λ x. x) (specs.more_cases text.entry.bytes.now text.entry.tokens.now item.entry.own.now item.entry.head.now (outermost scope.now) first at) result }
    ensures within { IfOk result (λ x. x.1 ≤ length text.entry.tokens.now.items) }
{
    let mut next = at;
    let mut cases = Items::new(alloc);
    cases.push(first)?;
    'each: while leads_mark(text, next, Punctuator::Bar) {
        let (case, behind) = next_case_at(alloc, scope, item, text, next, cases.as_slice())?;
        cases.push(case)?;
        next = behind;
    }
    Ok((cases, next))
}

/// The cases of a FUN.
fn cases_at(
    alloc: Global,
    scope: &Scope<'_>,
    item: Item<'_>,
    text: Text<'_>,
    at: u32,
) -> Result<(FunBody, u32), Halt>
    requires at { at ≤ length text.tokens.now.items }
    requires count { length text.tokens.now.items < 2 ^ 32 }
    ensures exact { Answers (λ x. x) (specs.fun_cases text.entry.bytes.now text.entry.tokens.now item.entry.own.now item.entry.head.now (outermost scope.now) at) result }
    ensures within { IfOk result (λ x. x.1 ≤ length text.entry.tokens.now.items) }
{
    let (first, second) = case_at(alloc, scope, item, text, at)?;
    let (cases, behind) = more_cases_at(alloc, scope, item, text, second, first)?;
    Ok((FunBody::Cases(cases), behind))
}

/// The body of a FUN without cases.
fn whole_at(
    alloc: Global,
    scope: &Scope<'_>,
    item: Item<'_>,
    text: Text<'_>,
    at: u32,
) -> Result<(FunBody, u32), Halt>
    requires at { at ≤ length text.tokens.now.items }
    requires count { length text.tokens.now.items < 2 ^ 32 }
    ensures exact { Answers (λ x. x) (specs.whole text.entry.bytes.now text.entry.tokens.now item.entry.own.now item.entry.head.now (outermost scope.now) at) result }
    ensures within { IfOk result (λ x. x.1 ≤ length text.entry.tokens.now.items) }
{
    let (term, behind) = whole_result_at(alloc, scope, item, text, at)?;
    Ok((FunBody::Whole(term), behind))
}

/// The body of the FUN of that name and head, from the token of this number on, where no bracket is open before it, and the
/// number of the token behind it. Else the first refusal: 302 and 501 where the tokens so far begin no body, 502 at a name
/// that stands for nothing, 503 at what does not fit its place, 511 at a call of the FUN itself that is not on a part of its
/// first argument, 802 at what is beyond the limits; at one place the first of these. A call is judged once it was read.
///
/// The scope has the FUN itself, of which its arguments and its result count. That its cases are one for each constructor
/// is not judged.
pub fn fun_body_at(
    alloc: Global,
    scope: &Scope<'_>,
    own: &Identifier,
    head: &FunHead,
    text: Text<'_>,
    at: u32,
) -> Result<(FunBody, u32), Halt>
    requires at { at ≤ length text.tokens.now.items }
    requires count { length text.tokens.now.items < 2 ^ 32 }
    ensures exact { Answers (λ x. x) (specs.fun_body text.entry.bytes.now text.entry.tokens.now own.now head.now (outermost scope.now) at) result }
    ensures within { IfOk result (λ x. x.1 ≤ length text.entry.tokens.now.items) }
{
    let item = Item { own, head };
    if leads_pattern(text, at) {
        return cases_at(alloc, scope, item, text, at);
    }
    whole_at(alloc, scope, item, text, at)
}
