//! Bodies and cases by the grammar alone.
ghost use Rattle.std.specs.Prelude.{◌≡◌, ◌≤◌, ◌<◌, ◌+◌, ◌^◌, IfOk, length};
ghost use Rattle.floyd_specread_cases.specs.Cases as specs;
ghost use Rattle.floyd_termread_phrases.specs.Reads.{Answers};

use floyd_assert_trees::Pattern;
use floyd_lex::Punctuator;
use floyd_specread_patterns::pattern_at;
use floyd_specread_skims::{Skimmed, skim_list, skim_phrase};
use floyd_termread_assertions::existentials_at;
use floyd_termread_marks::{AssertionWord, leads_mark, take_mark, take_word};
use floyd_termread_phrases::{Spot, Text};
use floyd_termread_tables::Want;
use floyd_text::Halt;
use sqlite_items::Items;
use std::alloc::Global;

/// What the cases of an item are.
#[derive(Clone, Copy)]
pub(crate) enum CaseForm {
    /// Those of a FUN.
    OfTerms,
    /// Those of a PRED.
    OfAssertions,
}

/// The number of the token behind a word and the list behind that, in parentheses with `;` between its items. Else the
/// refusal of the grammar, with 302 or 501.
pub fn worded_list_at(
    alloc: Global,
    text: Text<'_>,
    at: u32,
    word: AssertionWord,
    what: Skimmed,
) -> Result<u32, Halt>
    requires at { at ≤ length text.tokens.now.items }
    requires count { length text.tokens.now.items < 2 ^ 32 }
    ensures exact { Answers (λ n. (tt, n)) (specs.worded_list text.entry.bytes.now text.entry.tokens.now word what at) result }
    ensures from { IfOk result (λ n. at ≤ n) }
    ensures within { IfOk result (λ n. n ≤ length text.entry.tokens.now.items) }
{
    let (_word, first) = take_word(text, Spot { at, depth: 0 }, word)?;
    skim_list(
        alloc,
        text,
        Spot {
            at: first,
            depth: 0,
        },
        Punctuator::Semicolon,
        what,
    )
}

/// `["EX" binders "."] "PROP" fs "SEP" parts`
fn assertion_form_at(alloc: Global, text: Text<'_>, at: u32) -> Result<u32, Halt>
    requires at { at ≤ length text.tokens.now.items }
    requires count { length text.tokens.now.items < 2 ^ 32 }
    ensures exact { Answers (λ n. (tt, n)) (specs.assertion_form text.entry.bytes.now text.entry.tokens.now at) result }
    ensures from { IfOk result (λ n. at ≤ n) }
    ensures within { IfOk result (λ n. n ≤ length text.entry.tokens.now.items) }
{
    let (_existentials, first) = existentials_at(alloc, text, Spot { at, depth: 0 })?;
    let second = worded_list_at(alloc, text, first, AssertionWord::Prop, Skimmed::Formula)?;
    worded_list_at(alloc, text, second, AssertionWord::Sep, Skimmed::Part)
}

fn body_form_at(alloc: Global, text: Text<'_>, at: u32, form: CaseForm) -> Result<u32, Halt>
    requires at { at ≤ length text.tokens.now.items }
    requires count { length text.tokens.now.items < 2 ^ 32 }
    ensures exact { Answers (λ n. (tt, n)) (specs.body_form text.entry.bytes.now text.entry.tokens.now form at) result }
    ensures from { IfOk result (λ n. at ≤ n) }
    ensures within { IfOk result (λ n. n ≤ length text.entry.tokens.now.items) }
{
    match form {
        CaseForm::OfTerms => skim_phrase(alloc, text, Spot { at, depth: 0 }, Want::Term),
        CaseForm::OfAssertions => assertion_form_at(alloc, text, at),
    }
}

/// `pat "=>" body`
fn case_form_at(
    alloc: Global,
    text: Text<'_>,
    at: u32,
    form: CaseForm,
) -> Result<(Pattern, u32), Halt>
    requires at { at ≤ length text.tokens.now.items }
    requires count { length text.tokens.now.items < 2 ^ 32 }
    ensures exact { Answers (λ x. x) (specs.case_form text.entry.bytes.now text.entry.tokens.now form at) result }
    ensures from { IfOk result (λ x. at ≤ x.1) }
    ensures within { IfOk result (λ x. x.1 ≤ length text.entry.tokens.now.items) }
{
    let (pattern, first) = pattern_at(alloc, text, at)?;
    let (_arrow, second) = take_mark(
        text,
        Spot {
            at: first,
            depth: 0,
        },
        Punctuator::FatArrow,
    )?;
    let behind = body_form_at(alloc, text, second, form)?;
    Ok((pattern, behind))
}

/// The same with the mark before it.
fn next_form_at(
    alloc: Global,
    text: Text<'_>,
    at: u32,
    form: CaseForm,
    patterns: &[Pattern],
) -> Result<(Pattern, u32), Halt>
    requires at { at ≤ length text.tokens.now.items }
    requires count { length text.tokens.now.items < 2 ^ 32 }
    ensures exact { Answers (λ x. x) (specs.next_form text.entry.bytes.now text.entry.tokens.now form patterns.now at) result }
    ensures from { IfOk result (λ x. at + 1 ≤ x.1) }
    ensures within { IfOk result (λ x. x.1 ≤ length text.entry.tokens.now.items) }
{
    let (_bar, first) = take_mark(text, Spot { at, depth: 0 }, Punctuator::Bar)?;
    case_form_at(alloc, text, first, form)
}

/// The patterns of the cases behind the first one, with it.
fn more_forms_at(
    alloc: Global,
    text: Text<'_>,
    at: u32,
    form: CaseForm,
    first: Pattern,
) -> Result<(Items<Pattern>, u32), Halt>
    requires at { at ≤ length text.tokens.now.items }
    requires count { length text.tokens.now.items < 2 ^ 32 }
    ensures exact { Answers (λ x. x) (specs.more_forms text.entry.bytes.now text.entry.tokens.now form first at) result }
    ensures within { IfOk result (λ x. x.1 ≤ length text.entry.tokens.now.items) }
{
    let mut next = at;
    let mut patterns = Items::new(alloc);
    patterns.push(first)?;
    'each: while leads_mark(text, next, Punctuator::Bar) {
        let (pattern, behind) = next_form_at(alloc, text, next, form, patterns.as_slice())?;
        patterns.push(pattern)?;
        next = behind;
    }
    Ok((patterns, next))
}

/// The patterns of all cases.
pub(crate) fn cases_form_at(
    alloc: Global,
    text: Text<'_>,
    at: u32,
    form: CaseForm,
) -> Result<(Items<Pattern>, u32), Halt>
    requires at { at ≤ length text.tokens.now.items }
    requires count { length text.tokens.now.items < 2 ^ 32 }
    ensures exact { Answers (λ x. x) (specs.cases_form text.entry.bytes.now text.entry.tokens.now form at) result }
    ensures within { IfOk result (λ x. x.1 ≤ length text.entry.tokens.now.items) }
{
    let (first, second) = case_form_at(alloc, text, at, form)?;
    more_forms_at(alloc, text, second, form, first)
}

/// A body without cases.
pub(crate) fn whole_form_at(
    alloc: Global,
    text: Text<'_>,
    at: u32,
    form: CaseForm,
) -> Result<(bool, u32), Halt>
    requires at { at ≤ length text.tokens.now.items }
    requires count { length text.tokens.now.items < 2 ^ 32 }
    ensures exact { Answers (λ x. x) (specs.whole_form text.entry.bytes.now text.entry.tokens.now form at) result }
    ensures within { IfOk result (λ x. x.1 ≤ length text.entry.tokens.now.items) }
{
    let behind = body_form_at(alloc, text, at, form)?;
    Ok((false, behind))
}
