//! Types in brackets.
ghost use Rattle.std.specs.Prelude.{◌≡◌, ◌≤◌, ◌<◌, ◌+◌, ◌^◌, [], IfOk, length};
ghost use Rattle.floyd_lex.specs.declared.kinds.Punctuator.TheVariants as p;
ghost use Rattle.floyd_specread_specs.specs.Specifications as specs;
ghost use Rattle.floyd_specread_words.specs.Many.{Many};
ghost use Rattle.floyd_specread_words.specs.Words.{is_other};
ghost use Rattle.floyd_termread_marks.specs.Lists.{first_only};
ghost use Rattle.floyd_termread_phrases.specs.Reads.{Answers};
ghost use Rattle.floyd_termread_scope.specs.Scopes.{env};

use floyd_assert_trees::TypeList;
use floyd_lex::Punctuator;
use floyd_specread_words::leads_other;
use floyd_termread_marks::{take_before, take_mark};
use floyd_termread_phrases::{Spot, Text, type_at};
use floyd_termread_scope::{Scope, Variables};
use floyd_text::Halt;
use floyd_tree::AType;
use sqlite_items::Items;
use std::alloc::Global;

/// A type behind others, with the comma before it.
fn next_type(
    alloc: Global,
    scope: &Scope<'_>,
    bound: &Variables,
    text: Text<'_>,
    at: u32,
    types: &[AType],
) -> Result<(AType, u32), Halt>
    requires at { at ≤ length text.tokens.now.items }
    requires count { length text.tokens.now.items < 2 ^ 32 }
    ensures exact { Answers (λ x. x) (specs.type_behind text.entry.bytes.now text.entry.tokens.now (env scope.now bound.now) types.now at) result }
    ensures from { IfOk result (λ x. at + 1 ≤ x.1 + first_only (length types.now)) }
    ensures within { IfOk result (λ x. x.1 ≤ length text.entry.tokens.now.items) }
{
    let first = take_before(text, Spot { at, depth: 1 }, Punctuator::Comma, types.len())?;
    type_at(
        alloc,
        scope,
        bound,
        text,
        Spot {
            at: first,
            depth: 1,
        },
    )
}

/// The types up to the closing bracket.
fn more_types(
    alloc: Global,
    scope: &Scope<'_>,
    bound: &Variables,
    text: Text<'_>,
    at: u32,
) -> Result<(TypeList, u32), Halt>
    requires at { at ≤ length text.tokens.now.items }
    requires count { length text.tokens.now.items < 2 ^ 32 }
    ensures exact { Answers (λ x. x) (specs.more_types text.entry.bytes.now text.entry.tokens.now (env scope.now bound.now) at) result }
    ensures within { IfOk result (λ x. x.1 ≤ length text.entry.tokens.now.items) }
{
    let mut next = at;
    let mut types = Items::new(alloc);
    'each: while leads_other(text, next, Punctuator::CloseBracket) {
        let (ty, behind) = next_type(alloc, scope, bound, text, next, types.as_slice())?;
        types.push(ty)?;
        next = behind;
    }
    Ok((types, next))
}

/// Types, `"[" [type {"," type}] "]"`, from the token of this number on, where no bracket is open before it, and the number
/// of the token behind them. Each is read or refused as `type_at` does; the marks are refused with 302 and 501.
pub fn types_at(
    alloc: Global,
    scope: &Scope<'_>,
    bound: &Variables,
    text: Text<'_>,
    at: u32,
) -> Result<(TypeList, u32), Halt>
    requires at { at ≤ length text.tokens.now.items }
    requires count { length text.tokens.now.items < 2 ^ 32 }
    ensures exact { Answers (λ x. x) (specs.types text.entry.bytes.now text.entry.tokens.now (env scope.now bound.now) at) result }
    ensures within { IfOk result (λ x. x.1 ≤ length text.entry.tokens.now.items) }
{
    let (_open, first) = take_mark(text, Spot { at, depth: 0 }, Punctuator::OpenBracket)?;
    let (types, end) = more_types(alloc, scope, bound, text, first)?;
    let (_close, behind) = take_mark(text, Spot { at: end, depth: 1 }, Punctuator::CloseBracket)?;
    Ok((types, behind))
}

/// One type, `"[" type "]"`, in the same way.
pub fn result_type_at(
    alloc: Global,
    scope: &Scope<'_>,
    bound: &Variables,
    text: Text<'_>,
    at: u32,
) -> Result<(AType, u32), Halt>
    requires at { at ≤ length text.tokens.now.items }
    requires count { length text.tokens.now.items < 2 ^ 32 }
    ensures exact { Answers (λ x. x) (specs.result_type text.entry.bytes.now text.entry.tokens.now (env scope.now bound.now) at) result }
    ensures within { IfOk result (λ x. x.1 ≤ length text.entry.tokens.now.items) }
{
    let (_open, first) = take_mark(text, Spot { at, depth: 0 }, Punctuator::OpenBracket)?;
    let (ty, end) = type_at(
        alloc,
        scope,
        bound,
        text,
        Spot {
            at: first,
            depth: 1,
        },
    )?;
    let (_close, behind) = take_mark(text, Spot { at: end, depth: 1 }, Punctuator::CloseBracket)?;
    Ok((ty, behind))
}
