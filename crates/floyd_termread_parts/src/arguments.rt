//! Arguments of parts behind their types.
ghost use Rattle.std.specs.Prelude.{◌≡◌, ◌≤◌, ◌<◌, ◌+◌, ◌^◌, IfOk, OnOk, length};
ghost use Rattle.std.specs.Option.{option_copied};
ghost use Rattle.floyd_termread_parts.specs.Parts as specs;
ghost use Rattle.floyd_termread_phrases.specs.Reads.{Answers};
ghost use Rattle.floyd_termread_scope.specs.Scopes.{env};

use crate::paths::{struct_path_at, value_path_at};
use floyd_lex::Punctuator;
use floyd_termread_marks::take_mark;
use floyd_termread_phrases::{Spot, Text, term_at};
use floyd_termread_scope::{Scope, Variables};
use floyd_text::Halt;
use floyd_tree::{AType, Path, Sort, Term};
use std::alloc::Global;

/// A term behind a comma, of that sort.
pub(crate) fn argument_at(
    alloc: Global,
    scope: &Scope<'_>,
    bound: &Variables,
    text: Text<'_>,
    spot: Spot,
    expected: &Sort,
) -> Result<(Term, u32), Halt>
    requires at { spot.at ≤ length text.tokens.now.items }
    requires count { length text.tokens.now.items < 2 ^ 32 }
    requires depth { spot.depth ≤ 201 }
    ensures exact { Answers (λ x. x) (specs.argument text.entry.bytes.now text.entry.tokens.now spot.depth (env scope.now bound.now) (Some expected.now) spot.at) result }
    ensures from { IfOk result (λ x. spot.at ≤ x.1) }
    ensures within { IfOk result (λ x. x.1 ≤ length text.entry.tokens.now.items) }
{
    let Spot { at, depth } = spot;
    let inner = depth + 1;
    let (_comma, first) = take_mark(text, Spot { at, depth: inner }, Punctuator::Comma)?;
    term_at(
        alloc,
        scope,
        bound,
        text,
        Spot {
            at: first,
            depth: inner,
        },
        Some(expected),
    )
}

/// The address behind a comma, which closes the part.
pub(crate) fn last_at(
    alloc: Global,
    scope: &Scope<'_>,
    bound: &Variables,
    text: Text<'_>,
    spot: Spot,
) -> Result<(Term, u32), Halt>
    requires at { spot.at ≤ length text.tokens.now.items }
    requires count { length text.tokens.now.items < 2 ^ 32 }
    requires depth { spot.depth ≤ 201 }
    ensures exact { Answers (λ x. x) (specs.last text.entry.bytes.now text.entry.tokens.now spot.depth (env scope.now bound.now) spot.at) result }
    ensures from { IfOk result (λ x. spot.at ≤ x.1) }
    ensures within { IfOk result (λ x. x.1 ≤ length text.entry.tokens.now.items) }
{
    let inner = spot.depth + 1;
    let (root, end) = argument_at(alloc, scope, bound, text, spot, &Sort::Val)?;
    let (_close, behind) = take_mark(
        text,
        Spot {
            at: end,
            depth: inner,
        },
        Punctuator::CloseParen,
    )?;
    Ok((root, behind))
}

/// A path in values of a type behind a comma, and the sort of the values there.
pub(crate) fn value_path_behind(
    alloc: Global,
    scope: &Scope<'_>,
    bound: &Variables,
    text: Text<'_>,
    spot: Spot,
    ty: &AType,
) -> Result<((Path, Sort), u32), Halt>
    requires at { spot.at ≤ length text.tokens.now.items }
    requires count { length text.tokens.now.items < 2 ^ 32 }
    requires depth { spot.depth ≤ 201 }
    ensures exact { Answers (λ x. x) (specs.value_path text.entry.bytes.now text.entry.tokens.now spot.depth (env scope.now bound.now) ty.now spot.at) result }
    ensures from { IfOk result (λ x. spot.at ≤ x.1) }
    ensures within { IfOk result (λ x. x.1 ≤ length text.entry.tokens.now.items) }
{
    let Spot { at, depth } = spot;
    let inner = depth + 1;
    let (_comma, first) = take_mark(text, Spot { at, depth: inner }, Punctuator::Comma)?;
    value_path_at(
        alloc,
        scope,
        bound,
        text,
        Spot {
            at: first,
            depth: inner,
        },
        ty,
    )
}

/// A path to a struct in values of a type, behind a comma.
pub(crate) fn struct_path_behind(
    alloc: Global,
    scope: &Scope<'_>,
    bound: &Variables,
    text: Text<'_>,
    spot: Spot,
    ty: &AType,
) -> Result<(Path, u32), Halt>
    requires at { spot.at ≤ length text.tokens.now.items }
    requires count { length text.tokens.now.items < 2 ^ 32 }
    requires depth { spot.depth ≤ 201 }
    ensures exact { Answers (λ x. x) (specs.struct_path text.entry.bytes.now text.entry.tokens.now spot.depth (env scope.now bound.now) ty.now spot.at) result }
    ensures from { IfOk result (λ x. spot.at ≤ x.1) }
    ensures within { IfOk result (λ x. x.1 ≤ length text.entry.tokens.now.items) }
{
    let Spot { at, depth } = spot;
    let inner = depth + 1;
    let (_comma, first) = take_mark(text, Spot { at, depth: inner }, Punctuator::Comma)?;
    struct_path_at(
        alloc,
        scope,
        bound,
        text,
        Spot {
            at: first,
            depth: inner,
        },
        ty,
    )
}
