//! Assertions.
ghost use Rattle.std.specs.Prelude.{◌≡◌, ◌≤◌, ◌<◌, ◌^◌, IfOk, length};
ghost use Rattle.floyd_termread_assertions.specs.Assertions as specs;
ghost use Rattle.floyd_termread_phrases.specs.Reads.{Answers};
ghost use Rattle.floyd_termread_scope.specs.Scopes.{env};

use crate::existentials::{bind_all, existentials_at};
use crate::formulas::props_at;
use crate::locals::locals_at;
use crate::parts::seps_at;
use floyd_assert_trees::{Assertion, BinderList};
use floyd_termread_phrases::{Spot, Text};
use floyd_termread_scope::{Scope, Variables};
use floyd_text::Halt;
use std::alloc::Global;

/// An assertion behind its existentials, which are bound. Nothing is said of the variables that are bound behind it.
pub fn body_at(
    alloc: Global,
    scope: &Scope<'_>,
    bound: &mut Variables,
    text: Text<'_>,
    spot: Spot,
    existentials: BinderList,
) -> Result<(Assertion, u32), Halt>
    requires at { spot.at ≤ length text.tokens.now.items }
    requires count { length text.tokens.now.items < 2 ^ 32 }
    ensures exact { Answers (λ x. x) (specs.body text.entry.bytes.now text.entry.tokens.now spot.depth existentials (env scope.now bound.old) spot.at) result }
    ensures from { IfOk result (λ x. spot.at ≤ x.1) }
    ensures within { IfOk result (λ x. x.1 ≤ length text.entry.tokens.now.items) }
{
    let depth = spot.depth;
    let (props, first) = props_at(alloc, scope, bound, text, spot)?;
    let (locals, second) = locals_at(alloc, scope, bound, text, Spot { at: first, depth })?;
    let (parts, behind) = seps_at(alloc, scope, bound, text, Spot { at: second, depth })?;
    let assertion = Assertion {
        existentials,
        props,
        locals,
        parts,
    };
    Ok((assertion, behind))
}

/// The assertion from a spot on, and the number of the token behind it. Else the first refusal: 302 and 501 where the
/// tokens so far begin no assertion, 502 at a name that stands for nothing, 503 at what does not fit its place, 802 at what
/// is beyond the limits; at one place the first of these. Nothing is said of the variables that are bound behind it.
pub fn assertion_at(
    alloc: Global,
    scope: &Scope<'_>,
    bound: &mut Variables,
    text: Text<'_>,
    spot: Spot,
) -> Result<(Assertion, u32), Halt>
    requires at { spot.at ≤ length text.tokens.now.items }
    requires count { length text.tokens.now.items < 2 ^ 32 }
    ensures exact { Answers (λ x. x) (specs.assertion text.entry.bytes.now text.entry.tokens.now spot.depth (env scope.now bound.old) spot.at) result }
    ensures from { IfOk result (λ x. spot.at ≤ x.1) }
    ensures within { IfOk result (λ x. x.1 ≤ length text.entry.tokens.now.items) }
{
    let depth = spot.depth;
    let (existentials, first) = existentials_at(alloc, text, spot)?;
    bind_all(existentials.as_slice(), bound)?;
    body_at(
        alloc,
        scope,
        bound,
        text,
        Spot { at: first, depth },
        existentials,
    )
}
