//! Assertions without temporaries.
ghost use Rattle.std.specs.Prelude.{◌≡◌, ◌≤◌, ◌<◌, ◌+◌, ◌^◌, IfOk, OnOk, length};
ghost use Rattle.floyd_specread_items.specs.Bodies as specs;
ghost use Rattle.floyd_termread_phrases.specs.Reads.{Answers};
ghost use Rattle.floyd_termread_scope.specs.Scopes.{env, sort_of};

use floyd_assert_trees::{Assertion, BinderList};
use floyd_cparse_trees::Identifier;
use floyd_predicates::unhidden;
use floyd_specread_recursion::structural;
use floyd_termread_assertions::{bind_all, existentials_at, props_at, seps_at};
use floyd_termread_phrases::{Spot, Text};
use floyd_termread_scope::{Scope, Variables};
use floyd_text::{Halt, Name};
use sqlite_items::Items;
use std::alloc::Global;

/// An assertion without temporaries behind its existentials, which are bound.
pub(crate) fn plain_rest_at(
    alloc: Global,
    scope: &Scope<'_>,
    bound: &mut Variables,
    text: Text<'_>,
    at: u32,
    existentials: BinderList,
) -> Result<(Assertion, u32), Halt>
    requires at { at ≤ length text.tokens.now.items }
    requires count { length text.tokens.now.items < 2 ^ 32 }
    ensures exact { Answers (λ x. x) (specs.plain_rest text.entry.bytes.now text.entry.tokens.now existentials (env scope.now bound.old) at) result }
    ensures from { IfOk result (λ x. at ≤ x.1) }
    ensures within { IfOk result (λ x. x.1 ≤ length text.entry.tokens.now.items) }
    ensures kept { OnOk result (sort_of bound.new ≡ sort_of bound.old) }
{
    let (props, first) = props_at(alloc, scope, bound, text, Spot { at, depth: 0 })?;
    let (parts, behind) = seps_at(
        alloc,
        scope,
        bound,
        text,
        Spot {
            at: first,
            depth: 0,
        },
    )?;
    let assertion = Assertion {
        existentials,
        props,
        locals: Items::new(alloc),
        parts,
    };
    Ok((assertion, behind))
}

/// The assertion without temporaries from the token of this number on, where no bracket is open before it, and the number of
/// the token behind it. Else the first refusal, as `assertion_at` has it; LOCAL is 501 at that word. Nothing is said of the
/// variables that are bound behind it.
pub fn plain_body_at(
    alloc: Global,
    scope: &Scope<'_>,
    bound: &mut Variables,
    text: Text<'_>,
    at: u32,
) -> Result<(Assertion, u32), Halt>
    requires at { at ≤ length text.tokens.now.items }
    requires count { length text.tokens.now.items < 2 ^ 32 }
    ensures exact { Answers (λ x. x) (specs.plain_body text.entry.bytes.now text.entry.tokens.now (env scope.now bound.old) at) result }
    ensures within { IfOk result (λ x. x.1 ≤ length text.entry.tokens.now.items) }
{
    let (existentials, first) = existentials_at(alloc, text, Spot { at, depth: 0 })?;
    bind_all(existentials.as_slice(), bound)?;
    plain_rest_at(alloc, scope, bound, text, first, existentials)
}

/// The name of a PRED, and the parts of its first argument, on which it may call itself.
#[derive(Clone, Copy)]
pub(crate) struct Calls<'a> {
    pub(crate) own: &'a Identifier,
    pub(crate) parts: &'a [Name],
}

/// The same with the calls of a PRED in it.
pub(crate) fn judged_body_at(
    alloc: Global,
    scope: &Scope<'_>,
    bound: &mut Variables,
    calls: Calls<'_>,
    text: Text<'_>,
    at: u32,
) -> Result<(Assertion, u32), Halt>
    requires at { at ≤ length text.tokens.now.items }
    requires count { length text.tokens.now.items < 2 ^ 32 }
    ensures exact { Answers (λ x. x) (specs.judged_body text.entry.bytes.now text.entry.tokens.now calls.entry.own.now calls.entry.parts.now (env scope.now bound.old) at) result }
    ensures from { IfOk result (λ x. at ≤ x.1) }
    ensures within { IfOk result (λ x. x.1 ≤ length text.entry.tokens.now.items) }
{
    let (existentials, first) = existentials_at(alloc, text, Spot { at, depth: 0 })?;
    bind_all(existentials.as_slice(), bound)?;
    let parts = unhidden(alloc, existentials.as_slice(), calls.parts)?;
    let read = plain_rest_at(alloc, scope, bound, text, first, existentials);
    structural(text, calls.own, parts.as_slice(), first, read)
}
