//! The object of a part: its share, and its type with its value sort.
ghost use Rattle.std.specs.Prelude.{◌≡◌, ◌≤◌, ◌<◌, ◌+◌, ◌^◌, IfOk, OnOk, length};
ghost use Rattle.floyd_termread_parts.specs.Objects as specs;
ghost use Rattle.floyd_termread_parts.specs.Parts as parts;
ghost use Rattle.floyd_termread_phrases.specs.Reads.{Answers};
ghost use Rattle.floyd_termread_scope.specs.Scopes.{env};

use floyd_assert_trees::Region;
use floyd_fieldpath::{literal, value_sort};
use floyd_lex::Punctuator;
use floyd_termread_marks::{first_place, leads_type, take_mark};
use floyd_termread_phrases::{Spot, Text, term_at, type_at};
use floyd_termread_scope::{Scope, Variables};
use floyd_termread_wants::ill_sorted;
use floyd_text::{Halt, Steps};
use floyd_tree::{AType, Path, Sort, Term};
use std::alloc::{AllocError, Global};
use std::marker::Brand;
use std::sync::ledger::{Blank, Ledger};

/// A share and a type, and the sort of the type's values.
pub(crate) struct Object {
    pub(crate) share: Term,
    pub(crate) ty: AType,
    pub(crate) sort: Sort,
}

impl Drop for Object {
    fn drop(self) {
        let Object { share, ty, sort } = self;
        drop(share);
        drop(ty);
        drop(sort);
    }
}

impl Object {
    /// Where it lies, or what is at a path in it, where its address is the root.
    pub(crate) fn region(self, path: Path, root: Term) -> Region
        ensures { result ≡ parts.region self path root }
    {
        let Object { share, ty, sort } = self;
        drop(sort);
        Region {
            share,
            ty,
            path,
            root,
        }
    }
}

/// The share of a part that is written without one.
fn sixteen(alloc: Global) -> Result<Term, AllocError>
    ensures { IfOk result (λ t. t ≡ specs.sixteen) }
{
    sixteen_from::<Brand>(alloc, Blank::new(1))
}

/// The same with a counter of its own.
fn sixteen_from<L: Ledger>(alloc: Global, blank: Blank) -> Result<Term, AllocError>
    requires name { blank.name ≡ L.name }
    requires parts { blank.parts ≡ L.parts }
    requires some { 0 < blank.parts }
    ensures { IfOk result (λ t. t ≡ specs.sixteen) }
{
    let mut steps = Steps::<L>::new(blank);
    literal(alloc, 16, &mut steps)
}

/// The share with the comma behind it, where one is written.
fn share_at(
    alloc: Global,
    scope: &Scope<'_>,
    bound: &Variables,
    text: Text<'_>,
    spot: Spot,
) -> Result<(Term, u32), Halt>
    requires at { spot.at ≤ length text.tokens.now.items }
    requires count { length text.tokens.now.items < 2 ^ 32 }
    ensures exact { Answers (λ x. x) (specs.share text.entry.bytes.now text.entry.tokens.now spot.depth (env scope.now bound.now) spot.at) result }
    ensures from { IfOk result (λ x. spot.at ≤ x.1) }
    ensures within { IfOk result (λ x. x.1 ≤ length text.entry.tokens.now.items) }
{
    let Spot { at, depth } = spot;
    if leads_type(text, at) {
        let share = sixteen(alloc)?;
        return Ok((share, at));
    }
    let (share, comma) = term_at(alloc, scope, bound, text, spot, Some(&Sort::Z))?;
    let (_place, behind) = take_mark(text, Spot { at: comma, depth }, Punctuator::Comma)?;
    Ok((share, behind))
}

/// The type, which is to have a value sort.
fn object_at(
    alloc: Global,
    scope: &Scope<'_>,
    bound: &Variables,
    text: Text<'_>,
    spot: Spot,
    share: Term,
) -> Result<(Object, u32), Halt>
    requires at { spot.at ≤ length text.tokens.now.items }
    requires count { length text.tokens.now.items < 2 ^ 32 }
    ensures exact { Answers (λ x. x) (specs.object text.entry.bytes.now text.entry.tokens.now spot.depth (env scope.now bound.now) share spot.at) result }
    ensures from { IfOk result (λ x. spot.at ≤ x.1) }
    ensures within { IfOk result (λ x. x.1 ≤ length text.entry.tokens.now.items) }
{
    let (ty, behind) = type_at(alloc, scope, bound, text, spot)?;
    match value_sort(alloc, &scope.defs.structs, ty.shape().get())? {
        Some(sort) => Ok((Object { share, ty, sort }, behind)),
        None => Err(Halt::Refused(ill_sorted(first_place(text, spot.at)))),
    }
}

/// What stands behind the word of a part up to its type.
pub(crate) fn opened_at(
    alloc: Global,
    scope: &Scope<'_>,
    bound: &Variables,
    text: Text<'_>,
    spot: Spot,
) -> Result<(Object, u32), Halt>
    requires at { spot.at ≤ length text.tokens.now.items }
    requires count { length text.tokens.now.items < 2 ^ 32 }
    ensures exact { Answers (λ x. x) (parts.opened text.entry.bytes.now text.entry.tokens.now spot.depth (env scope.now bound.now) spot.at) result }
    ensures from { IfOk result (λ x. spot.at ≤ x.1) }
    ensures within { IfOk result (λ x. x.1 ≤ length text.entry.tokens.now.items) }
    ensures room { OnOk result (spot.depth ≤ 201) }
{
    let (_open, first) = take_mark(text, spot, Punctuator::OpenParen)?;
    let depth = spot.depth + 1;
    let (share, start) = share_at(alloc, scope, bound, text, Spot { at: first, depth })?;
    object_at(alloc, scope, bound, text, Spot { at: start, depth }, share)
}
