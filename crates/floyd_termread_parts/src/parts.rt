//! Parts by their words.
ghost use Rattle.std.specs.Prelude.{◌≡◌, ◌≤◌, ◌<◌, ◌+◌, ◌^◌, Some, IfOk, length};
ghost use Rattle.floyd_termread_parts.specs.Parts as specs;
ghost use Rattle.floyd_termread_phrases.specs.Reads.{Answers};
ghost use Rattle.floyd_termread_scope.specs.Scopes.{env};
ghost use Rattle.floyd_text.specs.Gives.{Gives};

use crate::arguments::{argument_at, last_at, struct_path_behind, value_path_behind};
use crate::objects::{Object, opened_at};
use crate::predicates::predicate_at;
use floyd_assert_trees::Sep;
use floyd_fieldpath::default_term;
use floyd_lex::Punctuator;
use floyd_termread_marks::{AssertionWord, part_word, take_mark, take_word};
use floyd_termread_phrases::{Spot, Text, term_at};
use floyd_termread_scope::{Scope, Variables};
use floyd_termread_wants::{ill_sorted, too_large};
use floyd_text::{Halt, Place, Steps};
use floyd_tree::{MakeStop, Path, Sort, Term};
use std::alloc::Global;
use std::marker::Brand;
use std::sync::ledger::{Blank, Ledger};

/// The default value of a type, or that it is too large.
fn default_value(alloc: Global, place: Place, object: &Object) -> Result<Term, Halt>
    ensures exact { Gives (λ t. t) result (specs.default_value place object.now) }
{
    default_value_from::<Brand>(alloc, place, object, Blank::new(1))
}

/// The same with a counter of its own.
fn default_value_from<L: Ledger>(
    alloc: Global,
    place: Place,
    object: &Object,
    blank: Blank,
) -> Result<Term, Halt>
    requires name { blank.name ≡ L.name }
    requires parts { blank.parts ≡ L.parts }
    requires some { 0 < blank.parts }
    ensures exact { Gives (λ t. t) result (specs.default_value place object.now) }
{
    let mut steps = Steps::<L>::new(blank);
    match default_term(alloc, &object.ty, &object.sort, &mut steps) {
        Ok(value) => Ok(value),
        Err(MakeStop::IllSorted) => Err(Halt::Refused(ill_sorted(place))),
        Err(MakeStop::TooLarge) => Err(Halt::Refused(too_large(place))),
        Err(MakeStop::Memory) => Err(Halt::Memory),
    }
}

/// `data_at` behind its word.
fn data_at(
    alloc: Global,
    scope: &Scope<'_>,
    bound: &Variables,
    text: Text<'_>,
    spot: Spot,
) -> Result<(Sep, u32), Halt>
    requires at { spot.at ≤ length text.tokens.now.items }
    requires count { length text.tokens.now.items < 2 ^ 32 }
    ensures exact { Answers (λ x. x) (specs.data_at text.entry.bytes.now text.entry.tokens.now spot.depth (env scope.now bound.now) spot.at) result }
    ensures from { IfOk result (λ x. spot.at ≤ x.1) }
    ensures within { IfOk result (λ x. x.1 ≤ length text.entry.tokens.now.items) }
{
    let depth = spot.depth;
    let (object, first) = opened_at(alloc, scope, bound, text, spot)?;
    let (value, second) = argument_at(
        alloc,
        scope,
        bound,
        text,
        Spot { at: first, depth },
        &object.sort,
    )?;
    let (root, behind) = last_at(alloc, scope, bound, text, Spot { at: second, depth })?;
    let region = object.region(Path::new(alloc), root);
    Ok((Sep::FieldAt(region, value), behind))
}

/// `data_at_` behind its word, which stands at that place.
fn data_at_default(
    alloc: Global,
    scope: &Scope<'_>,
    bound: &Variables,
    text: Text<'_>,
    spot: Spot,
    place: Place,
) -> Result<(Sep, u32), Halt>
    requires at { spot.at ≤ length text.tokens.now.items }
    requires count { length text.tokens.now.items < 2 ^ 32 }
    ensures exact { Answers (λ x. x) (specs.data_at_default text.entry.bytes.now text.entry.tokens.now spot.depth (env scope.now bound.now) place spot.at) result }
    ensures from { IfOk result (λ x. spot.at ≤ x.1) }
    ensures within { IfOk result (λ x. x.1 ≤ length text.entry.tokens.now.items) }
{
    let depth = spot.depth;
    let (object, first) = opened_at(alloc, scope, bound, text, spot)?;
    let (root, behind) = last_at(alloc, scope, bound, text, Spot { at: first, depth })?;
    let value = default_value(alloc, place, &object)?;
    let region = object.region(Path::new(alloc), root);
    Ok((Sep::FieldAt(region, value), behind))
}

/// `field_at` behind its word.
fn field_at(
    alloc: Global,
    scope: &Scope<'_>,
    bound: &Variables,
    text: Text<'_>,
    spot: Spot,
) -> Result<(Sep, u32), Halt>
    requires at { spot.at ≤ length text.tokens.now.items }
    requires count { length text.tokens.now.items < 2 ^ 32 }
    ensures exact { Answers (λ x. x) (specs.field_at text.entry.bytes.now text.entry.tokens.now spot.depth (env scope.now bound.now) spot.at) result }
    ensures from { IfOk result (λ x. spot.at ≤ x.1) }
    ensures within { IfOk result (λ x. x.1 ≤ length text.entry.tokens.now.items) }
{
    let depth = spot.depth;
    let (object, first) = opened_at(alloc, scope, bound, text, spot)?;
    let ((path, sort), second) = value_path_behind(
        alloc,
        scope,
        bound,
        text,
        Spot { at: first, depth },
        &object.ty,
    )?;
    let (value, third) = argument_at(alloc, scope, bound, text, Spot { at: second, depth }, &sort)?;
    let (root, behind) = last_at(alloc, scope, bound, text, Spot { at: third, depth })?;
    let region = object.region(path, root);
    Ok((Sep::FieldAt(region, value), behind))
}

/// `padding` behind its word.
fn padding(
    alloc: Global,
    scope: &Scope<'_>,
    bound: &Variables,
    text: Text<'_>,
    spot: Spot,
) -> Result<(Sep, u32), Halt>
    requires at { spot.at ≤ length text.tokens.now.items }
    requires count { length text.tokens.now.items < 2 ^ 32 }
    ensures exact { Answers (λ x. x) (specs.padding text.entry.bytes.now text.entry.tokens.now spot.depth (env scope.now bound.now) spot.at) result }
    ensures from { IfOk result (λ x. spot.at ≤ x.1) }
    ensures within { IfOk result (λ x. x.1 ≤ length text.entry.tokens.now.items) }
{
    let depth = spot.depth;
    let (object, first) = opened_at(alloc, scope, bound, text, spot)?;
    let (path, second) = struct_path_behind(
        alloc,
        scope,
        bound,
        text,
        Spot { at: first, depth },
        &object.ty,
    )?;
    let (root, behind) = last_at(alloc, scope, bound, text, Spot { at: second, depth })?;
    let region = object.region(path, root);
    Ok((Sep::Padding(region), behind))
}

/// `valid` behind its word.
fn valid(
    alloc: Global,
    scope: &Scope<'_>,
    bound: &Variables,
    text: Text<'_>,
    spot: Spot,
) -> Result<(Sep, u32), Halt>
    requires at { spot.at ≤ length text.tokens.now.items }
    requires count { length text.tokens.now.items < 2 ^ 32 }
    ensures exact { Answers (λ x. x) (specs.valid text.entry.bytes.now text.entry.tokens.now spot.depth (env scope.now bound.now) spot.at) result }
    ensures from { IfOk result (λ x. spot.at ≤ x.1) }
    ensures within { IfOk result (λ x. x.1 ≤ length text.entry.tokens.now.items) }
{
    let (_open, first) = take_mark(text, spot, Punctuator::OpenParen)?;
    let depth = spot.depth + 1;
    let (address, end) = term_at(
        alloc,
        scope,
        bound,
        text,
        Spot { at: first, depth },
        Some(&Sort::Val),
    )?;
    let (_close, behind) = take_mark(text, Spot { at: end, depth }, Punctuator::CloseParen)?;
    Ok((Sep::Valid(address), behind))
}

/// A part that begins with that word.
fn part_with(
    alloc: Global,
    scope: &Scope<'_>,
    bound: &Variables,
    text: Text<'_>,
    spot: Spot,
    word: AssertionWord,
) -> Result<(Sep, u32), Halt>
    requires at { spot.at ≤ length text.tokens.now.items }
    requires count { length text.tokens.now.items < 2 ^ 32 }
    ensures exact { Answers (λ x. x) (specs.part_by text.entry.bytes.now text.entry.tokens.now spot.depth (env scope.now bound.now) (Some word) spot.at) result }
    ensures from { IfOk result (λ x. spot.at ≤ x.1) }
    ensures within { IfOk result (λ x. x.1 ≤ length text.entry.tokens.now.items) }
{
    let depth = spot.depth;
    let (place, at) = take_word(text, spot, word)?;
    let behind = Spot { at, depth };
    match word {
        AssertionWord::DataAt => data_at(alloc, scope, bound, text, behind),
        AssertionWord::DataAtDefault => data_at_default(alloc, scope, bound, text, behind, place),
        AssertionWord::FieldAt => field_at(alloc, scope, bound, text, behind),
        AssertionWord::Padding => padding(alloc, scope, bound, text, behind),
        AssertionWord::Valid => valid(alloc, scope, bound, text, behind),
        _ => Ok((Sep::Anything, at)),
    }
}

/// The part from a spot on, and the number of the token behind it. Else the first refusal: 302 and 501 where the tokens
/// so far begin no part, 502 at a name that stands for nothing, 503 at what does not fit its place, 802 at what is beyond
/// the limits; at one place the first of these. A type without values, and a path that leads to nothing, or in `padding` to
/// no struct, is 503 where it begins, a wrong number of arguments where their list closes; a default value that is too
/// large is 802 at the word `data_at_`.
pub fn part_at(
    alloc: Global,
    scope: &Scope<'_>,
    bound: &Variables,
    text: Text<'_>,
    spot: Spot,
) -> Result<(Sep, u32), Halt>
    requires at { spot.at ≤ length text.tokens.now.items }
    requires count { length text.tokens.now.items < 2 ^ 32 }
    ensures exact { Answers (λ x. x) (specs.part text.entry.bytes.now text.entry.tokens.now spot.depth (env scope.now bound.now) spot.at) result }
    ensures from { IfOk result (λ x. spot.at ≤ x.1) }
    ensures within { IfOk result (λ x. x.1 ≤ length text.entry.tokens.now.items) }
{
    match part_word(text, spot.at) {
        Some(word) => part_with(alloc, scope, bound, text, spot, word),
        None => predicate_at(alloc, scope, bound, text, spot),
    }
}
