//! Specifications.
ghost use Rattle.std.specs.Prelude.{◌≡◌, ◌≤◌, ◌<◌, ◌+◌, ◌^◌, ◌&&◌, IfOk, OnOk, length};
ghost use Rattle.floyd_specread_specs.specs.Specifications as specs;
ghost use Rattle.floyd_termread.specs.Brackets.{outermost};
ghost use Rattle.floyd_termread_marks.specs.Marks as marks;
ghost use Rattle.floyd_termread_phrases.specs.Reads.{Answers};
ghost use Rattle.floyd_termread_scope.specs.Scopes.{env, sort_of};

use crate::globals::globals_at;
use crate::text::{PreText, SpecText};
use crate::types::{result_type_at, types_at};
use crate::values::{params_at, returned_at};
use floyd_assert_trees::{BinderList, Postcondition, Precondition, SepList, TypeList};
use floyd_specread_words::{SpecWord, leads_spec_word, take_spec_word};
use floyd_termread_assertions::{bind_all, binders_at, existentials_at, props_at, seps_at};
use floyd_termread_phrases::{Spot, Text};
use floyd_termread_scope::{Scope, Variables};
use floyd_text::Halt;
use floyd_tree::{AType, Term};
use sqlite_items::Items;
use std::alloc::{AllocError, Global};

/// The variables of WITH, `"WITH" binders`, if it stands there, from the token of this number on, where no bracket is open
/// before it, and the number of the token behind them. Else the refusal, as `binders_at` has it.
pub fn with_at(alloc: Global, text: Text<'_>, at: u32) -> Result<(BinderList, u32), Halt>
    requires at { at ≤ length text.tokens.now.items }
    requires count { length text.tokens.now.items < 2 ^ 32 }
    ensures exact { Answers (λ x. x) (specs.with_binders text.entry.bytes.now text.entry.tokens.now at) result }
    ensures within { IfOk result (λ x. x.1 ≤ length text.entry.tokens.now.items) }
{
    if !leads_spec_word(text, at, SpecWord::With) {
        return Ok((Items::new(alloc), at));
    }
    let (_word, first) = take_spec_word(text, Spot { at, depth: 0 }, SpecWord::With)?;
    binders_at(
        alloc,
        text,
        Spot {
            at: first,
            depth: 0,
        },
    )
}

/// What is written of a precondition, for so many types.
fn pre_at(
    alloc: Global,
    scope: &Scope<'_>,
    bound: &mut Variables,
    text: Text<'_>,
    at: u32,
    count: usize,
) -> Result<(Precondition, u32), Halt>
    requires at { at ≤ length text.tokens.now.items }
    requires count { length text.tokens.now.items < 2 ^ 32 }
    ensures exact { Answers (λ x. x) (specs.pre text.entry.bytes.now text.entry.tokens.now (env scope.now bound.old) count at) result }
    ensures within { IfOk result (λ x. x.1 ≤ length text.entry.tokens.now.items) }
    ensures kept { OnOk result (sort_of bound.new ≡ sort_of bound.old) }
{
    let (props, first) = props_at(alloc, scope, bound, text, Spot { at, depth: 0 })?;
    let (params, second) = params_at(alloc, scope, bound, text, first, count)?;
    let (globals, third) = globals_at(alloc, text, second)?;
    let (parts, behind) = seps_at(
        alloc,
        scope,
        bound,
        text,
        Spot {
            at: third,
            depth: 0,
        },
    )?;
    let pre = Precondition {
        props,
        params,
        globals,
        parts,
    };
    Ok((pre, behind))
}

/// How a precondition may be written: for so many types, and whether MAIN_PRE may stand for it.
#[derive(Clone, Copy)]
struct PreForm {
    count: usize,
    takes_main: bool,
}

/// Whether MAIN_PRE stands next, where it may.
fn leads_main_pre(text: Text<'_>, at: u32, takes_main: bool) -> bool
    requires { at ≤ length text.tokens.now.items }
    ensures { result ≡ marks.is_next text.entry.bytes.now text.entry.tokens.now (specs.is_main_pre takes_main) at }
{
    takes_main && leads_spec_word(text, at, SpecWord::MainPre)
}

/// A precondition of that form.
fn pre_text_at(
    alloc: Global,
    scope: &Scope<'_>,
    bound: &mut Variables,
    text: Text<'_>,
    at: u32,
    form: PreForm,
) -> Result<(PreText, u32), Halt>
    requires at { at ≤ length text.tokens.now.items }
    requires count { length text.tokens.now.items < 2 ^ 32 }
    ensures exact { Answers (λ x. x) (specs.pre_text text.entry.bytes.now text.entry.tokens.now (env scope.now bound.old) form.takes_main form.count at) result }
    ensures within { IfOk result (λ x. x.1 ≤ length text.entry.tokens.now.items) }
    ensures kept { OnOk result (sort_of bound.new ≡ sort_of bound.old) }
{
    if leads_main_pre(text, at, form.takes_main) {
        let (_word, behind) = take_spec_word(text, Spot { at, depth: 0 }, SpecWord::MainPre)?;
        return Ok((PreText::Main, behind));
    }
    let (pre, behind) = pre_at(alloc, scope, bound, text, at, form.count)?;
    Ok((PreText::Written(pre), behind))
}

/// `"PRE" types ( "MAIN_PRE" | pre )`
fn asked_at(
    alloc: Global,
    scope: &Scope<'_>,
    bound: &mut Variables,
    text: Text<'_>,
    at: u32,
    takes_main: bool,
) -> Result<((TypeList, PreText), u32), Halt>
    requires at { at ≤ length text.tokens.now.items }
    requires count { length text.tokens.now.items < 2 ^ 32 }
    ensures exact { Answers (λ x. x) (specs.asked text.entry.bytes.now text.entry.tokens.now (env scope.now bound.old) takes_main at) result }
    ensures within { IfOk result (λ x. x.1 ≤ length text.entry.tokens.now.items) }
    ensures kept { OnOk result (sort_of bound.new ≡ sort_of bound.old) }
{
    let (_word, first) = take_spec_word(text, Spot { at, depth: 0 }, SpecWord::Pre)?;
    let (types, second) = types_at(alloc, scope, bound, text, first)?;
    let form = PreForm {
        count: types.len(),
        takes_main,
    };
    let (pre, behind) = pre_text_at(alloc, scope, bound, text, second, form)?;
    Ok(((types, pre), behind))
}

/// The only value, if there is one.
fn first_of(values: &[Term]) -> Result<Option<Term>, AllocError>
    ensures { IfOk result (λ t. t ≡ specs.first_of values.now) }
{
    match values {
        [first, ..] => Ok(Some(first.share()?)),
        [] => Ok(None),
    }
}

/// `"RETURN" ts "SEP" parts` for a result of that type.
fn ending_at(
    alloc: Global,
    scope: &Scope<'_>,
    bound: &Variables,
    text: Text<'_>,
    at: u32,
    ty: &AType,
) -> Result<((Option<Term>, SepList), u32), Halt>
    requires at { at ≤ length text.tokens.now.items }
    requires count { length text.tokens.now.items < 2 ^ 32 }
    ensures exact { Answers (λ x. x) (specs.ending text.entry.bytes.now text.entry.tokens.now (env scope.now bound.now) ty.now at) result }
    ensures within { IfOk result (λ x. x.1 ≤ length text.entry.tokens.now.items) }
{
    let (values, first) = returned_at(alloc, scope, bound, text, at, ty)?;
    let (parts, behind) = seps_at(
        alloc,
        scope,
        bound,
        text,
        Spot {
            at: first,
            depth: 0,
        },
    )?;
    let value = first_of(values.as_slice())?;
    Ok(((value, parts), behind))
}

/// A postcondition for a result of that type. Nothing is said of the variables that are bound behind it.
fn post_at(
    alloc: Global,
    scope: &Scope<'_>,
    bound: &mut Variables,
    text: Text<'_>,
    at: u32,
    ty: &AType,
) -> Result<(Postcondition, u32), Halt>
    requires at { at ≤ length text.tokens.now.items }
    requires count { length text.tokens.now.items < 2 ^ 32 }
    ensures exact { Answers (λ x. x) (specs.post text.entry.bytes.now text.entry.tokens.now (env scope.now bound.old) ty.now at) result }
    ensures within { IfOk result (λ x. x.1 ≤ length text.entry.tokens.now.items) }
{
    let (existentials, first) = existentials_at(alloc, text, Spot { at, depth: 0 })?;
    bind_all(existentials.as_slice(), bound)?;
    let (props, second) = props_at(
        alloc,
        scope,
        bound,
        text,
        Spot {
            at: first,
            depth: 0,
        },
    )?;
    let ((value, parts), behind) = ending_at(alloc, scope, bound, text, second, ty)?;
    let post = Postcondition {
        existentials,
        props,
        value,
        parts,
    };
    Ok((post, behind))
}

/// `"POST" "[" type "]" post`, as `post_at` has a postcondition.
fn given_at(
    alloc: Global,
    scope: &Scope<'_>,
    bound: &mut Variables,
    text: Text<'_>,
    at: u32,
) -> Result<((AType, Postcondition), u32), Halt>
    requires at { at ≤ length text.tokens.now.items }
    requires count { length text.tokens.now.items < 2 ^ 32 }
    ensures exact { Answers (λ x. x) (specs.given text.entry.bytes.now text.entry.tokens.now (env scope.now bound.old) at) result }
    ensures within { IfOk result (λ x. x.1 ≤ length text.entry.tokens.now.items) }
{
    let (_word, first) = take_spec_word(text, Spot { at, depth: 0 }, SpecWord::Post)?;
    let (ty, second) = result_type_at(alloc, scope, bound, text, first)?;
    let (post, behind) = post_at(alloc, scope, bound, text, second, &ty)?;
    Ok(((ty, post), behind))
}

/// The text of a specification from the token of this number on, where no bracket is open before it, and the number of the
/// token behind it. Else the first refusal: 302 and 501 where the tokens so far begin no specification, 502 at a name that
/// stands for nothing, 503 at what does not fit its place, 802 at what is beyond the limits; at one place the first of
/// these. A wrong number of values in PARAMS or RETURN is 503 where their list closes. MAIN_PRE is 501 unless it may stand.
///
/// The variables of the scope are those around the specification, of which an item of a file has none.
pub fn spec_at(
    alloc: Global,
    scope: &Scope<'_>,
    text: Text<'_>,
    at: u32,
    takes_main: bool,
) -> Result<(SpecText, u32), Halt>
    requires at { at ≤ length text.tokens.now.items }
    requires count { length text.tokens.now.items < 2 ^ 32 }
    ensures exact { Answers (λ x. x) (specs.spec text.entry.bytes.now text.entry.tokens.now takes_main (outermost scope.now) at) result }
    ensures within { IfOk result (λ x. x.1 ≤ length text.entry.tokens.now.items) }
{
    let (with, first) = with_at(alloc, text, at)?;
    let mut bound = Variables::new(alloc);
    bind_all(with.as_slice(), &mut bound)?;
    let ((params, pre), second) = asked_at(alloc, scope, &mut bound, text, first, takes_main)?;
    let ((ty, post), behind) = given_at(alloc, scope, &mut bound, text, second)?;
    let spec = SpecText {
        with,
        params,
        pre,
        result: ty,
        post,
    };
    Ok((spec, behind))
}
