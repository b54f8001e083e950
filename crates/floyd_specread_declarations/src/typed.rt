//! The types of a declaration's specification, where something else in it is refused.
ghost use Rattle.std.specs.Prelude.{◌≡◌, ◌≤◌, ◌<◌, ◌^◌, ◌&&◌, IfOk, length};
ghost use Rattle.floyd_specread_declarations.specs.Judging as specs;
ghost use Rattle.floyd_specread_specs.specs.Specifications.{is_main_pre};
ghost use Rattle.floyd_termread.specs.Brackets.{outermost};
ghost use Rattle.floyd_termread_marks.specs.Marks as marks;
ghost use Rattle.floyd_termread_phrases.specs.Reads.{Answers};
ghost use Rattle.floyd_termread_scope.specs.Scopes.{env};

use crate::by::written_by_at;
use crate::declaring::Written;
use crate::names::{is_main, named_spec_at};
use crate::standing::Standing;
use floyd_assert_trees::{Funspec, TypeList};
use floyd_lex::Punctuator;
use floyd_specread_cases::worded_list_at;
use floyd_specread_skims::{Skimmed, skim_list};
use floyd_specread_sources::Prototype;
use floyd_specread_specs::{result_type_at, types_at, with_at};
use floyd_specread_trees::SpecItems;
use floyd_specread_words::{SpecWord, leads_spec_word, take_spec_word};
use floyd_termread_assertions::bind_all;
use floyd_termread_marks::AssertionWord;
use floyd_termread_phrases::{Spot, Text};
use floyd_termread_scope::{Scope, Variables};
use floyd_text::Halt;
use floyd_tree::AType;
use sqlite_items::Items;
use std::alloc::{AllocError, Global};

/// A word with a list behind it, by the grammar alone.
fn spec_list_at(
    alloc: Global,
    text: Text<'_>,
    at: u32,
    word: SpecWord,
    what: Skimmed,
) -> Result<u32, Halt>
    requires at { at ≤ length text.tokens.now.items }
    requires count { length text.tokens.now.items < 2 ^ 32 }
    ensures exact { Answers (λ n. (tt, n)) (specs.spec_list text.entry.bytes.now text.entry.tokens.now word what at) result }
    ensures within { IfOk result (λ n. n ≤ length text.entry.tokens.now.items) }
{
    let (_word, first) = take_spec_word(text, Spot { at, depth: 0 }, word)?;
    skim_list(
        alloc,
        text,
        Spot {
            at: first,
            depth: 0,
        },
        Punctuator::Semicolon,
        what,
    )
}

/// A precondition by the grammar alone.
fn written_pre_at(alloc: Global, text: Text<'_>, at: u32) -> Result<u32, Halt>
    requires at { at ≤ length text.tokens.now.items }
    requires count { length text.tokens.now.items < 2 ^ 32 }
    ensures exact { Answers (λ n. (tt, n)) (specs.written_pre text.entry.bytes.now text.entry.tokens.now at) result }
    ensures within { IfOk result (λ n. n ≤ length text.entry.tokens.now.items) }
{
    let first = worded_list_at(alloc, text, at, AssertionWord::Prop, Skimmed::Formula)?;
    let second = spec_list_at(alloc, text, first, SpecWord::Params, Skimmed::Term)?;
    let third = spec_list_at(alloc, text, second, SpecWord::Globals, Skimmed::Name)?;
    worded_list_at(alloc, text, third, AssertionWord::Sep, Skimmed::Part)
}

/// Whether MAIN_PRE stands next, where it may.
fn leads_main_pre(text: Text<'_>, at: u32, takes_main: bool) -> bool
    requires { at ≤ length text.tokens.now.items }
    ensures { result ≡ marks.is_next text.entry.bytes.now text.entry.tokens.now (is_main_pre takes_main) at }
{
    takes_main && leads_spec_word(text, at, SpecWord::MainPre)
}

/// A precondition, or MAIN_PRE, by the grammar alone.
fn written_pre_text_at(
    alloc: Global,
    text: Text<'_>,
    at: u32,
    takes_main: bool,
) -> Result<u32, Halt>
    requires at { at ≤ length text.tokens.now.items }
    requires count { length text.tokens.now.items < 2 ^ 32 }
    ensures exact { Answers (λ n. (tt, n)) (specs.written_pre_text text.entry.bytes.now text.entry.tokens.now takes_main at) result }
    ensures within { IfOk result (λ n. n ≤ length text.entry.tokens.now.items) }
{
    if leads_main_pre(text, at, takes_main) {
        let (_word, behind) = take_spec_word(text, Spot { at, depth: 0 }, SpecWord::MainPre)?;
        return Ok(behind);
    }
    written_pre_at(alloc, text, at)
}

/// The types of PRE and POST, among variables.
fn typed_at(
    alloc: Global,
    scope: &Scope<'_>,
    bound: &Variables,
    text: Text<'_>,
    at: u32,
    takes_main: bool,
) -> Result<(Prototype, u32), Halt>
    requires at { at ≤ length text.tokens.now.items }
    requires count { length text.tokens.now.items < 2 ^ 32 }
    ensures exact { Answers (λ x. x) (specs.typed text.entry.bytes.now text.entry.tokens.now takes_main (env scope.now bound.now) at) result }
{
    let (_pre, first) = take_spec_word(text, Spot { at, depth: 0 }, SpecWord::Pre)?;
    let (params, second) = types_at(alloc, scope, bound, text, first)?;
    let third = written_pre_text_at(alloc, text, second, takes_main)?;
    let (_post, fourth) = take_spec_word(
        text,
        Spot {
            at: third,
            depth: 0,
        },
        SpecWord::Post,
    )?;
    let (ty, behind) = result_type_at(alloc, scope, bound, text, fourth)?;
    Ok((Prototype { params, result: ty }, behind))
}

/// The types of a specification that is written out.
fn typed_spec_at(
    alloc: Global,
    scope: &Scope<'_>,
    text: Text<'_>,
    at: u32,
    takes_main: bool,
) -> Result<(Prototype, u32), Halt>
    requires at { at ≤ length text.tokens.now.items }
    requires count { length text.tokens.now.items < 2 ^ 32 }
    ensures exact { Answers (λ x. x) (specs.typed_spec text.entry.bytes.now text.entry.tokens.now takes_main (outermost scope.now) at) result }
{
    let (with, first) = with_at(alloc, text, at)?;
    let mut bound = Variables::new(alloc);
    bind_all(with.as_slice(), &mut bound)?;
    typed_at(alloc, scope, &bound, text, first, takes_main)
}

/// The same types.
fn share_types(alloc: Global, types: &[AType]) -> Result<TypeList, AllocError>
    ensures { IfOk result (λ all. all ≡ types.now) }
{
    let mut all = Items::new(alloc);
    'types: for ty in types {
        all.push(ty.share(alloc)?)?;
    }
    Ok(all)
}

/// The types of a specification.
fn types_of(alloc: Global, spec: &Funspec) -> Result<Prototype, AllocError>
    ensures { IfOk result (λ t. t ≡ specs.types_of spec.now) }
{
    let params = share_types(alloc, spec.params.as_slice())?;
    let ty = spec.result.share(alloc)?;
    Ok(Prototype { params, result: ty })
}

/// The types of a specification that is named.
fn typed_named_at(
    alloc: Global,
    items: &SpecItems,
    text: Text<'_>,
    at: u32,
) -> Result<(Prototype, u32), Halt>
    requires at { at ≤ length text.tokens.now.items }
    requires count { length text.tokens.now.items < 2 ^ 32 }
    ensures exact { Answers (λ x. x) (specs.typed_named text.entry.bytes.now text.entry.tokens.now items.now at) result }
{
    let (spec, behind) = named_spec_at(alloc, items, text, at)?;
    let types = types_of(alloc, spec.get())?;
    Ok((types, behind))
}

/// The types of a specification.
fn typed_given_at(
    alloc: Global,
    scope: &Scope<'_>,
    items: &SpecItems,
    text: Text<'_>,
    at: u32,
    takes_main: bool,
) -> Result<(Prototype, u32), Halt>
    requires at { at ≤ length text.tokens.now.items }
    requires count { length text.tokens.now.items < 2 ^ 32 }
    ensures exact { Answers (λ x. x) (specs.typed_given text.entry.bytes.now text.entry.tokens.now takes_main (outermost scope.now) items.now at) result }
{
    if leads_spec_word(text, at, SpecWord::Spec) {
        return typed_named_at(alloc, items, text, at);
    }
    typed_spec_at(alloc, scope, text, at, takes_main)
}

/// BY of an import, if it stands there, by the grammar alone.
fn import_by_at(alloc: Global, text: Text<'_>, at: u32) -> Result<u32, Halt>
    requires at { at ≤ length text.tokens.now.items }
    requires count { length text.tokens.now.items < 2 ^ 32 }
    ensures exact { Answers (λ n. (tt, n)) (specs.import_by text.entry.bytes.now text.entry.tokens.now at) result }
    ensures within { IfOk result (λ n. n ≤ length text.entry.tokens.now.items) }
{
    if leads_spec_word(text, at, SpecWord::By) {
        return written_by_at(alloc, text, at);
    }
    Ok(at)
}

/// What stands before the specification, by the grammar alone.
fn by_before_at(alloc: Global, text: Text<'_>, at: u32, standing: Standing) -> Result<u32, Halt>
    requires at { at ≤ length text.tokens.now.items }
    requires count { length text.tokens.now.items < 2 ^ 32 }
    ensures exact { Answers (λ n. (tt, n)) (specs.by_before text.entry.bytes.now text.entry.tokens.now standing at) result }
    ensures within { IfOk result (λ n. n ≤ length text.entry.tokens.now.items) }
{
    match standing {
        Standing::Plain => Ok(at),
        Standing::Import => import_by_at(alloc, text, at),
        Standing::Extern => Ok(at),
    }
}

/// The types of a declaration, from the token behind its name on.
pub(crate) fn typed_behind_at(
    alloc: Global,
    scope: &Scope<'_>,
    items: &SpecItems,
    text: Text<'_>,
    at: u32,
    written: Written<'_>,
) -> Result<(Prototype, u32), Halt>
    requires at { at ≤ length text.tokens.now.items }
    requires count { length text.tokens.now.items < 2 ^ 32 }
    ensures exact { Answers (λ x. x) (specs.typed_behind text.entry.bytes.now text.entry.tokens.now written.entry.standing written.entry.name.now (outermost scope.now) items.now at) result }
{
    let first = by_before_at(alloc, text, at, written.standing)?;
    let takes_main = is_main(&written.name.name);
    typed_given_at(alloc, scope, items, text, first, takes_main)
}
