//! Specifications of functions, written out or named.
ghost use Rattle.std.specs.Prelude.{◌≡◌, ◌≤◌, ◌<◌, ◌^◌, IfOk, length};
ghost use Rattle.floyd_specread_declarations.specs.Declarations as specs;
ghost use Rattle.floyd_termread.specs.Brackets.{outermost};
ghost use Rattle.floyd_termread_phrases.specs.Reads.{Answers};

use crate::names::named_spec_at;
use floyd_assert_trees::Funspec;
use floyd_specread_specs::spec_at;
use floyd_specread_trees::SpecItems;
use floyd_specread_words::{SpecWord, leads_spec_word};
use floyd_termread_phrases::Text;
use floyd_termread_scope::Scope;
use floyd_text::{Halt, Shared};
use std::alloc::Global;

/// A specification that is written out.
fn written_given_at(
    alloc: Global,
    scope: &Scope<'_>,
    text: Text<'_>,
    at: u32,
    takes_main: bool,
) -> Result<((Shared<Funspec>, bool), u32), Halt>
    requires at { at ≤ length text.tokens.now.items }
    requires count { length text.tokens.now.items < 2 ^ 32 }
    ensures exact { Answers (λ x. x) (specs.written_given text.entry.bytes.now text.entry.tokens.now takes_main (outermost scope.now) at) result }
    ensures within { IfOk result (λ x. x.1 ≤ length text.entry.tokens.now.items) }
{
    let (written, behind) = spec_at(alloc, scope, text, at, takes_main)?;
    let (spec, main_pre) = written.funspec(alloc, None);
    let spec = Shared::new(alloc, spec)?;
    Ok(((spec, main_pre), behind))
}

/// One that is named.
fn named_given_at(
    alloc: Global,
    items: &SpecItems,
    text: Text<'_>,
    at: u32,
) -> Result<((Shared<Funspec>, bool), u32), Halt>
    requires at { at ≤ length text.tokens.now.items }
    requires count { length text.tokens.now.items < 2 ^ 32 }
    ensures exact { Answers (λ x. x) (specs.named_given text.entry.bytes.now text.entry.tokens.now items.now at) result }
    ensures within { IfOk result (λ x. x.1 ≤ length text.entry.tokens.now.items) }
{
    let (spec, behind) = named_spec_at(alloc, items, text, at)?;
    Ok(((spec, false), behind))
}

/// A specification, and whether its precondition is MAIN_PRE.
pub(crate) fn given_at(
    alloc: Global,
    scope: &Scope<'_>,
    items: &SpecItems,
    text: Text<'_>,
    at: u32,
    takes_main: bool,
) -> Result<((Shared<Funspec>, bool), u32), Halt>
    requires at { at ≤ length text.tokens.now.items }
    requires count { length text.tokens.now.items < 2 ^ 32 }
    ensures exact { Answers (λ x. x) (specs.given text.entry.bytes.now text.entry.tokens.now takes_main (outermost scope.now) items.now at) result }
    ensures within { IfOk result (λ x. x.1 ≤ length text.entry.tokens.now.items) }
{
    if leads_spec_word(text, at, SpecWord::Spec) {
        return named_given_at(alloc, items, text, at);
    }
    written_given_at(alloc, scope, text, at, takes_main)
}
