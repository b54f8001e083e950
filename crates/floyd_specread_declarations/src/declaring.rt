//! Declarations behind their names.
ghost use Rattle.std.specs.Prelude.{◌≡◌, ◌≤◌, ◌<◌, ◌^◌, IfOk, length};
ghost use Rattle.floyd_specread_declarations.specs.Declarations as specs;
ghost use Rattle.floyd_termread.specs.Brackets.{outermost};
ghost use Rattle.floyd_termread_phrases.specs.Reads.{Answers};

use crate::by::by_at;
use crate::given::given_at;
use crate::names::is_main;
use crate::standing::Standing;
use floyd_cparse_trees::Identifier;
use floyd_lex::Punctuator;
use floyd_specread_trees::{Declaration, DeclarationKind, SpecItems};
use floyd_specread_words::{SpecWord, leads_spec_word};
use floyd_termread_marks::take_mark;
use floyd_termread_phrases::{Spot, Text};
use floyd_termread_scope::Scope;
use floyd_text::Halt;
use std::alloc::Global;

/// How a declaration is written up to its name, with it.
#[derive(Clone, Copy)]
pub(crate) struct Written<'a> {
    pub(crate) standing: Standing,
    pub(crate) name: &'a Identifier,
}

/// The kind of an import.
fn import_kind_at(
    alloc: Global,
    scope: &Scope<'_>,
    items: &SpecItems,
    text: Text<'_>,
    at: u32,
) -> Result<(DeclarationKind, u32), Halt>
    requires at { at ≤ length text.tokens.now.items }
    requires count { length text.tokens.now.items < 2 ^ 32 }
    ensures exact { Answers (λ x. x) (specs.import_kind text.entry.bytes.now text.entry.tokens.now (outermost scope.now) items.now at) result }
    ensures within { IfOk result (λ x. x.1 ≤ length text.entry.tokens.now.items) }
{
    if !leads_spec_word(text, at, SpecWord::By) {
        return Ok((DeclarationKind::Import, at));
    }
    let (by, behind) = by_at(alloc, scope, items, text, at)?;
    Ok((DeclarationKind::ImportBy(by), behind))
}

/// The kind of a declaration.
fn kind_at(
    alloc: Global,
    scope: &Scope<'_>,
    items: &SpecItems,
    text: Text<'_>,
    at: u32,
    standing: Standing,
) -> Result<(DeclarationKind, u32), Halt>
    requires at { at ≤ length text.tokens.now.items }
    requires count { length text.tokens.now.items < 2 ^ 32 }
    ensures exact { Answers (λ x. x) (specs.kind text.entry.bytes.now text.entry.tokens.now standing (outermost scope.now) items.now at) result }
    ensures within { IfOk result (λ x. x.1 ≤ length text.entry.tokens.now.items) }
{
    match standing {
        Standing::Plain => Ok((DeclarationKind::Plain, at)),
        Standing::Import => import_kind_at(alloc, scope, items, text, at),
        Standing::Extern => Ok((DeclarationKind::Extern, at)),
    }
}

/// A declaration behind its name.
pub(crate) fn behind_name_at(
    alloc: Global,
    scope: &Scope<'_>,
    items: &SpecItems,
    text: Text<'_>,
    at: u32,
    written: Written<'_>,
) -> Result<(Declaration, u32), Halt>
    requires at { at ≤ length text.tokens.now.items }
    requires count { length text.tokens.now.items < 2 ^ 32 }
    ensures exact { Answers (λ x. x) (specs.behind_name text.entry.bytes.now text.entry.tokens.now written.entry.standing written.entry.name.now (outermost scope.now) items.now at) result }
    ensures within { IfOk result (λ x. x.1 ≤ length text.entry.tokens.now.items) }
{
    let (kind, first) = kind_at(alloc, scope, items, text, at, written.standing)?;
    let takes_main = is_main(&written.name.name);
    let ((spec, main_pre), second) = given_at(alloc, scope, items, text, first, takes_main)?;
    let (_end, behind) = take_mark(
        text,
        Spot {
            at: second,
            depth: 0,
        },
        Punctuator::Semicolon,
    )?;
    let name = written.name.name.share()?;
    let declaration = Declaration {
        kind,
        name,
        place: written.name.place,
        spec,
        main_pre,
    };
    Ok((declaration, behind))
}
