//! Names of functions and of SPEC items.
ghost use Rattle.std.specs.Prelude.{◌≡◌, ◌≤◌, ◌<◌, ◌^◌, IfOk, bytes_eq, codes, length};
ghost use Rattle.floyd_specread_declarations.specs.Declarations as specs;
ghost use Rattle.floyd_termread_marks.specs.Marks as marks;
ghost use Rattle.floyd_termread_phrases.specs.Reads.{Answers};
ghost use Rattle.floyd_termread_tokens.specs.Tokens.{given_name};

use floyd_assert_trees::Funspec;
use floyd_cparse_trees::Identifier;
use floyd_specread_trees::SpecItems;
use floyd_specread_words::{SpecWord, take_spec_word};
use floyd_termread_marks::{given_name_at, take, take_free_name};
use floyd_termread_phrases::{Spot, Text};
use floyd_termread_wants::unknown;
use floyd_text::{Halt, Name, Shared};
use std::alloc::Global;

/// Whether the function is the program's first.
pub(crate) fn is_main(name: &Name) -> bool
    ensures { result ≡ bytes_eq name.now (codes "main") }
{
    name.as_slice() == "main".as_bytes()
}

/// The name of a function, which may be a word.
pub(crate) fn take_function_name(
    alloc: Global,
    text: Text<'_>,
    at: u32,
) -> Result<(Identifier, u32), Halt>
    requires at { at ≤ length text.tokens.now.items }
    requires count { length text.tokens.now.items < 2 ^ 32 }
    ensures exact { Answers (λ x. x) (marks.one text.entry.bytes.now text.entry.tokens.now 0 given_name at) result }
    ensures within { IfOk result (λ x. x.1 ≤ length text.entry.tokens.now.items) }
{
    let found = given_name_at(alloc, text, at)?;
    take(text, Spot { at, depth: 0 }, found)
}

/// `"SPEC" name`
pub(crate) fn named_spec_at(
    alloc: Global,
    items: &SpecItems,
    text: Text<'_>,
    at: u32,
) -> Result<(Shared<Funspec>, u32), Halt>
    requires at { at ≤ length text.tokens.now.items }
    requires count { length text.tokens.now.items < 2 ^ 32 }
    ensures exact { Answers (λ x. x) (specs.named_spec text.entry.bytes.now text.entry.tokens.now items.now at) result }
    ensures within { IfOk result (λ x. x.1 ≤ length text.entry.tokens.now.items) }
{
    let (_word, first) = take_spec_word(text, Spot { at, depth: 0 }, SpecWord::Spec)?;
    let (name, behind) = take_free_name(
        alloc,
        text,
        Spot {
            at: first,
            depth: 0,
        },
    )?;
    let Some(item) = items.get(&name.name) else {
        return Err(Halt::Refused(unknown(&name)?));
    };
    Ok((item.share()?, behind))
}
