//! The names of GLOBALS.
ghost use Rattle.std.specs.Prelude.{◌≡◌, ◌≤◌, ◌<◌, ◌+◌, ◌^◌, [], IfOk, length};
ghost use Rattle.floyd_lex.specs.declared.kinds.Punctuator.TheVariants as p;
ghost use Rattle.floyd_specread_specs.specs.Names.{any_name};
ghost use Rattle.floyd_specread_specs.specs.Specifications as specs;
ghost use Rattle.floyd_termread_marks.specs.Lists as lists;
ghost use Rattle.floyd_termread_marks.specs.Marks as marks;
ghost use Rattle.floyd_termread_phrases.specs.Reads.{Answers};

use floyd_assert_trees::NameList;
use floyd_lex::Punctuator;
use floyd_specread_words::{SpecWord, take_spec_word};
use floyd_termread_marks::{leads_mark, take, take_before, take_mark};
use floyd_termread_phrases::{Spot, Text};
use floyd_termread_tokens::Reader;
use floyd_text::{Halt, Name};
use sqlite_items::Items;
use std::alloc::{AllocError, Global};

/// The name that the next token is, which may be a word.
fn name_at(alloc: Global, text: Text<'_>, at: u32) -> Result<Option<Name>, AllocError>
    requires { at ≤ length text.tokens.now.items }
    ensures { IfOk result (λ x. x ≡ marks.found_in any_name (marks.tokens_at text.entry.bytes.now text.entry.tokens.now at)) }
{
    match Reader::new(text.bytes, text.tokens, at as usize).peek() {
        Ok(token) => {
            if token.is_name() {
                Ok(Some(Name::from_slice(alloc, token.text())?))
            } else {
                Ok(None)
            }
        }
        Err(_) => Ok(None),
    }
}

/// A name in parentheses.
fn take_name(alloc: Global, text: Text<'_>, at: u32) -> Result<(Name, u32), Halt>
    requires at { at ≤ length text.tokens.now.items }
    requires count { length text.tokens.now.items < 2 ^ 32 }
    ensures exact { Answers (λ x. x) (marks.one text.entry.bytes.now text.entry.tokens.now 1 any_name at) result }
    ensures behind { IfOk result (λ x. x.1 ≡ at + 1) }
    ensures within { IfOk result (λ x. x.1 ≤ length text.entry.tokens.now.items) }
{
    let found = name_at(alloc, text, at)?;
    take(text, Spot { at, depth: 1 }, found)
}

/// A name behind others, with the mark before it.
fn next_name(alloc: Global, text: Text<'_>, at: u32, names: &[Name]) -> Result<(Name, u32), Halt>
    requires at { at ≤ length text.tokens.now.items }
    requires count { length text.tokens.now.items < 2 ^ 32 }
    ensures exact { Answers (λ x. x) (lists.next_item text.entry.bytes.now text.entry.tokens.now 1 p.Semicolon (specs.global_behind text.entry.bytes.now text.entry.tokens.now) names.now at) result }
    ensures from { IfOk result (λ x. at + 1 ≤ x.1) }
    ensures within { IfOk result (λ x. x.1 ≤ length text.entry.tokens.now.items) }
{
    let first = take_before(
        text,
        Spot { at, depth: 1 },
        Punctuator::Semicolon,
        names.len(),
    )?;
    take_name(alloc, text, first)
}

/// The names up to the end of their list.
fn more_names(alloc: Global, text: Text<'_>, at: u32) -> Result<(NameList, u32), Halt>
    requires at { at ≤ length text.tokens.now.items }
    requires count { length text.tokens.now.items < 2 ^ 32 }
    ensures exact { Answers (λ x. x) (lists.Listed text.entry.bytes.now text.entry.tokens.now 1 p.Semicolon (specs.global_behind text.entry.bytes.now text.entry.tokens.now) [] at) result }
    ensures within { IfOk result (λ x. x.1 ≤ length text.entry.tokens.now.items) }
{
    let mut next = at;
    let mut names = Items::new(alloc);
    'each: while !leads_mark(text, next, Punctuator::CloseParen) {
        let (name, behind) = next_name(alloc, text, next, names.as_slice())?;
        names.push(name)?;
        next = behind;
    }
    Ok((names, next + 1))
}

/// The names in parentheses.
fn names_at(alloc: Global, text: Text<'_>, at: u32) -> Result<(NameList, u32), Halt>
    requires at { at ≤ length text.tokens.now.items }
    requires count { length text.tokens.now.items < 2 ^ 32 }
    ensures exact { Answers (λ x. x) (specs.global_names text.entry.bytes.now text.entry.tokens.now at) result }
    ensures within { IfOk result (λ x. x.1 ≤ length text.entry.tokens.now.items) }
{
    let (_open, first) = take_mark(text, Spot { at, depth: 0 }, Punctuator::OpenParen)?;
    more_names(alloc, text, first)
}

/// `"GLOBALS" names`
pub(crate) fn globals_at(alloc: Global, text: Text<'_>, at: u32) -> Result<(NameList, u32), Halt>
    requires at { at ≤ length text.tokens.now.items }
    requires count { length text.tokens.now.items < 2 ^ 32 }
    ensures exact { Answers (λ x. x) (specs.globals text.entry.bytes.now text.entry.tokens.now at) result }
    ensures within { IfOk result (λ x. x.1 ≤ length text.entry.tokens.now.items) }
{
    let (_word, first) = take_spec_word(text, Spot { at, depth: 0 }, SpecWord::Globals)?;
    names_at(alloc, text, first)
}
