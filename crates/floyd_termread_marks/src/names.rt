//! Names.
ghost use Rattle.std.specs.Prelude.{◌≡◌, ◌≤◌, ◌<◌, ◌+◌, ◌^◌, IfOk, OnOk, length};
ghost use Rattle.floyd_termread_marks.specs.Marks as specs;
ghost use Rattle.floyd_termread_phrases.specs.Reads.{Answers};
ghost use Rattle.floyd_termread_tokens.specs.Tokens.{free_name, given_name};

use crate::marks::take;
use floyd_cparse_trees::Identifier;
use floyd_termread_phrases::{Spot, Text};
use floyd_termread_tokens::Reader;
use floyd_termread_trees::Word;
use floyd_text::Halt;
use std::alloc::{AllocError, Global};

/// Whether a word stands next with which a type begins.
pub fn leads_type(text: Text<'_>, at: u32) -> bool
    requires { at ≤ length text.tokens.now.items }
    ensures { result ≡ specs.is_next text.entry.bytes.now text.entry.tokens.now specs.begins_type at }
{
    match Reader::new(text.bytes, text.tokens, at as usize).peek() {
        Ok(token) => matches!(token.word(), Some(Word::Type(_))),
        Err(_) => false,
    }
}

/// The name that the next token is and that is no word.
fn free_name_at(alloc: Global, text: Text<'_>, at: u32) -> Result<Option<Identifier>, AllocError>
    requires { at ≤ length text.tokens.now.items }
    ensures { IfOk result (λ x. x ≡ specs.found_in free_name (specs.tokens_at text.entry.bytes.now text.entry.tokens.now at)) }
{
    match Reader::new(text.bytes, text.tokens, at as usize).peek() {
        Ok(token) => token.free_name(alloc),
        Err(_) => Ok(None),
    }
}

/// A name that is no word, which is to stand next, and the number of the token behind it. Else the refusal of what stands
/// there, as `take` has it.
pub fn take_free_name(alloc: Global, text: Text<'_>, spot: Spot) -> Result<(Identifier, u32), Halt>
    requires at { spot.at ≤ length text.tokens.now.items }
    requires count { length text.tokens.now.items < 2 ^ 32 }
    ensures exact { Answers (λ x. x) (specs.one text.entry.bytes.now text.entry.tokens.now spot.depth free_name spot.at) result }
    ensures behind { IfOk result (λ x. x.1 ≡ spot.at + 1) }
    ensures within { IfOk result (λ x. x.1 ≤ length text.entry.tokens.now.items) }
    ensures room { OnOk result (spot.depth ≤ 201) }
{
    let found = free_name_at(alloc, text, spot.at)?;
    take(text, spot, found)
}

/// The name of the source that the next token is, which may be a word.
pub fn given_name_at(
    alloc: Global,
    text: Text<'_>,
    at: u32,
) -> Result<Option<Identifier>, AllocError>
    requires { at ≤ length text.tokens.now.items }
    ensures { IfOk result (λ x. x ≡ specs.found_in given_name (specs.tokens_at text.entry.bytes.now text.entry.tokens.now at)) }
{
    match Reader::new(text.bytes, text.tokens, at as usize).peek() {
        Ok(token) => token.given_name(alloc),
        Err(_) => Ok(None),
    }
}
