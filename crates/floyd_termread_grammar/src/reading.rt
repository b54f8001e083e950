//! Terms, formulas, types and paths from the tokens of a file.
ghost use Rattle.std.specs.Prelude.{◌≡◌, ◌≤◌, ◌<◌, ◌-◌, ◌^◌, IfOk, length};
ghost use Rattle.floyd_termread_grammar.specs.Reading as specs;
ghost use Rattle.floyd_termread_tokens.specs.SeenClauses.{tokens_from};

use crate::read_terms::read_nested;
use crate::values::Passage;
use floyd_grammar::{Fault, Stop};
use floyd_lex::Tokens;
use floyd_termread_tables::Want;
use floyd_termread_tokens::{Reader, UNEXPECTED};
use floyd_termread_trees::Written;
use floyd_text::{Code, Refusal, Shown, place_of};
use std::alloc::{AllocError, Global};

/// How often the end of a text that is cut off may stand for something.
const CUT_COUNT: usize = 4294967296;

/// What is wanted, from the token of this number on, and the number of the token behind it. `depth` is the number of the
/// brackets that are open before it.
///
/// Where it does not read, what is written up to the first token with which the tokens so far begin nothing that reads, or
/// up to the end of the file; and the refusal there, which is 501, or 302 where that token stands deeper than 200. Names and
/// sorts may have an earlier one in that tree.
///
/// The tokens are those that `tokens` gives on these bytes of a specification or a script, or an unbroken part of them.
pub fn read_written(
    alloc: Global,
    bytes: &[u8],
    tokens: &Tokens,
    at: u32,
    depth: u32,
    want: Want,
) -> Result<Passage, AllocError>
    requires at { at ≤ length tokens.now.items }
    requires count { length tokens.now.items < 2 ^ 32 }
    ensures exact { IfOk result (λ x. specs.IsRead bytes.now tokens.now at depth want x.tree x.end) }
{
    let mut reader = Reader::new(bytes, tokens, at as usize);
    match read_nested(alloc, &mut reader, room_at(depth), want, 0) {
        Ok(read) => {
            let next = tokens.len() - reader.left();
            Ok(Passage {
                tree: read.tree,
                end: Ok(next as u32),
            })
        }
        Err(Stop::Fault(fault)) => {
            let end = refused_number(tokens, at as usize, fault);
            let mut front = Reader::cut_off(bytes, tokens, at as usize, end, CUT_COUNT);
            let tree = read_front(alloc, &mut front, depth, want)?;
            Ok(Passage {
                tree,
                end: Err(refusal_before(bytes, tokens, end, fault.cause)),
            })
        }
        Err(Stop::Memory) => Err(AllocError),
    }
}

/// The room that so many open brackets leave, of the 200 that may be open.
fn room_at(depth: u32) -> u32
    ensures { result ≡ 201 - depth }
{
    201u32.saturating_sub(depth)
}

/// What is wanted, of a text that is cut off.
fn read_front(
    alloc: Global,
    reader: &mut Reader<'_>,
    depth: u32,
    want: Want,
) -> Result<Written, AllocError>
    ensures exact { IfOk result (λ tree. specs.IsFront depth want reader.old tree) }
{
    match read_nested(alloc, reader, room_at(depth), want, 0) {
        Ok(read) => Ok(read.tree),
        Err(Stop::Fault(_)) => Ok(Written::Missing),
        Err(Stop::Memory) => Err(AllocError),
    }
}

/// The number of the token at which those from `at` on are refused.
pub fn refused_number(tokens: &Tokens, at: usize, fault: Fault) -> usize
    requires { at ≤ length tokens.now.items }
    ensures exact { result ≡ specs.refused_number tokens.now at fault }
    ensures from { at ≤ result }
    ensures within { result ≤ length tokens.now.items }
{
    at + (tokens.len() - at).saturating_sub(fault.left)
}

/// The refusal at the token of number `end`, or at the end of the file.
pub fn refusal_before(bytes: &[u8], tokens: &Tokens, end: usize, cause: u8) -> Refusal
    ensures { result ≡ specs.refusal_before tokens.now.file bytes.now (tokens_from bytes.now tokens.now end) cause }
{
    if end >= tokens.len() {
        let place = place_of(tokens.file(), bytes, bytes.len());
        return Refusal::at(Code::UnexpectedInSpec, place, Shown::Nothing);
    }
    Refusal::at(code_of(cause), tokens.place(end), Shown::Nothing)
}

/// The code of a refusal for that cause.
fn code_of(cause: u8) -> Code
    ensures { result ≡ specs.code_of cause }
{
    if cause == UNEXPECTED {
        Code::UnexpectedInSpec
    } else {
        Code::TooDeep
    }
}
