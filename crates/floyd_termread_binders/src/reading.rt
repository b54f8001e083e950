//! Sorts and binders from the tokens of a file.
ghost use Rattle.std.specs.Prelude.{◌≡◌, ◌≤◌, ◌<◌, ◌-◌, ◌^◌, length};
ghost use Rattle.floyd_termread_binders.specs.Binders as specs;

use floyd_grammar::{Fault, Stop};
use floyd_lex::Tokens;
use floyd_termread_grammar::{refusal_before, refused_number};
use floyd_termread_sorts::{read_binders, read_sort};
use floyd_termread_tokens::Reader;
use floyd_termread_trees::{Binder, SortItem};
use floyd_text::{Halt, Refusal};
use sqlite_items::Items;
use std::alloc::Global;

/// A sort, from the token of this number on, and the number of the token behind it. `depth` is the number of the brackets
/// that are open before it. Or the refusal: 501 at the first token with which the tokens so far begin no sort, or at the
/// end of the file; there before it 302 where the token stands deeper than 200.
///
/// The tokens are those that `tokens` gives on these bytes of a specification or a script, or an unbroken part of them.
pub fn read_sort_at(
    alloc: Global,
    bytes: &[u8],
    tokens: &Tokens,
    at: u32,
    depth: u32,
) -> Result<(Items<SortItem>, u32), Halt>
    requires at { at ≤ length tokens.now.items }
    requires count { length tokens.now.items < 2 ^ 32 }
    ensures exact { specs.Answers (specs.IsSort bytes.now tokens.now at depth) result }
{
    let mut reader = Reader::new(bytes, tokens, at as usize);
    match read_sort(alloc, &mut reader, 201u32.saturating_sub(depth), 0) {
        Ok(sort) => {
            let next = tokens.len() - reader.left();
            Ok((sort, next as u32))
        }
        Err(Stop::Fault(fault)) => Err(Halt::Refused(refused(bytes, tokens, at as usize, fault))),
        Err(Stop::Memory) => Err(Halt::Memory),
    }
}

/// Binders, `name ":" sort { "," name ":" sort }`, from the token of this number on, as `read_sort_at` reads a sort. Two
/// of one name, and a name that is a word of specifications, are refused at the later name, with 501.
pub fn read_binders_at(
    alloc: Global,
    bytes: &[u8],
    tokens: &Tokens,
    at: u32,
    depth: u32,
) -> Result<(Items<Binder>, u32), Halt>
    requires at { at ≤ length tokens.now.items }
    requires count { length tokens.now.items < 2 ^ 32 }
    ensures exact { specs.Answers (specs.IsBinders bytes.now tokens.now at depth) result }
{
    let mut reader = Reader::new(bytes, tokens, at as usize);
    match read_binders(alloc, &mut reader, 200u32.saturating_sub(depth), 0, 0) {
        Ok(all) => {
            let next = tokens.len() - reader.left();
            Ok((all.items, next as u32))
        }
        Err(Stop::Fault(fault)) => Err(Halt::Refused(refused(bytes, tokens, at as usize, fault))),
        Err(Stop::Memory) => Err(Halt::Memory),
    }
}

/// The refusal of the tokens from `at` on.
fn refused(bytes: &[u8], tokens: &Tokens, at: usize, fault: Fault) -> Refusal
    requires { at ≤ length tokens.now.items }
    ensures { result ≡ specs.refusal_of bytes.now tokens.now at fault }
{
    let end = refused_number(tokens, at, fault);
    refusal_before(bytes, tokens, end, fault.cause)
}
