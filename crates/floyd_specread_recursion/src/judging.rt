//! Calls that are judged.
ghost use Rattle.std.specs.Prelude.{◌≡◌, ◌≤◌, ◌<◌, ◌+◌, ◌^◌, IfOk, IfSome, length};
ghost use Rattle.floyd_specread_recursion.specs.JudgedClauses as clauses;
ghost use Rattle.floyd_specread_recursion.specs.Structural as specs;
ghost use Rattle.floyd_text.specs.Gives.{Gives};

use crate::arguments::is_on_part;
use crate::brackets::is_closed;
use crate::runs::first_from;
use floyd_cparse_trees::Identifier;
use floyd_predicates::not_structural;
use floyd_specread_words::is_call;
use floyd_termread_marks::first_place;
use floyd_termread_phrases::Text;
use floyd_text::{Halt, Name};

/// Whether a call of the name begins there that is closed before the token of that number and is on none of these parts.
fn is_wrong(text: Text<'_>, at: u32, own: &Name, parts: &[Name], to: u32) -> bool
    requires at { at < to }
    requires to { to ≤ length text.tokens.now.items }
    requires count { length text.tokens.now.items < 2 ^ 32 }
    ensures { result ≡ specs.is_wrong text.entry.bytes.now text.entry.tokens.now own.now parts.now to at }
{
    if !is_call(text, at, own) {
        return false;
    }
    is_closed(text, at + 1, to) && !is_on_part(text, at + 2, parts)
}

/// The number of the first such token from one on.
fn wrong_from(text: Text<'_>, from: u32, own: &Name, parts: &[Name], to: u32) -> Option<u32>
    requires from { from ≤ to }
    requires to { to ≤ length text.tokens.now.items }
    requires count { length text.tokens.now.items < 2 ^ 32 }
    ensures value { result ≡ specs.wrong_from text.entry.bytes.now text.entry.tokens.now own.now parts.now to from }
    ensures there { IfSome result (λ n. n < length text.entry.tokens.now.items) }
{
    'tokens: for i in from..to {
        if is_wrong(text, i, own, parts, to) {
            return Some(i);
        }
    }
    None
}

/// Refuses the first wrong call that was read between two tokens.
fn judge_calls(
    text: Text<'_>,
    own: &Identifier,
    parts: &[Name],
    start: u32,
    end: u32,
) -> Result<(), Halt>
    requires start { start ≤ end }
    requires end { end ≤ length text.tokens.now.items }
    requires count { length text.tokens.now.items < 2 ^ 32 }
    ensures exact { Gives (λ u. u) result (clauses.refused_call text.entry.bytes.now text.entry.tokens.now own.now (specs.wrong_from text.entry.bytes.now text.entry.tokens.now own.now.name parts.now end start)) }
{
    match wrong_from(text, start, &own.name, parts, end) {
        Some(at) => Err(Halt::Refused(not_structural(first_place(text, at), &own.name)?)),
        None => Ok(()),
    }
}

/// Refuses the first wrong call in what was read, up to its end or to the token that was refused.
fn judge_read<A: Drop>(
    text: Text<'_>,
    own: &Identifier,
    parts: &[Name],
    start: u32,
    read: &Result<(A, u32), Halt>,
) -> Result<(), Halt>
    requires start { start ≤ length text.tokens.now.items }
    requires from { IfOk read.now (λ x. start ≤ x.1) }
    requires within { IfOk read.now (λ x. x.1 ≤ length text.tokens.now.items) }
    requires count { length text.tokens.now.items < 2 ^ 32 }
    ensures exact { clauses.CallsJudged text.entry.bytes.now text.entry.tokens.now own.now parts.now start read.now result }
{
    match read {
        Ok((_, next)) => judge_calls(text, own, parts, start, *next),
        Err(Halt::Refused(refusal)) => {
            let end = first_from(text, start, refusal.place);
            judge_calls(text, own, parts, start, end)
        }
        Err(Halt::Memory) => Ok(()),
    }
}

/// What was read from a token on, unless an item's call of itself in it is on none of these variables: it is refused at its
/// name with 511. A call counts that is closed before the token behind what was read, or before the one that was refused.
pub fn structural<A: Drop>(
    text: Text<'_>,
    own: &Identifier,
    parts: &[Name],
    start: u32,
    read: Result<(A, u32), Halt>,
) -> Result<(A, u32), Halt>
    requires start { start ≤ length text.tokens.now.items }
    requires from { IfOk read (λ x. start ≤ x.1) }
    requires within { IfOk read (λ x. x.1 ≤ length text.tokens.now.items) }
    requires count { length text.tokens.now.items < 2 ^ 32 }
    ensures exact { clauses.IsJudged text.entry.bytes.now text.entry.tokens.now own.now parts.now start read result }
    ensures from { IfOk result (λ x. start ≤ x.1) }
    ensures within { IfOk result (λ x. x.1 ≤ length text.entry.tokens.now.items) }
{
    judge_read(text, own, parts, start, &read)?;
    read
}
