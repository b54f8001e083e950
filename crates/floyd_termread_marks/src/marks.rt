//! Marks, and what is found in one token.
ghost use Rattle.std.specs.Prelude.{◌≡◌, ◌≤◌, ◌<◌, ◌+◌, ◌^◌, IfOk, IsTrue, OnOk, length};
ghost use Rattle.floyd_termread_marks.specs.Lists as lists;
ghost use Rattle.floyd_termread_marks.specs.Marks as specs;
ghost use Rattle.floyd_termread_phrases.specs.Reads.{Answers};
ghost use Rattle.floyd_termread_tokens.specs.Tokens.{is_mark};

use floyd_lex::Punctuator;
use floyd_termread_grammar::refusal_before;
use floyd_termread_phrases::{Spot, Text};
use floyd_termread_tokens::{Reader, UNEXPECTED};
use floyd_text::{Halt, Place};

/// How many brackets may be open.
const MOST_OPEN: u32 = 200;

/// What was found in the next token, and the number of the token behind it. Where nothing was, and at the end of the file,
/// the token is refused with 501; one that stands deeper than 200 is always refused, with 302.
pub fn take<A: Drop>(text: Text<'_>, spot: Spot, found: Option<A>) -> Result<(A, u32), Halt>
    requires at { spot.at ≤ length text.tokens.now.items }
    requires count { length text.tokens.now.items < 2 ^ 32 }
    ensures exact { Answers (λ x. x) (specs.taking text.entry.bytes.now text.entry.tokens.now spot.depth found spot.at) result }
    ensures behind { IfOk result (λ x. x.1 ≡ spot.at + 1) }
    ensures within { IfOk result (λ x. x.1 ≤ length text.entry.tokens.now.items) }
    ensures room { OnOk result (spot.depth ≤ 201) }
{
    let at = spot.at as usize;
    if at >= text.tokens.len() {
        let refusal = refusal_before(text.bytes, text.tokens, at, UNEXPECTED);
        return Err(Halt::Refused(refusal));
    }
    match Reader::new(text.bytes, text.tokens, at).peek() {
        Ok(token) => match token.demand(MOST_OPEN, spot.depth as u64, found) {
            Ok(value) => Ok((value, spot.at + 1)),
            Err(cause) => {
                let refusal = refusal_before(text.bytes, text.tokens, at, cause);
                Err(Halt::Refused(refusal))
            }
        },
        Err(_) => {
            let refusal = refusal_before(text.bytes, text.tokens, at, UNEXPECTED);
            Err(Halt::Refused(refusal))
        }
    }
}

/// Whether the mark stands next.
pub fn leads_mark(text: Text<'_>, at: u32, mark: Punctuator) -> bool
    requires { at ≤ length text.tokens.now.items }
    ensures value { result ≡ specs.is_next text.entry.bytes.now text.entry.tokens.now (is_mark mark) at }
    ensures there { IsTrue result → at < length text.entry.tokens.now.items }
{
    if at as usize >= text.tokens.len() {
        return false;
    }
    Reader::new(text.bytes, text.tokens, at as usize).leads_mark(mark)
}

/// The place of the next token, where it is the mark.
fn mark_place(text: Text<'_>, at: u32, mark: Punctuator) -> Option<Place>
    requires { at ≤ length text.tokens.now.items }
    ensures { result ≡ specs.found_in (specs.mark_place mark) (specs.tokens_at text.entry.bytes.now text.entry.tokens.now at) }
{
    match Reader::new(text.bytes, text.tokens, at as usize).peek() {
        Ok(token) => token.place_if(token.is_mark(mark)),
        Err(_) => None,
    }
}

/// The place of a mark, which is to stand next, and the number of the token behind it. Else the refusal of what stands
/// there, as `take` has it.
pub fn take_mark(text: Text<'_>, spot: Spot, mark: Punctuator) -> Result<(Place, u32), Halt>
    requires at { spot.at ≤ length text.tokens.now.items }
    requires count { length text.tokens.now.items < 2 ^ 32 }
    ensures exact { Answers (λ x. x) (specs.mark text.entry.bytes.now text.entry.tokens.now spot.depth mark spot.at) result }
    ensures behind { IfOk result (λ x. x.1 ≡ spot.at + 1) }
    ensures within { IfOk result (λ x. x.1 ≤ length text.entry.tokens.now.items) }
    ensures room { OnOk result (spot.depth ≤ 201) }
{
    let found = mark_place(text, spot.at, mark);
    take(text, spot, found)
}

/// The number of the token with which an item of a list begins that has so many before it: the first begins at once, and
/// each other behind a mark.
pub fn take_before(
    text: Text<'_>,
    spot: Spot,
    between: Punctuator,
    count: usize,
) -> Result<u32, Halt>
    requires at { spot.at ≤ length text.tokens.now.items }
    requires count { length text.tokens.now.items < 2 ^ 32 }
    ensures exact { Answers (λ n. (tt, n)) (lists.before_item text.entry.bytes.now text.entry.tokens.now spot.depth between count spot.at) result }
    ensures from { IfOk result (λ n. spot.at + 1 ≤ n + lists.first_only count) }
    ensures within { IfOk result (λ n. n ≤ length text.entry.tokens.now.items) }
{
    if count == 0 {
        return Ok(spot.at);
    }
    let (_place, behind) = take_mark(text, spot, between)?;
    Ok(behind)
}

/// The place of the next token, where there is one.
pub fn first_place(text: Text<'_>, at: u32) -> Place
    requires { at ≤ length text.tokens.now.items }
    ensures { result ≡ specs.place_at text.entry.bytes.now text.entry.tokens.now at }
{
    match Reader::new(text.bytes, text.tokens, at as usize).peek() {
        Ok(token) => token.place(),
        Err(_) => Place {
            file: 0,
            line: 0,
            column: 0,
        },
    }
}
