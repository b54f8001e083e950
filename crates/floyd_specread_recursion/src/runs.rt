//! Tokens that are so, one after another.
ghost use Rattle.std.specs.Prelude.{◌≡◌, ◌≤◌, ◌<◌, ◌+◌, ◌-◌, ◌^◌, IsTrue, length};
ghost use Rattle.floyd_specread_recursion.specs.Structural as specs;
ghost use Rattle.floyd_termread_marks.specs.Marks as marks;
ghost use Rattle.floyd_termread_tokens.specs.Tokens.{is_mark};

use floyd_lex::Punctuator;
use floyd_predicates::is_before;
use floyd_termread_marks::leads_mark;
use floyd_termread_phrases::Text;
use floyd_termread_tokens::Reader;
use floyd_text::Place;

/// How often the mark stands from a token on.
pub(crate) fn marks_from(text: Text<'_>, at: u32, mark: Punctuator) -> u32
    requires at { at ≤ length text.tokens.now.items }
    requires count { length text.tokens.now.items < 2 ^ 32 }
    ensures value { result ≡ specs.run text.entry.bytes.now text.entry.tokens.now (is_mark mark) at }
    ensures within { at + result ≤ length text.entry.tokens.now.items }
{
    let mut next = at;
    'marks: while leads_mark(text, next, mark) {
        next += 1;
    }
    next - at
}

/// Whether a token stands there, before the place.
fn leads_before(text: Text<'_>, at: u32, place: Place) -> bool
    requires { at ≤ length text.tokens.now.items }
    ensures value { result ≡ marks.is_next text.entry.bytes.now text.entry.tokens.now (specs.stands_before place) at }
    ensures there { IsTrue result → at < length text.entry.tokens.now.items }
{
    if at as usize >= text.tokens.len() {
        return false;
    }
    match Reader::new(text.bytes, text.tokens, at as usize).peek() {
        Ok(token) => is_before(token.place(), place),
        Err(_) => false,
    }
}

/// The number of the first token from one on that does not stand before the place.
pub(crate) fn first_from(text: Text<'_>, at: u32, place: Place) -> u32
    requires at { at ≤ length text.tokens.now.items }
    requires count { length text.tokens.now.items < 2 ^ 32 }
    ensures value { result ≡ at + specs.run text.entry.bytes.now text.entry.tokens.now (specs.stands_before place) at }
    ensures within { result ≤ length text.entry.tokens.now.items }
    ensures from { at ≤ result }
{
    let mut next = at;
    'tokens: while leads_before(text, next, place) {
        next += 1;
    }
    next
}
