//! The first argument of a call.
ghost use Rattle.std.specs.Prelude.{◌≡◌, ◌≤◌, ◌<◌, ◌+◌, ◌^◌, ◌==◌, ◌&&◌, ◌||◌, IsTrue, nat_lt, bytes_eq, length};
ghost use Rattle.std.specs.List.{list_any};
ghost use Rattle.floyd_specread_recursion.specs.Structural as specs;
ghost use Rattle.floyd_termread_marks.specs.Marks as marks;

use crate::runs::marks_from;
use floyd_lex::Punctuator;
use floyd_termread_marks::leads_mark;
use floyd_termread_phrases::Text;
use floyd_termread_tokens::Reader;
use floyd_text::Name;

fn is_among(text: &[u8], names: &[Name]) -> bool
    ensures { result ≡ list_any (bytes_eq text.now) names.now }
{
    names.iter().any(|name| text == name.as_slice())
}

/// Whether one of these variables stands next.
fn leads_part(text: Text<'_>, at: u32, parts: &[Name]) -> bool
    requires { at ≤ length text.tokens.now.items }
    ensures value { result ≡ marks.is_next text.entry.bytes.now text.entry.tokens.now (specs.is_part parts.now) at }
    ensures there { IsTrue result → at < length text.entry.tokens.now.items }
{
    if at as usize >= text.tokens.len() {
        return false;
    }
    match Reader::new(text.bytes, text.tokens, at as usize).peek() {
        Ok(token) => token.is_name() && is_among(token.text(), parts),
        Err(_) => false,
    }
}

/// Whether so many parentheses close there, and the argument ends behind them.
fn ends_argument(text: Text<'_>, at: u32, count: u32) -> bool
    requires at { at ≤ length text.tokens.now.items }
    requires count { length text.tokens.now.items < 2 ^ 32 }
    ensures { result ≡ specs.ends_argument text.entry.bytes.now text.entry.tokens.now count at }
{
    let closing = marks_from(text, at, Punctuator::CloseParen);
    if count < closing {
        return true;
    }
    closing == count && leads_mark(text, at + count, Punctuator::Comma)
}

/// Whether the argument that begins there is one of these variables, alone or in parentheses.
pub(crate) fn is_on_part(text: Text<'_>, at: u32, parts: &[Name]) -> bool
    requires at { at ≤ length text.tokens.now.items }
    requires count { length text.tokens.now.items < 2 ^ 32 }
    ensures { result ≡ specs.is_on_part text.entry.bytes.now text.entry.tokens.now parts.now at }
{
    let count = marks_from(text, at, Punctuator::OpenParen);
    leads_part(text, at + count, parts) && ends_argument(text, at + count + 1, count)
}
