//! Brackets that close.
ghost use Rattle.std.specs.Prelude.{◌≡◌, ◌≤◌, ◌<◌, ◌+◌, ◌-◌, ◌^◌, length};
ghost use Rattle.floyd_specread_recursion.specs.Structural as specs;
ghost use Rattle.floyd_termread_tokens.specs.SeenClauses.{token_at};

use floyd_lex::Punctuator;
use floyd_termread_phrases::Text;
use floyd_termread_tokens::{Reader, Seen};

/// The brackets that are open behind a token.
fn open_behind(token: &Seen<'_>, count: u32) -> u32
    requires { count < 2 ^ 32 - 1 }
    ensures value { result ≡ specs.open_behind token.now count }
    ensures within { result ≤ count + 1 }
{
    if token.is_mark(Punctuator::OpenParen) || token.is_mark(Punctuator::OpenBracket) {
        return count + 1;
    }
    if token.is_mark(Punctuator::CloseParen) || token.is_mark(Punctuator::CloseBracket) {
        return count.saturating_sub(1);
    }
    count
}

/// The same of the token of this number.
fn open_behind_at(text: Text<'_>, at: u32, count: u32) -> u32
    requires at { at < length text.tokens.now.items }
    requires small { count < 2 ^ 32 - 1 }
    ensures value { result ≡ specs.open_behind (token_at text.entry.bytes.now text.entry.tokens.now at) count }
    ensures within { result ≤ count + 1 }
{
    match Reader::new(text.bytes, text.tokens, at as usize).peek() {
        Ok(token) => open_behind(&token, count),
        Err(_) => count,
    }
}

/// Whether the bracket that opens at this token is closed before the token of that number.
pub(crate) fn is_closed(text: Text<'_>, at: u32, to: u32) -> bool
    requires at { at ≤ to }
    requires to { to ≤ length text.tokens.now.items }
    requires count { length text.tokens.now.items < 2 ^ 32 }
    ensures { result ≡ specs.is_closed text.entry.bytes.now text.entry.tokens.now to at }
{
    let mut count = 0;
    'tokens: for i in at..to {
        count = open_behind_at(text, i, count);
        if count == 0 {
            return true;
        }
    }
    false
}
