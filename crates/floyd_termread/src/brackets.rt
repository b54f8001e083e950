//! Brackets that stand open.
ghost use Rattle.std.specs.Prelude.{◌≡◌, ◌≤◌, ◌<◌, ◌+◌, ◌-◌, ◌^◌};
ghost use Rattle.floyd_termread.specs.Brackets as specs;

use floyd_lex::{Punctuator, TokenKind, Tokens};
use floyd_termread_phrases::Spot;

/// How many brackets stand open behind a token, where so many do before it.
fn open_behind(count: u32, kind: TokenKind) -> u32
    requires { count < 2 ^ 32 - 1 }
    ensures value { result ≡ specs.open_behind count kind }
    ensures within { result ≤ count + 1 }
{
    match kind {
        TokenKind::Punctuator(Punctuator::OpenParen | Punctuator::OpenBracket) => count + 1,
        TokenKind::Punctuator(Punctuator::CloseParen | Punctuator::CloseBracket) => {
            count.saturating_sub(1)
        }
        _ => count,
    }
}

fn open_after(count: u32, kind: Option<TokenKind>) -> u32
    requires { count < 2 ^ 32 - 1 }
    ensures value { result ≡ specs.open_after count kind }
    ensures within { result ≤ count + 1 }
{
    match kind {
        Some(kind) => open_behind(count, kind),
        None => count,
    }
}

/// The brackets that stand open before the token of this number.
fn open_before(tokens: &Tokens, at: u32) -> u32
    ensures value { result ≡ specs.open_before tokens.now at }
{
    let mut count = 0;
    'tokens: for i in 0..at {
        count = open_after(count, tokens.kind(i as usize));
    }
    count
}

/// Where a phrase begins whose first token has this number.
pub(crate) fn spot_at(tokens: &Tokens, at: u32) -> Spot
    ensures depth { result.depth ≡ specs.open_before tokens.now at }
    ensures at { result.at ≡ at }
{
    let depth = open_before(tokens, at);
    Spot { at, depth }
}
