ghost use Rattle.std.specs.Prelude.{◌≡◌, ◌+◌, ◌≤◌, length, drop, IfSome, option_map};
ghost use Rattle.floyd_lex.specs.Quotes as specs;

use crate::classes::{byte_at, is_word};
use crate::kinds::{LiteralType, TokenKind};
use crate::lead::{Flaw, Lead};

/// A character constant of C, from its `'` on.
#[tactic(auto, unfolding(crate::specs::Quotes::constant))]
pub fn constant(bytes: &[u8]) -> Lead
    ensures { result ≡ specs.constant bytes.now }
{
    match constant_of(bytes) {
        Some((_, n)) if goes_on(&bytes[n..]) => Lead::Bad(Flaw::BadNumber, 0),
        Some((c, n)) => Lead::Piece(TokenKind::Literal(LiteralType::Int, c as u128), n),
        None => Lead::Bad(Flaw::BadByte, 0),
    }
}

/// The character between two `'`, and the length of all.
fn constant_of(bytes: &[u8]) -> Option<(u8, usize)>
    ensures value { result ≡ specs.constant_of bytes.now }
    ensures within { IfSome result (λ c. c.1 ≤ length bytes.now) }
{
    let second = byte_at(bytes, 1);
    let third = byte_at(bytes, 2);
    if is_plain(second) && third == b'\'' {
        return Some((second, 3));
    }
    if second == b'\\' && byte_at(bytes, 3) == b'\'' {
        return match escape_of(third) {
            Some(c) => Some((c, 4)),
            None => None,
        };
    }
    None
}

fn is_plain(b: u8) -> bool
    ensures { result ≡ specs.is_plain b }
{
    matches!(b, 32..=126) && b != b'\'' && b != b'\\'
}

/// The character that a letter means behind a `\`.
fn escape_of(b: u8) -> Option<u8>
    ensures { result ≡ specs.escape_of b }
{
    match b {
        b'n' => Some(b'\n'),
        b't' => Some(b'\t'),
        b'r' => Some(b'\r'),
        b'0' => Some(0),
        b'\\' => Some(b'\\'),
        b'\'' => Some(b'\''),
        b'"' => Some(b'"'),
        _ => None,
    }
}

/// Whether a letter, a digit, `_` or `.` stands at the front.
fn goes_on(bytes: &[u8]) -> bool
    ensures { result ≡ specs.goes_on bytes.now }
{
    match bytes {
        [b, ..] => is_word(*b) || *b == b'.',
        [] => false,
    }
}

/// A string literal of C, from its `"` on.
#[tactic(auto, unfolding(crate::specs::Quotes::string))]
pub fn string(bytes: &[u8]) -> Lead
    ensures { result ≡ specs.string bytes.now }
{
    let rest = if bytes.is_empty() { bytes } else { &bytes[1..] };
    match string_len(rest) {
        Some(n) => Lead::Piece(TokenKind::StringLiteral, n + 1),
        None => Lead::Bad(Flaw::BadByte, 0),
    }
}

/// How many bytes there are up to the `"` that ends the literal, with it.
fn string_len(bytes: &[u8]) -> Option<usize>
    ensures value { result ≡ specs.string_len 34 bytes.now }
    ensures within { IfSome result (λ n. n ≤ length bytes.now) }
{
    let mut before = b'"';
    'each: for (at, b) in bytes.iter().enumerate() {
        if *b == b'\n' {
            return None;
        }
        if *b == b'"' && before != b'\\' {
            return Some(at + 1);
        }
        before = *b;
    }
    None
}
