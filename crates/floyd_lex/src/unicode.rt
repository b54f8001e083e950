ghost use Rattle.std.specs.Prelude.{◌≡◌, ◌+◌, ◌<◌, ◌≤◌, length, slice_index, ◌||◌, IfSome};
ghost use Rattle.std.specs.Str.{continuation_len};
ghost use Rattle.floyd_lex.specs.Classes.{begins};
ghost use Rattle.floyd_lex.specs.Unicode as specs;

use crate::classes::{Class, byte_at, run};
use crate::kinds::{LiteralType, TokenKind};
use crate::lead::{Flaw, Lead};
use crate::numbers::{Base, value_of};
use unicode_ident::{is_xid_continue, is_xid_start};

/// The character at the front, and its number of bytes.
#[tactic(auto, unfolding(crate::specs::Unicode::char_at))]
pub fn char_at(bytes: &[u8]) -> Option<(char, usize)>
    ensures value { result ≡ specs.char_at bytes.now }
    ensures within { IfSome result (λ c. c.1 ≤ length bytes.now) }
    ensures some { IfSome result (λ c. 0 < c.1) }
{
    let n = width(bytes);
    if bytes.len() < n {
        return None;
    }
    match std::str::from_utf8(&bytes[..n]) {
        Ok(text) => match text.chars().next() {
            Some(c) => Some((c, n)),
            None => None,
        },
        Err(_) => None,
    }
}

/// How many bytes the first byte says that its character has.
fn width(bytes: &[u8]) -> usize
    ensures { result ≡ continuation_len (slice_index bytes.now 0) + 1 }
{
    match byte_at(bytes, 0) {
        0..=127 => 1,
        128..=223 => 2,
        224..=239 => 3,
        _ => 4,
    }
}

/// Whether a name begins.
pub fn starts_name(bytes: &[u8]) -> bool
    ensures { result ≡ specs.starts_name (specs.char_at bytes.now) }
{
    match char_at(bytes) {
        Some((c, _)) => is_xid_start(c) || c == '_',
        None => false,
    }
}

/// How many bytes the characters take that go on with a name.
pub fn name_len(bytes: &[u8]) -> usize
    ensures value { result ≡ specs.name_len bytes.now }
    ensures within { result ≤ length bytes.now }
{
    let mut n = 0;
    'each: while n < bytes.len() {
        let more = name_step(&bytes[n..]);
        if more == 0 {
            return n;
        }
        n += more;
    }
    n
}

/// How many bytes the character at the front has, where it goes on with a name, and else 0.
#[tactic(auto, unfolding(crate::specs::Unicode::name_step))]
fn name_step(bytes: &[u8]) -> usize
    ensures value { result ≡ specs.name_step bytes.now }
    ensures within { result ≤ length bytes.now }
{
    match char_at(bytes) {
        Some((c, n)) if is_xid_continue(c) || c == '\'' => n,
        _ => 0,
    }
}

/// A number of a specification or a script.
#[tactic(auto, unfolding(crate::specs::Unicode::plain_number))]
pub fn plain_number(bytes: &[u8]) -> Lead
    ensures { result ≡ specs.plain_number bytes.now }
{
    let n = run(Class::Decimal, bytes);
    let rest = &bytes[n..];
    let value = value_of(Base::Decimal, &bytes[..n]);
    if goes_on(rest) || value >= 1 << 126 {
        Lead::Bad(Flaw::BadNumber, 0)
    } else {
        Lead::Piece(TokenKind::Literal(LiteralType::Untyped, value), n)
    }
}

/// Whether a `.` or a character that goes on with a word stands at the front.
fn goes_on(bytes: &[u8]) -> bool
    ensures { result ≡ (begins "." bytes.now || specs.continues_word (specs.char_at bytes.now)) }
{
    match bytes {
        [b'.', ..] => true,
        _ => match char_at(bytes) {
            Some((c, _)) => is_xid_continue(c),
            None => false,
        },
    }
}
