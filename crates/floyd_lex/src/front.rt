ghost use Rattle.std.specs.Prelude.{◌≡◌, ◌<◌, ◌≤◌, ◌+◌, length, drop, option_map, IfSome};
ghost use Rattle.floyd_lex.specs.Front as specs;

use crate::classes::{Class, byte_at, is_letter, is_white, run};
use crate::keywords::keyword_of;
use crate::kinds::{FileKind, TokenKind};
use crate::lead::{Flaw, Lead};
use crate::marks::{c_mark, other_mark};
use crate::numbers::c_number;
use crate::quotes::{constant, string};
use crate::unicode::{name_len, plain_number, starts_name};

/// What stands at the front of these bytes, behind those before.
#[tactic(auto, unfolding(crate::specs::Front::front))]
pub fn front(kind: FileKind, before: &[u8], bytes: &[u8]) -> Lead
    ensures { result ≡ specs.front kind before.now bytes.now }
{
    match bytes {
        [] => Lead::End,
        [b, ..] if is_white(*b) => Lead::Skip(1),
        [b'/', b'/', ..] => line_comment(kind, bytes),
        [b'/', b'*', ..] => comment(kind, bytes),
        [b, ..] => match kind {
            FileKind::Source => c_front(before, *b, bytes),
            _ => other_front(kind, *b, bytes),
        },
    }
}

/// A token of C, or a line marker.
#[tactic(auto, unfolding(crate::specs::Front::c_front))]
fn c_front(before: &[u8], b: u8, bytes: &[u8]) -> Lead
    ensures { result ≡ specs.c_front before.now b bytes.now }
{
    if is_letter(b) {
        word(bytes)
    } else if b.is_ascii_digit() {
        c_number(bytes)
    } else if b == b'\'' {
        constant(bytes)
    } else if b == b'"' {
        string(bytes)
    } else if is_marker(bytes) && line_is_blank(before) {
        Lead::Skip(run(Class::NoFeed, bytes))
    } else {
        c_mark(bytes)
    }
}

/// A token of a specification or of a script.
#[tactic(auto, unfolding(crate::specs::Front::other_front))]
fn other_front(kind: FileKind, b: u8, bytes: &[u8]) -> Lead
    ensures { result ≡ specs.other_front kind b bytes.now }
{
    if b.is_ascii_digit() {
        plain_number(bytes)
    } else if starts_name(bytes) {
        Lead::Piece(TokenKind::Name, name_len(bytes))
    } else {
        other_mark(kind, bytes)
    }
}

/// A name or a keyword of C.
#[tactic(auto, unfolding(crate::specs::Front::word))]
fn word(bytes: &[u8]) -> Lead
    ensures { result ≡ specs.word bytes.now }
{
    let n = run(Class::Word, bytes);
    match keyword_of(&bytes[..n]) {
        Some(k) => Lead::Piece(TokenKind::Keyword(k), n),
        None => Lead::Piece(TokenKind::Name, n),
    }
}

/// A comment from its `/*` on.
#[tactic(auto, unfolding(crate::specs::Front::comment))]
fn comment(kind: FileKind, bytes: &[u8]) -> Lead
    requires { 2 ≤ length bytes.now }
    ensures { result ≡ specs.comment kind bytes.now }
{
    match comment_len(&bytes[2..]) {
        Some(n) => comment_of(kind, n + 2, bytes),
        None => Lead::Bad(Flaw::OpenComment, 0),
    }
}

/// A comment from its `//` to the end of the line.
#[tactic(auto, unfolding(crate::specs::Front::line_comment))]
fn line_comment(kind: FileKind, bytes: &[u8]) -> Lead
    ensures { result ≡ specs.line_comment kind bytes.now }
{
    comment_of(kind, run(Class::NoFeed, bytes), bytes)
}

/// A comment of so many bytes, which are UTF-8 where the file is no source.
fn comment_of(kind: FileKind, n: usize, bytes: &[u8]) -> Lead
    requires { n ≤ length bytes.now }
    ensures { result ≡ specs.comment_of kind n bytes.now }
{
    if let FileKind::Source = kind {
        return Lead::Skip(n);
    }
    match std::str::from_utf8(&bytes[..n]) {
        Ok(_) => Lead::Skip(n),
        Err(e) => Lead::Bad(Flaw::BadByte, e.valid_up_to()),
    }
}

/// How many bytes there are up to the first `*/`, with it.
pub fn comment_len(bytes: &[u8]) -> Option<usize>
    ensures value { result ≡ specs.comment_len bytes.now }
    ensures within { IfSome result (λ n. n ≤ length bytes.now) }
{
    let mut n = 0;
    'each: while n < bytes.len() {
        if bytes[n] == b'*' && byte_at(bytes, n + 1) == b'/' {
            return Some(n + 2);
        }
        n += 1;
    }
    None
}

/// Whether the last line has nothing but blanks.
fn line_is_blank(before: &[u8]) -> bool
    ensures { result ≡ specs.line_is_blank before.now }
{
    let mut n = before.len();
    'back: while n > 0 && Class::Blank.has(before[n - 1]) {
        n -= 1;
    }
    n == 0 || before[n - 1] == b'\n'
}

/// Whether `#`, blanks and a digit stand at the front.
fn is_marker(bytes: &[u8]) -> bool
    ensures { result ≡ specs.is_marker bytes.now }
{
    match bytes {
        [b'#', rest @ ..] => {
            let n = run(Class::Blank, rest);
            0 < n && byte_at(rest, n).is_ascii_digit()
        }
        _ => false,
    }
}
