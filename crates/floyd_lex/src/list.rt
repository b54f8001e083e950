ghost use Rattle.std.specs.Prelude.{◌≡◌, ◌<◌, ◌≤◌, ◌-◌, ◌==◌, [], ◌++◌, length, take, drop, slice_get, option_map, IfOk, OnOk, OnErr, Some};
ghost use Rattle.floyd_lex.specs.Token.{Lexeme, text_of, with_last, empty_list, part_of};
ghost use Rattle.floyd_lex.specs.declared.list.Packed.{Packed};
ghost use Rattle.floyd_lex.specs.PackingClauses.{kind_of, IsWithin, Grows};

use crate::kinds::{Keyword, LiteralType, Punctuator, TokenKind};
use floyd_text::Place;
use std::alloc::{AllocError, Global};
use std::marker::Model;

/// What a token is, without a literal's value, which stands in its token where it has 32 bits at most, and else in a
/// list beside.
#[derive(Clone, Copy)]
enum Form {
    Name,
    Keyword(Keyword),
    Punctuator(Punctuator),
    Short(LiteralType),
    Long(LiteralType),
    StringLiteral,
}

/// A token in 24 bytes, with the line and the column of its first byte. `value` is the value of a short literal, and the
/// place of a long one's in the list beside.
#[derive(Clone, Copy)]
struct Packed {
    start: u32,
    end: u32,
    line: u32,
    column: u32,
    value: u32,
    form: Form,
}

const _: () = prove!(size_of::<Packed>() == 24);

/// The tokens of a file, or an unbroken part of them, in order, with the file's number. Contracts see the list of what
/// each token is, its span and its place; its text stands in the file's bytes, which are not kept here.
pub struct Tokens {
    file: u32,
    packed: Vec<Packed>,
    long: Vec<u128>,
}

impl Drop for Tokens {
    fn drop(self) {
        let Tokens {
            file: _,
            packed,
            long,
        } = self;
        drop(packed);
        drop(long);
    }
}

impl Model for Tokens {
    ghost use Rattle.floyd_lex.specs.Token.{TokenList};

    ghost Value = { TokenList };

    ghost use Rattle.floyd_lex.specs.PackingClauses.{lexemes_of, AreWithin};

    ghost view = { λ t. record { file = t.file; items = lexemes_of t.file t.long.items t.packed.items } };

    ghost invariant = { λ t. AreWithin t.long.items t.packed.items };
}

impl Tokens {
    pub(crate) fn new(alloc: Global, file: u32) -> Tokens
        ensures { result ≡ empty_list file }
    {
        Tokens {
            file,
            packed: Vec::new(alloc),
            long: Vec::new(alloc),
        }
    }

    /// Puts a token at the end, whose first byte stands on that line in that column. After an `Err` the list is as
    /// before.
    pub(crate) fn push(
        &mut self,
        kind: TokenKind,
        start: u32,
        end: u32,
        line: u32,
        column: u32,
    ) -> Result<(), AllocError>
        ensures ok { OnOk result (self.new ≡ with_last self.old record { kind = kind; start = start; end = end; place = record { file = self.old.file; line = line; column = column } }) }
        ensures err { OnErr result (self.new ≡ self.old) }
    {
        let (form, value) = form_of(&mut self.long, kind)?;
        self.packed.push(Packed {
            start,
            end,
            line,
            column,
            value,
            form,
        })?;
        Ok(())
    }

    /// Keeps so many tokens at most.
    pub(crate) fn truncate(&mut self, len: usize)
        ensures { self.new ≡ record { file = self.old.file; items = take len self.old.items } }
    {
        self.packed.truncate(len);
    }

    /// The tokens from `from` on, those before `to`, of the same file.
    pub fn part(&self, alloc: Global, from: usize, to: usize) -> Result<Tokens, AllocError>
        requires order { from ≤ to }
        requires within { to ≤ length self.now.items }
        ensures { IfOk result (λ part. part ≡ part_of self.now from to) }
    {
        let mut part = Tokens::new(alloc, self.file);
        let mut at = from;
        'each: while at < to {
            part.push_from(self, at)?;
            at += 1;
        }
        Ok(part)
    }

    /// Puts the token at `at` of the same file at the end.
    fn push_from(&mut self, other: &Tokens, at: usize) -> Result<(), AllocError>
        requires at { at < length other.now.items }
        requires file { self.old.file ≡ other.now.file }
        ensures ok { OnOk result ((x : Lexeme) → slice_get other.now.items at ≡ Some x → self.new ≡ with_last self.old x) }
    {
        let p = &other.packed[at];
        let kind = unpack(other.long.as_slice(), p);
        self.push(kind, p.start, p.end, p.line, p.column)
    }

    pub fn file(&self) -> u32
        ensures { result ≡ self.now.file }
    {
        self.file
    }

    pub fn len(&self) -> usize
        ensures { result ≡ length self.now.items }
    {
        self.packed.len()
    }

    pub fn is_empty(&self) -> bool
        ensures { result ≡ (length self.now.items == 0) }
    {
        self.packed.len() == 0
    }

    /// What the token at `at` is, and none behind the last.
    pub fn kind(&self, at: usize) -> Option<TokenKind>
        ensures { result ≡ option_map (λ x. x.kind) (slice_get self.now.items at) }
    {
        let Some(p) = self.packed.get(at) else {
            return None;
        };
        Some(unpack(self.long.as_slice(), p))
    }

    /// The text of the token at `at`, where the bytes are those of its file.
    pub fn text<'a>(&self, bytes: &'a [u8], at: usize) -> &'a [u8]
        requires { at < length self.now.items }
        ensures { option_map (text_of bytes.now) (slice_get self.now.items at) ≡ Some result.now }
    {
        let (start, end) = self.span(at);
        let end = bytes.len().min(end as usize);
        &bytes[end.min(start as usize)..end]
    }

    /// The span of the token at `at`: the offset of its first byte, and that behind its last.
    pub fn span(&self, at: usize) -> (u32, u32)
        requires { at < length self.now.items }
        ensures { option_map (λ x. (x.start, x.end)) (slice_get self.now.items at) ≡ Some result }
    {
        let p = &self.packed[at];
        (p.start, p.end)
    }

    /// The place of the first byte of the token at `at`.
    pub fn place(&self, at: usize) -> Place
        requires { at < length self.now.items }
        ensures { option_map (λ x. x.place) (slice_get self.now.items at) ≡ Some result }
    {
        let p = &self.packed[at];
        Place {
            file: self.file,
            line: p.line,
            column: p.column,
        }
    }
}

/// The form and the number of a token. A long value goes to the end of the list.
fn form_of(long: &mut Vec<u128>, kind: TokenKind) -> Result<(Form, u32), AllocError>
    ensures grows { Grows long.old.items long.new.items }
    ensures ok { IfOk result (λ r. (kind_of long.new.items r.0 r.1 ≡ kind) × IsWithin long.new.items r.0 r.1) }
{
    match kind {
        TokenKind::Name => Ok((Form::Name, 0)),
        TokenKind::Keyword(word) => Ok((Form::Keyword(word), 0)),
        TokenKind::Punctuator(mark) => Ok((Form::Punctuator(mark), 0)),
        TokenKind::Literal(of, value) if value < 1 << 32 => Ok((Form::Short(of), value as u32)),
        TokenKind::Literal(of, value) => {
            let at = long.len();
            if at > u32::MAX as usize {
                return Err(AllocError);
            }
            long.push(value)?;
            Ok((Form::Long(of), at as u32))
        }
        TokenKind::StringLiteral => Ok((Form::StringLiteral, 0)),
    }
}

/// What the token is, where the long values are given.
fn unpack(long: &[u128], p: &Packed) -> TokenKind
    ensures { result ≡ kind_of long.now p.now.form p.now.value }
{
    match p.form {
        Form::Name => TokenKind::Name,
        Form::Keyword(word) => TokenKind::Keyword(word),
        Form::Punctuator(mark) => TokenKind::Punctuator(mark),
        Form::Short(of) => TokenKind::Literal(of, p.value as u128),
        Form::Long(of) => TokenKind::Literal(of, long.get(p.value as usize).copied().unwrap_or(0)),
        Form::StringLiteral => TokenKind::StringLiteral,
    }
}
