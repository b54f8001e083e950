//! One token, and for what cause it is refused.
ghost use Rattle.std.specs.Prelude.{◌≡◌, ◌<◌, ◌^◌, ◌≤◌, ◌+◌, ◌&&◌, pred, IfOk, slice_get, option_map};
ghost use Rattle.floyd_termread_tokens.specs.SeenClauses.{token_at, kind_or_cut};
ghost use Rattle.floyd_termread_tokens.specs.Words.{is_free};
ghost use Rattle.floyd_termread_tokens.specs.Tokens as t;
ghost use Rattle.floyd_cparse_tokens.specs.Tokens.{number};

use crate::words::{is_free, word_of};
use floyd_cparse_trees::Identifier;
use floyd_lex::{Keyword, Punctuator, TokenKind, Tokens};
use floyd_termread_trees::Word;
use floyd_text::{Name, Place};
use std::alloc::{AllocError, Global};
use std::marker::Model;

/// The causes for which a token is refused. Of two at one token the greater goes first.
pub const UNEXPECTED: u8 = 0;

pub const TOO_DEEP: u8 = 1;

/// A token, or the end of a text that is cut off.
pub struct Seen<'a> {
    bytes: &'a [u8],
    tokens: &'a Tokens,
    at: usize,
    kind: TokenKind,
}

impl<'a> Drop for Seen<'a> {
    fn drop(self) {
        let Seen {
            bytes: _,
            tokens: _,
            at: _,
            kind: _,
        } = self;
    }
}

impl<'a> Model for Seen<'a> {
    ghost use Rattle.std.specs.Prelude.{◌≡◌};
    ghost use Rattle.std.specs.Prelude.{slice_get};
    ghost use Rattle.std.specs.Option.{option_map};
    ghost use Rattle.floyd_lex.specs.Token.{Token};

    ghost Value = { Token };

    ghost use Rattle.floyd_termread_tokens.specs.SeenClauses.{token_at, kind_or_cut};

    ghost view = { λ s. token_at s.bytes.now s.tokens.now s.at };

    ghost invariant = { λ s. kind_or_cut (option_map (λ x. x.kind) (slice_get s.tokens.now.items s.at)) ≡ s.kind };
}

impl<'a> Seen<'a> {
    pub(crate) fn new(bytes: &'a [u8], tokens: &'a Tokens, at: usize, kind: TokenKind) -> Seen<'a>
        requires { kind_or_cut (option_map (λ x. x.kind) (slice_get tokens.now.items at)) ≡ kind }
        ensures { result ≡ token_at bytes.now tokens.now at }
    {
        Seen {
            bytes,
            tokens,
            at,
            kind,
        }
    }

    pub fn kind(&self) -> TokenKind
        ensures { result ≡ self.now.kind }
    {
        self.kind
    }

    pub fn text(&self) -> &'a [u8]
        ensures { result.now ≡ self.now.text }
    {
        if self.at >= self.tokens.len() {
            return &[];
        }
        self.tokens.text(self.bytes, self.at)
    }

    pub fn place(&self) -> Place
        ensures { result ≡ self.now.place }
    {
        if self.at >= self.tokens.len() {
            return Place {
                file: 0,
                line: 0,
                column: 0,
            };
        }
        self.tokens.place(self.at)
    }

    /// The text is cut off here.
    pub fn is_cut(&self) -> bool
        ensures { result ≡ t.is_cut self.now }
    {
        match self.kind() {
            TokenKind::Keyword(_) => true,
            _ => false,
        }
    }

    pub fn is_mark(&self, mark: Punctuator) -> bool
        ensures { result ≡ t.is_mark mark self.now }
    {
        match self.kind() {
            TokenKind::Punctuator(other) => other == mark,
            _ => false,
        }
    }

    pub fn is_name(&self) -> bool
        ensures { result ≡ t.is_name self.now }
    {
        match self.kind() {
            TokenKind::Name => true,
            _ => false,
        }
    }

    /// It is a name and no word.
    pub fn is_free_name(&self) -> bool
        ensures { result ≡ (t.is_name self.now && is_free self.now.text) }
    {
        self.is_name() && is_free(self.text())
    }

    /// The word that it is, if it is one.
    pub fn word(&self) -> Option<Word>
        ensures { result ≡ t.word_at self.now }
    {
        if self.is_name() {
            word_of(self.text())
        } else {
            None
        }
    }

    pub fn identifier(&self, alloc: Global) -> Result<Identifier, AllocError>
        ensures { IfOk result (λ x. x ≡ t.identifier_of self.now) }
    {
        Ok(Identifier {
            name: Name::from_slice(alloc, self.text())?,
            place: self.place(),
        })
    }

    /// A name of the source, which may be a word.
    pub fn given_name(&self, alloc: Global) -> Result<Option<Identifier>, AllocError>
        ensures { IfOk result (λ x. x ≡ t.given_name self.now) }
    {
        if self.is_name() {
            Ok(Some(self.identifier(alloc)?))
        } else {
            Ok(None)
        }
    }

    /// A name that is no word.
    pub fn free_name(&self, alloc: Global) -> Result<Option<Identifier>, AllocError>
        ensures { IfOk result (λ x. x ≡ t.free_name self.now) }
    {
        if self.is_free_name() {
            Ok(Some(self.identifier(alloc)?))
        } else {
            Ok(None)
        }
    }

    pub fn place_if(&self, holds: bool) -> Option<Place>
        ensures { result ≡ t.place_if holds self.now }
    {
        if holds { Some(self.place()) } else { None }
    }

    fn is_opening(&self) -> bool
        ensures { result ≡ t.is_opening self.now }
    {
        self.is_mark(Punctuator::OpenParen) || self.is_mark(Punctuator::OpenBracket)
    }

    fn is_closing(&self) -> bool
        ensures { result ≡ t.is_closing self.now }
    {
        self.is_mark(Punctuator::CloseParen) || self.is_mark(Punctuator::CloseBracket)
    }

    /// More counts before it than there is room for.
    pub fn is_deep(&self, room: u32, count: u64) -> bool
        requires { count < 2 ^ 40 }
        ensures { result ≡ t.is_deep room count self.now }
    {
        room as u64 + unit(self.is_closing()) < count + unit(self.is_opening())
    }

    /// For what it is refused where no room at all is left.
    pub fn without_room(&self, count: u64) -> u8
        ensures { result ≡ t.without_room count self.now }
    {
        if count < unit(self.is_closing()) {
            UNEXPECTED
        } else {
            TOO_DEEP
        }
    }

    /// For what it is refused that is not wanted.
    pub fn blame(&self, room: u32, count: u64) -> u8
        requires { count < 2 ^ 40 }
        ensures { result ≡ t.blame room count self.now }
    {
        if self.is_deep(room, count) {
            TOO_DEEP
        } else {
            UNEXPECTED
        }
    }

    /// What may stand here is taken unless it is too deep, and nothing else is blamed.
    pub fn offer<A: Drop>(&self, room: u32, count: u64, found: Option<A>) -> Result<A, u8>
        requires { count < 2 ^ 40 }
        ensures value { result ≡ t.offer room count self.now found }
        ensures room { IfOk result (λ _. count ≤ room + 1) }
    {
        match found {
            Some(_) if self.is_deep(room, count) => Err(TOO_DEEP),
            Some(value) => Ok(value),
            None => Err(UNEXPECTED),
        }
    }

    /// What must stand here is taken unless it is too deep, and everything else is blamed.
    pub fn demand<A: Drop>(&self, room: u32, count: u64, found: Option<A>) -> Result<A, u8>
        requires { count < 2 ^ 40 }
        ensures value { result ≡ t.demand room count self.now found }
        ensures room { IfOk result (λ _. count ≤ room + 1) }
    {
        match found {
            Some(_) if self.is_deep(room, count) => Err(TOO_DEEP),
            Some(value) => Ok(value),
            None => Err(self.blame(room, count)),
        }
    }
}

/// What a token is, and the end of a text that is cut off where there is none.
pub(crate) fn kind_of(kind: Option<TokenKind>) -> TokenKind
    ensures { result ≡ kind_or_cut kind }
{
    match kind {
        Some(kind) => kind,
        None => TokenKind::Keyword(Keyword::Goto),
    }
}

fn unit(holds: bool) -> u64
    ensures value { result ≡ number holds }
    ensures small { result ≤ 1 }
{
    if holds { 1 } else { 0 }
}

/// The room one bracket further in.
pub fn inside(room: u32) -> u32
    ensures { result ≡ pred room }
{
    if room == 0 { 0 } else { room - 1 }
}
