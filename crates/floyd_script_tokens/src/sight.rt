//! One token with its number, and what it is read as.
ghost use Rattle.std.specs.Prelude.{◌≡◌, ◌<◌, ◌^◌, ◌==◌, slice_index, IfOk};
ghost use Rattle.floyd_script_tokens.specs.Heads as h;
ghost use Rattle.floyd_script_tokens.specs.Sights as s;
ghost use Rattle.floyd_script_tokens.specs.SightClauses.{HasRoom};

use crate::heads::{Head, Opening};
use floyd_cparse_trees::Identifier;
use floyd_lex::{Punctuator, TokenKind};
use floyd_script_trees::rule_of;
use floyd_termread_tokens::{Seen, is_hypothesis};
use floyd_text::Place;
use std::alloc::{AllocError, Global};
use std::marker::Model;

/// The causes for which a token is refused. Of two at one token the greater goes first.
pub const UNEXPECTED: u8 = 0;

/// A name where a command may begin that is none.
pub const UNKNOWN: u8 = 1;

pub const TOO_DEEP: u8 = 2;

/// A token with its number.
pub struct Sight<'a> {
    token: Seen<'a>,
    at: usize,
}

impl<'a> Drop for Sight<'a> {
    fn drop(self) {
        let Sight { token, at: _ } = self;
        drop(token);
    }
}

impl<'a> Model for Sight<'a> {
    ghost use Rattle.std.specs.Prelude.{◌<◌, ◌^◌};
    ghost use Rattle.floyd_script_tokens.specs.Sights.{Sight as Plain};

    ghost Value = { Plain };

    ghost view = { λ x. record { at = x.at; token = x.token } };

    ghost invariant = { λ x. x.at < 2 ^ 40 };
}

impl<'a> Sight<'a> {
    pub(crate) fn new(token: Seen<'a>, at: usize) -> Sight<'a>
        requires { at < 2 ^ 40 }
        ensures { result ≡ record { at = at; token = token.entry } }
    {
        Sight { token, at }
    }

    pub fn place(&self) -> Place
        ensures { result ≡ self.now.token.place }
    {
        self.token.place()
    }

    pub fn is_mark(&self, mark: Punctuator) -> bool
        ensures { result ≡ s.is_mark mark self.now }
    {
        self.token.is_mark(mark)
    }

    pub fn is_name(&self) -> bool
        ensures { result ≡ s.is_name self.now }
    {
        self.token.is_name()
    }

    /// It is a name with this text.
    pub fn is_word(&self, word: &[u8]) -> bool
        ensures { result ≡ s.is_word word.now self.now }
    {
        self.token.is_name() && self.token.text() == word
    }

    pub fn is_number(&self) -> bool
        ensures { result ≡ s.is_number self.now }
    {
        matches!(self.token.kind(), TokenKind::Literal(_, _))
    }

    /// It is a name that a variable may have.
    pub fn is_given(&self) -> bool
        ensures { result ≡ s.is_given self.now }
    {
        self.token.is_free_name()
    }

    /// It is `H` and digits that do not begin with 0.
    pub fn names_hypothesis(&self) -> bool
        ensures { result ≡ s.names_hypothesis self.now }
    {
        self.token.is_name()
            && is_hypothesis(self.token.text())
            && !begins_with_zero(self.token.text())
    }

    /// It is a name, and no hypothesis.
    pub fn names_other(&self) -> bool
        ensures { result ≡ s.names_other self.now }
    {
        self.token.is_name() && !is_hypothesis(self.token.text())
    }

    /// What it is in a phrase.
    pub fn item(&self, inside: bool, room: bool) -> Result<Opening, u8>
        ensures value { result ≡ h.item_of inside room self.now }
        ensures room { IfOk result (HasRoom room) }
    {
        if self.is_mark(Punctuator::OpenParen) {
            opening(room, Opening::Round)
        } else if self.is_mark(Punctuator::OpenBracket) {
            opening(room, Opening::Square)
        } else if self.ends_phrase(inside) {
            Err(UNEXPECTED)
        } else {
            Ok(Opening::Plain)
        }
    }

    /// No phrase goes on with it.
    pub fn ends_phrase(&self, inside: bool) -> bool
        ensures { result ≡ h.ends_phrase inside self.now }
    {
        self.is_mark(Punctuator::CloseParen)
            || self.is_mark(Punctuator::CloseBracket)
            || !inside && self.is_mark(Punctuator::Semicolon)
    }

    /// Whether it names a hypothesis or something else that is taken apart.
    pub fn destructed(&self) -> Result<bool, u8>
        ensures { result ≡ h.destructed_of self.now }
    {
        if self.names_hypothesis() {
            Ok(true)
        } else if self.names_other() {
            Ok(false)
        } else {
            Err(UNEXPECTED)
        }
    }

    /// The command whose word it is.
    pub fn head(&self) -> Result<Head, u8>
        ensures { result ≡ h.head_of self.now }
    {
        if !self.is_name() {
            return Err(UNEXPECTED);
        }
        match rule_of(self.token.text()) {
            Some(rule) => Ok(Head {
                place: self.place(),
                rule,
                at: self.at,
            }),
            None if self.is_word(b"PROOF".as_slice()) || self.is_word(b"QED".as_slice()) => Err(
                UNEXPECTED,
            ),
            None => Err(UNKNOWN),
        }
    }

    /// The number of the token behind it, if it ends a command.
    pub fn end(&self) -> Result<usize, u8>
        ensures { result ≡ h.end_of self.now }
    {
        if self.is_mark(Punctuator::Semicolon) {
            Ok(self.at + 1)
        } else {
            Err(UNEXPECTED)
        }
    }

    pub fn place_if(&self, holds: bool) -> Result<Place, u8>
        ensures { result ≡ h.place_of holds self.now }
    {
        if holds {
            Ok(self.place())
        } else {
            Err(UNEXPECTED)
        }
    }

    /// The name that it is, with its place.
    pub fn named(&self, alloc: Global) -> Result<Result<Identifier, u8>, AllocError>
        ensures { IfOk result (λ found. found ≡ h.named_of self.now) }
    {
        if self.is_name() {
            Ok(Ok(self.token.identifier(alloc)?))
        } else {
            Ok(Err(UNEXPECTED))
        }
    }
}

fn begins_with_zero(text: &[u8]) -> bool
    ensures { result ≡ (slice_index text.now 1 == 48) }
{
    text.len() > 1 && text[1] == b'0'
}

fn opening(room: bool, opening: Opening) -> Result<Opening, u8>
    ensures value { result ≡ h.opening_of room opening }
    ensures room { IfOk result (HasRoom room) }
{
    if room { Ok(opening) } else { Err(TOO_DEEP) }
}

/// The token is taken, or it is not wanted.
pub fn wants(holds: bool) -> Result<(), u8>
    ensures { result ≡ s.wants holds }
{
    if holds { Ok(()) } else { Err(UNEXPECTED) }
}
