//! Tests of one token, and what is found in it.
ghost use Rattle.std.specs.Prelude.{◌≡◌, ◌<◌, ◌^◌, ◌≤◌, ◌+◌, pred, ◌&&◌, not, IfOk, Err, ◌∷◌};
ghost use Rattle.floyd_cparse_tokens.specs.Tokens as t;
ghost use Rattle.floyd_lex.specs.declared.kinds.TokenKind.TheVariants as k;
ghost use Rattle.floyd_grammar.specs.ParseClauses.{leads, one};
ghost use Rattle.floyd_grammar.specs.GivesClauses.{Gives};

use crate::names::TypeNames;
use crate::sight::{Reader, Sight};
use floyd_cparse_trees::{Identifier, Literal};
use floyd_grammar::Stop;
use floyd_int::IntKind;
use floyd_lex::{Keyword, LiteralType, Punctuator, TokenKind};
use floyd_text::{Name, Place};
use std::alloc::{AllocError, Global};

/// The causes for which a token is refused. Of two at one token the greater goes first.
pub const UNEXPECTED: u8 = 0;

pub const SHADOWED: u8 = 1;

pub const LEFT_OUT: u8 = 2;

pub const TOO_DEEP: u8 = 3;

impl<'a> Sight<'a> {
    pub fn is_mark(&self, mark: Punctuator) -> bool
        ensures { result ≡ t.is_mark mark self.now }
    {
        match self.kind() {
            TokenKind::Punctuator(other) => other == mark,
            _ => false,
        }
    }

    pub fn is_word(&self, word: Keyword) -> bool
        ensures { result ≡ t.is_word word self.now }
    {
        match self.kind() {
            TokenKind::Keyword(other) => other == word,
            _ => false,
        }
    }

    pub fn is_name(&self) -> bool
        ensures { result ≡ t.is_name self.now }
    {
        match self.kind() {
            TokenKind::Name => true,
            _ => false,
        }
    }

    pub fn is_type(&self, types: &TypeNames) -> bool
        ensures { result ≡ t.is_type types.now self.now }
    {
        self.is_name() && types.contains(self.text())
    }

    pub fn is_plain(&self, types: &TypeNames) -> bool
        ensures { result ≡ t.is_plain types.now self.now }
    {
        self.is_name() && !self.is_type(types)
    }

    pub fn identifier(&self, alloc: Global) -> Result<Identifier, AllocError>
        ensures { IfOk result (λ x. x ≡ t.identifier_of self.now) }
    {
        Ok(Identifier {
            name: Name::from_slice(alloc, self.text())?,
            place: self.place(),
        })
    }

    pub fn literal(&self) -> Option<Literal>
        ensures { result ≡ t.literal_of self.now }
    {
        let (kind, value) = match self.kind() {
            TokenKind::Literal(kind, value) => (literal_kind(kind)?, value),
            _ => return None,
        };
        if value < 1 << 64 {
            Some(Literal {
                kind,
                value: value as u64,
                place: self.place(),
            })
        } else {
            None
        }
    }

    /// One of the words of integer types.
    pub fn is_integer_word(&self) -> bool
        ensures { result ≡ t.is_integer_word self.now.token.kind }
    {
        match self.kind() {
            TokenKind::Keyword(
                Keyword::Char
                | Keyword::Short
                | Keyword::Int
                | Keyword::Long
                | Keyword::Signed
                | Keyword::Unsigned,
            ) => true,
            _ => false,
        }
    }

    pub fn begins_type(&self, types: &TypeNames) -> bool
        ensures { result ≡ t.begins_type types.now self.now.token }
    {
        self.is_word(Keyword::Const) || self.begins_base(types)
    }

    fn begins_base(&self, types: &TypeNames) -> bool
        ensures { result ≡ t.begins_base types.now self.now.token }
    {
        self.is_word(Keyword::Void)
            || self.is_integer_word()
            || self.is_word(Keyword::Struct)
            || self.is_type(types)
    }

    /// The mark stands next behind it.
    pub fn precedes(&self, mark: Punctuator) -> bool
        ensures { result ≡ t.next_is mark self.now.behind }
    {
        match self.next() {
            Some(next) => next.is_mark(mark),
            None => false,
        }
    }

    /// It is `(`, and behind it stands what begins a type.
    pub fn opens_type(&self, types: &TypeNames) -> bool
        ensures { result ≡ t.opens_type types.now (self.now.token ∷ self.now.behind) }
    {
        match self.next() {
            Some(next) => self.is_mark(Punctuator::OpenParen) && next.begins_type(types),
            None => false,
        }
    }

    /// `(` and the beginning of a type stand behind it.
    pub fn precedes_type(&self, types: &TypeNames) -> bool
        ensures { result ≡ t.opens_type types.now self.now.behind }
    {
        match self.next() {
            Some(next) => next.opens_type(types),
            None => false,
        }
    }

    fn is_left_out_kind(&self) -> bool
        ensures { result ≡ t.is_left_out_kind self.now.token.kind }
    {
        match self.kind() {
            TokenKind::Keyword(word) => is_left_out_word(word),
            TokenKind::Punctuator(Punctuator::Ellipsis) | TokenKind::StringLiteral => true,
            _ => false,
        }
    }

    /// The profile leaves it out wherever it stands.
    pub fn is_left_out(&self, types: &TypeNames) -> bool
        ensures { result ≡ t.is_left_out types.now self.now }
    {
        self.is_left_out_kind() || (self.is_word(Keyword::Sizeof) && !self.precedes_type(types))
    }

    fn is_opening(&self) -> bool
        ensures { result ≡ t.is_opening self.now }
    {
        self.is_mark(Punctuator::OpenParen)
            || self.is_mark(Punctuator::OpenBracket)
            || self.is_mark(Punctuator::OpenBrace)
    }

    fn is_closing(&self) -> bool
        ensures { result ≡ t.is_closing self.now }
    {
        self.is_mark(Punctuator::CloseParen)
            || self.is_mark(Punctuator::CloseBracket)
            || self.is_mark(Punctuator::CloseBrace)
    }

    /// More counts before it than there is room for.
    pub fn is_deep(&self, room: u32, count: u64) -> bool
        requires { count < 2 ^ 40 }
        ensures { result ≡ t.is_deep room count self.now }
    {
        room as u64 + number(self.is_closing()) < count + number(self.is_opening())
    }

    /// For what it is refused where no room at all is left.
    pub fn without_room(&self, count: u64) -> u8
        ensures { result ≡ t.without_room count self.now }
    {
        if count < number(self.is_closing()) {
            UNEXPECTED
        } else {
            TOO_DEEP
        }
    }

    /// For what it is refused that is not wanted, where `special` is the cause if it is neither too deep nor left out
    /// wherever it stands.
    pub fn blame(&self, types: &TypeNames, room: u32, count: u64, special: u8) -> u8
        requires { count < 2 ^ 40 }
        ensures { result ≡ t.blame types.now room count special self.now }
    {
        if self.is_deep(room, count) {
            TOO_DEEP
        } else if self.is_left_out(types) {
            LEFT_OUT
        } else {
            special
        }
    }

    pub fn place_if(&self, holds: bool) -> Option<Place>
        ensures { result ≡ t.place_if holds self.now }
    {
        if holds { Some(self.place()) } else { None }
    }

    /// What may stand here is taken unless it is too deep, and nothing else is blamed.
    pub fn offer<A: Drop>(&self, room: u32, count: u64, found: Option<A>) -> Result<A, u8>
        requires { count < 2 ^ 40 }
        ensures value { result ≡ t.offer room count self.now found }
        ensures room { IfOk result (λ _. count ≤ room + 1) }
    {
        match found {
            Some(_) if self.is_deep(room, count) => Err(TOO_DEEP),
            Some(value) => Ok(value),
            None => Err(UNEXPECTED),
        }
    }

    /// What must stand here is taken unless it is too deep, and everything else is blamed.
    pub fn demand<A: Drop>(
        &self,
        types: &TypeNames,
        room: u32,
        count: u64,
        special: u8,
        found: Option<A>,
    ) -> Result<A, u8>
        requires { count < 2 ^ 40 }
        ensures { result ≡ t.demand types.now room count special self.now found }
    {
        match found {
            Some(_) if self.is_deep(room, count) => Err(TOO_DEEP),
            Some(value) => Ok(value),
            None => Err(self.blame(types, room, count, special)),
        }
    }
}

impl<'a> Reader<'a> {
    /// The mark stands next.
    pub fn leads_mark(&self, mark: Punctuator) -> bool
        ensures { result ≡ leads (t.is_mark mark) self.now }
    {
        match self.peek() {
            Ok(sight) => sight.is_mark(mark),
            Err(_) => false,
        }
    }

    /// A token stands next that is not the mark.
    pub fn leads_other(&self, mark: Punctuator) -> bool
        ensures { result ≡ leads (λ s. not (t.is_mark mark s)) self.now }
    {
        match self.peek() {
            Ok(sight) => !sight.is_mark(mark),
            Err(_) => false,
        }
    }

    /// Refuses the next token, as no room at all is left.
    pub fn refuse_without_room<A: Drop>(&mut self, count: u32) -> Result<A, Stop>
        ensures { Gives result self.new (one (λ s. Err (t.without_room count s)) self.old) }
    {
        let cause = self.peek()?.without_room(count as u64);
        self.take(Err(cause))
    }

    /// The word stands next.
    pub fn leads_word(&self, word: Keyword) -> bool
        ensures { result ≡ leads (t.is_word word) self.now }
    {
        match self.peek() {
            Ok(sight) => sight.is_word(word),
            Err(_) => false,
        }
    }
}

/// What closes, or ends what stands before, is never too deep.
pub fn found_or<A: Drop>(cause: u8, found: Option<A>) -> Result<A, u8>
    ensures { result ≡ t.found_or cause found }
{
    match found {
        Some(value) => Ok(value),
        None => Err(cause),
    }
}

fn literal_kind(kind: LiteralType) -> Option<IntKind>
    ensures { result ≡ t.literal_kind kind }
{
    match kind {
        LiteralType::Int => Some(IntKind::I32),
        LiteralType::UnsignedInt => Some(IntKind::U32),
        LiteralType::Long => Some(IntKind::I64),
        LiteralType::UnsignedLong => Some(IntKind::U64),
        LiteralType::Untyped => None,
    }
}

fn is_left_out_word(word: Keyword) -> bool
    ensures { result ≡ t.is_left_out_kind (k.Keyword word) }
{
    match word {
        Keyword::Float
        | Keyword::Double
        | Keyword::Union
        | Keyword::Enum
        | Keyword::Static
        | Keyword::Volatile
        | Keyword::Register
        | Keyword::Inline
        | Keyword::Restrict
        | Keyword::Goto
        | Keyword::Asm
        | Keyword::Bool => true,
        _ => false,
    }
}

fn number(holds: bool) -> u64
    ensures value { result ≡ t.number holds }
    ensures small { result ≤ 1 }
{
    if holds { 1 } else { 0 }
}

/// The room one bracket further in.
pub fn inside(room: u32) -> u32
    ensures { result ≡ pred room }
{
    if room == 0 { 0 } else { room - 1 }
}
