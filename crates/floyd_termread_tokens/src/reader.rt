//! Tokens, one after the other.
ghost use Rattle.std.specs.Prelude.{◌≡◌, ◌≤◌, ◌<◌, ◌+◌, ◌^◌, [], ◌∷◌, length, drop, true, IfOk, IfErr};
ghost use Rattle.floyd_grammar.specs.declared.stop.Stop.TheVariants as stop;
ghost use Rattle.floyd_grammar.specs.GivesClauses.{Gives};
ghost use Rattle.floyd_grammar.specs.ParseClauses.{leads, one};
ghost use Rattle.floyd_termread_tokens.specs.Tokens as t;
ghost use Rattle.floyd_termread_tokens.specs.SeenClauses.{tokens_from, tokens_until, take_as};

use crate::seen::{Seen, kind_of};
use floyd_grammar::{Fault, Stop};
use floyd_lex::{Punctuator, Tokens};
use std::marker::Model;

/// The tokens that are still to be read.
pub struct Reader<'a> {
    bytes: &'a [u8],
    tokens: &'a Tokens,
    at: usize,
    /// The text is cut off before the token of this number.
    end: usize,
    /// How often its end may still be taken.
    cuts: usize,
}

impl<'a> Drop for Reader<'a> {
    fn drop(self) {
        let Reader {
            bytes: _,
            tokens: _,
            at: _,
            end: _,
            cuts: _,
        } = self;
    }
}

impl<'a> Model for Reader<'a> {
    ghost use Rattle.std.specs.Prelude.{List, ◌≤◌, ◌<◌, ◌+◌, ◌^◌, length};
    ghost use Rattle.floyd_lex.specs.Token.{Token};

    ghost Value = { List Token };

    ghost use Rattle.floyd_termread_tokens.specs.SeenClauses.{tokens_until};

    ghost view = { λ r. tokens_until r.bytes.now r.tokens.now r.at r.end r.cuts };

    ghost invariant = { λ r. (r.at ≤ r.end) × (r.end ≤ length r.tokens.now.items) × (r.end + r.cuts < 2 ^ 64) };
}

impl<'a> Reader<'a> {
    /// The tokens from the one of this number on.
    pub fn new(bytes: &'a [u8], tokens: &'a Tokens, at: usize) -> Reader<'a>
        requires { at ≤ length tokens.now.items }
        ensures { result ≡ tokens_from bytes.now tokens.now at }
    {
        Reader {
            bytes,
            tokens,
            at,
            end: tokens.len(),
            cuts: 0,
        }
    }

    /// The tokens from the one of this number on, of a text that is cut off before that of number `end`.
    pub fn cut_off(
        bytes: &'a [u8],
        tokens: &'a Tokens,
        at: usize,
        end: usize,
        cuts: usize,
    ) -> Reader<'a>
        requires at { at ≤ end }
        requires end { end ≤ length tokens.now.items }
        requires cuts { end + cuts < 2 ^ 64 }
        ensures { result ≡ tokens_until bytes.now tokens.now at end cuts }
    {
        Reader {
            bytes,
            tokens,
            at,
            end,
            cuts,
        }
    }

    /// How many tokens are left.
    pub fn left(&self) -> usize
        ensures { result ≡ length self.now }
    {
        self.end - self.at + self.cuts
    }

    /// The next token. There is a fault where none is left.
    pub fn peek(&self) -> Result<Seen<'a>, Stop>
        ensures ok { IfOk result (λ s. self.now ≡ s ∷ drop 1 self.now) }
        ensures err { IfErr result (λ e. (self.now ≡ []) × (e ≡ stop.Fault record { left = 0; cause = 0 })) }
    {
        if self.at < self.end {
            let kind = kind_of(self.tokens.kind(self.at));
            return Ok(Seen::new(self.bytes, self.tokens, self.at, kind));
        }
        if self.cuts == 0 {
            return Err(Stop::Fault(Fault { left: 0, cause: 0 }));
        }
        let behind = self.tokens.len();
        let kind = kind_of(self.tokens.kind(behind));
        Ok(Seen::new(self.bytes, self.tokens, behind, kind))
    }

    /// Goes on behind the next token.
    fn advance(&mut self)
        requires { 0 < length self.old }
        ensures { self.new ≡ drop 1 self.old }
    {
        if self.at < self.end {
            self.at += 1;
        } else {
            self.cuts -= 1;
        }
    }

    /// Takes the next token for what was found in it, or stops there.
    pub fn take<A: Drop>(&mut self, found: Result<A, u8>) -> Result<A, Stop>
        ensures { Gives result self.new (take_as found self.old) }
    {
        let left = self.left();
        if left == 0 {
            return Err(Stop::Fault(Fault { left, cause: 0 }));
        }
        match found {
            Ok(value) => {
                self.advance();
                Ok(value)
            }
            Err(cause) => Err(Stop::Fault(Fault { left, cause })),
        }
    }

    /// The mark stands next.
    pub fn leads_mark(&self, mark: Punctuator) -> bool
        ensures { result ≡ leads (t.is_mark mark) self.now }
    {
        match self.peek() {
            Ok(token) => token.is_mark(mark),
            Err(_) => false,
        }
    }

    /// Some token is left.
    pub fn leads_any(&self) -> bool
        ensures { result ≡ leads (λ _. true) self.now }
    {
        self.peek().is_ok()
    }

    /// Refuses the next token, as no room at all is left.
    pub fn refuse_without_room<A: Drop>(&mut self, count: u32) -> Result<A, Stop>
        ensures { Gives result self.new (one (λ s. Err (t.without_room count s)) self.old) }
    {
        let cause = self.peek()?.without_room(count as u64);
        self.take(Err(cause))
    }
}
