//! Tokens, one after the other.
ghost use Rattle.std.specs.Prelude.{◌≡◌, ◌≤◌, true, [], ◌∷◌, length, drop, IfOk, IfErr, MatchOption};
ghost use Rattle.floyd_lex.specs.Token.{tokens_in};
ghost use Rattle.floyd_grammar.specs.declared.stop.Stop.TheVariants as stop;
ghost use Rattle.floyd_grammar.specs.GivesClauses.{Gives, GivesAll};
ghost use Rattle.floyd_grammar.specs.ParseClauses.{ended, leads};
ghost use Rattle.floyd_cparse_tokens.specs.Tokens.{sights, is_mark, is_word, is_name, is_type, is_plain, identifier_of, literal_of};
ghost use Rattle.floyd_cparse_tokens.specs.SeenClauses.{take_as, sights_from};

use floyd_grammar::{Fault, Stop};
use floyd_lex::{TokenKind, Tokens};
use floyd_text::Place;
use std::marker::Model;

/// A token, from which those behind it can be seen.
pub struct Sight<'a> {
    bytes: &'a [u8],
    tokens: &'a Tokens,
    at: usize,
    kind: TokenKind,
}

impl<'a> Drop for Sight<'a> {
    fn drop(self) {
        let Sight {
            bytes: _,
            tokens: _,
            at: _,
            kind: _,
        } = self;
    }
}

impl<'a> Model for Sight<'a> {
    ghost use Rattle.std.specs.Prelude.{◌≡◌, Some};
    ghost use Rattle.std.specs.Prelude.{slice_get};
    ghost use Rattle.std.specs.Option.{option_map};
    ghost use Rattle.floyd_cparse_tokens.specs.Tokens.{Sight};

    ghost Value = { Sight };

    ghost use Rattle.floyd_cparse_tokens.specs.SeenClauses.{sight_at};

    ghost view = { λ s. sight_at s.bytes.now s.tokens.now s.at };

    ghost invariant = { λ s. option_map (λ x. x.kind) (slice_get s.tokens.now.items s.at) ≡ Some s.kind };
}

impl<'a> Sight<'a> {
    pub fn kind(&self) -> TokenKind
        ensures { result ≡ self.now.token.kind }
    {
        self.kind
    }

    pub fn text(&self) -> &'a [u8]
        ensures { result.now ≡ self.now.token.text }
    {
        self.tokens.text(self.bytes, self.at)
    }

    pub fn place(&self) -> Place
        ensures { result ≡ self.now.token.place }
    {
        self.tokens.place(self.at)
    }

    /// The token behind this one.
    pub fn next(&self) -> Option<Sight<'a>>
        ensures { MatchOption result (self.now.behind ≡ []) (λ s. self.now.behind ≡ s.token ∷ s.behind) }
    {
        if self.at == self.tokens.len() - 1 {
            return None;
        }
        let at = self.at + 1;
        Some(Sight {
            bytes: self.bytes,
            tokens: self.tokens,
            at,
            kind: self.tokens.kind(at)?,
        })
    }
}

/// The tokens of a source that are still to be read.
pub struct Reader<'a> {
    bytes: &'a [u8],
    tokens: &'a Tokens,
    at: usize,
}

impl<'a> Drop for Reader<'a> {
    fn drop(self) {
        let Reader {
            bytes: _,
            tokens: _,
            at: _,
        } = self;
    }
}

impl<'a> Model for Reader<'a> {
    ghost use Rattle.std.specs.Prelude.{List, ◌≤◌, length};
    ghost use Rattle.floyd_cparse_tokens.specs.Tokens.{Sight};

    ghost Value = { List Sight };

    ghost use Rattle.floyd_cparse_tokens.specs.SeenClauses.{sights_from};

    ghost view = { λ r. sights_from r.bytes.now r.tokens.now r.at };

    ghost invariant = { λ r. r.at ≤ length r.tokens.now.items };
}

impl<'a> Reader<'a> {
    pub fn new(bytes: &'a [u8], tokens: &'a Tokens) -> Reader<'a>
        ensures { result ≡ sights (tokens_in bytes.now tokens.now) }
    {
        Reader {
            bytes,
            tokens,
            at: 0,
        }
    }

    /// Some token is left.
    pub fn leads_any(&self) -> bool
        ensures { result ≡ leads (λ _. true) self.now }
    {
        self.peek().is_ok()
    }

    /// The next token. There is a fault where none is left.
    pub fn peek(&self) -> Result<Sight<'a>, Stop>
        ensures ok { IfOk result (λ s. self.now ≡ s ∷ drop 1 self.now) }
        ensures err { IfErr result (λ e. (self.now ≡ []) × (e ≡ stop.Fault record { left = 0; cause = 0 })) }
    {
        match self.tokens.kind(self.at) {
            Some(kind) => Ok(Sight {
                bytes: self.bytes,
                tokens: self.tokens,
                at: self.at,
                kind,
            }),
            None => Err(Stop::Fault(Fault { left: 0, cause: 0 })),
        }
    }

    /// Takes the next token for what was found in it, or stops there.
    pub fn take<A: Drop>(&mut self, found: Result<A, u8>) -> Result<A, Stop>
        ensures { Gives result self.new (take_as found self.old) }
    {
        let left = self.tokens.len() - self.at;
        if left == 0 {
            return Err(Stop::Fault(Fault { left, cause: 0 }));
        }
        match found {
            Ok(value) => {
                self.at += 1;
                Ok(value)
            }
            Err(cause) => Err(Stop::Fault(Fault { left, cause })),
        }
    }

    /// The value where no token is left, or else a fault at the next.
    pub fn finish<A: Drop>(&self, value: A) -> Result<A, Stop>
        ensures { GivesAll result (ended value self.now) }
    {
        let left = self.tokens.len() - self.at;
        if left == 0 {
            Ok(value)
        } else {
            Err(Stop::Fault(Fault { left, cause: 0 }))
        }
    }
}
