//! Tokens of a script with their numbers, one after the other.
ghost use Rattle.std.specs.Prelude.{◌≡◌, ◌<◌, ◌^◌, [], ◌∷◌, length, drop, not, true, IfOk, IfErr};
ghost use Rattle.floyd_grammar.specs.declared.stop.Stop.TheVariants as stop;
ghost use Rattle.floyd_grammar.specs.GivesClauses.{Gives};
ghost use Rattle.floyd_grammar.specs.ParseClauses.{leads, one};
ghost use Rattle.floyd_script_tokens.specs.Sights as s;
ghost use Rattle.floyd_script_tokens.specs.SightClauses.{take_as, goes_on};

use crate::sight::{Sight, wants};
use floyd_grammar::Stop;
use floyd_lex::{Punctuator, Tokens};
use floyd_termread_tokens::Reader as TermReader;
use std::marker::Model;

/// The tokens that are still to be read.
pub struct Reader<'a> {
    tokens: TermReader<'a>,
    /// The number of all tokens of the script.
    count: usize,
}

impl<'a> Drop for Reader<'a> {
    fn drop(self) {
        let Reader { tokens, count: _ } = self;
        drop(tokens);
    }
}

impl<'a> Model for Reader<'a> {
    ghost use Rattle.std.specs.Prelude.{List, ◌<◌, ◌^◌};
    ghost use Rattle.floyd_script_tokens.specs.Sights.{Sight as Plain, sights_in};

    ghost Value = { List Plain };

    ghost view = { λ r. sights_in r.count r.tokens };

    ghost invariant = { λ r. r.count < 2 ^ 40 };
}

impl<'a> Reader<'a> {
    /// All tokens.
    pub fn new(bytes: &'a [u8], tokens: &'a Tokens) -> Reader<'a>
        requires { length tokens.now.items < 2 ^ 40 }
        ensures { result ≡ s.sights_of bytes.now tokens.now }
    {
        Reader {
            tokens: TermReader::new(bytes, tokens, 0),
            count: tokens.len(),
        }
    }

    /// The next token. There is a fault where none is left.
    pub fn peek(&self) -> Result<Sight<'a>, Stop>
        ensures ok { IfOk result (λ x. self.now ≡ x ∷ drop 1 self.now) }
        ensures err { IfErr result (λ e. (self.now ≡ []) × (e ≡ stop.Fault record { left = 0; cause = 0 })) }
    {
        let token = self.tokens.peek()?;
        let at = self.count.saturating_sub(self.tokens.left());
        Ok(Sight::new(token, at))
    }

    /// Takes the next token for what was found in it, or stops there.
    pub fn take<A: Drop>(&mut self, found: Result<A, u8>) -> Result<A, Stop>
        ensures { Gives result self.new (take_as found self.old) }
    {
        self.tokens.take(found)
    }

    /// The next token is this mark.
    pub fn leads_mark(&self, mark: Punctuator) -> bool
        ensures { result ≡ leads (s.is_mark mark) self.now }
    {
        match self.peek() {
            Ok(token) => token.is_mark(mark),
            Err(_) => false,
        }
    }

    /// The next token is this word.
    pub fn leads_word(&self, word: &[u8]) -> bool
        ensures { result ≡ leads (s.is_word word.now) self.now }
    {
        match self.peek() {
            Ok(token) => token.is_word(word),
            Err(_) => false,
        }
    }

    /// A phrase goes on with the next token.
    pub fn leads_phrase(&self, inside: bool) -> bool
        ensures { result ≡ leads (goes_on inside) self.now }
    {
        match self.peek() {
            Ok(token) => !token.ends_phrase(inside),
            Err(_) => false,
        }
    }

    /// There is a next token, which is not this mark.
    pub fn leads_other(&self, mark: Punctuator) -> bool
        ensures { result ≡ leads (λ x. not (s.is_mark mark x)) self.now }
    {
        match self.peek() {
            Ok(token) => !token.is_mark(mark),
            Err(_) => false,
        }
    }

    /// The next token is a name that a variable may have.
    pub fn leads_given(&self) -> bool
        ensures { result ≡ leads s.is_given self.now }
    {
        match self.peek() {
            Ok(token) => token.is_given(),
            Err(_) => false,
        }
    }

    /// There is a next token, which is not this word.
    pub fn leads_other_word(&self, word: &[u8]) -> bool
        ensures { result ≡ leads (λ x. not (s.is_word word.now x)) self.now }
    {
        match self.peek() {
            Ok(token) => !token.is_word(word),
            Err(_) => false,
        }
    }

    pub fn leads_any(&self) -> bool
        ensures { result ≡ leads (λ _. true) self.now }
    {
        self.peek().is_ok()
    }

    /// Takes the next token, which must be this mark.
    pub fn take_mark(&mut self, mark: Punctuator) -> Result<(), Stop>
        ensures { Gives result self.new (one (s.mark mark) self.old) }
    {
        let token = self.peek()?;
        self.take(wants(token.is_mark(mark)))
    }

    /// Takes the next token, which must be this word.
    pub fn take_word(&mut self, word: &[u8]) -> Result<(), Stop>
        ensures { Gives result self.new (one (λ x. s.wants (s.is_word word.now x)) self.old) }
    {
        let token = self.peek()?;
        self.take(wants(token.is_word(word)))
    }
}
