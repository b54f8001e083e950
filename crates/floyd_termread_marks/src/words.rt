//! The words of assertions and their parts.
ghost use Rattle.std.specs.Prelude.{◌≡◌, ◌≤◌, ◌<◌, ◌+◌, ◌^◌, ◌&&◌, bytes_eq, codes, IfOk, OnOk, length};
ghost use Rattle.floyd_termread_marks.specs.Marks as specs;
ghost use Rattle.floyd_termread_phrases.specs.Reads.{Answers};
ghost use Rattle.floyd_termread_tokens.specs.Tokens.{is_name};

use crate::marks::take;
use floyd_termread_phrases::{Spot, Text};
use floyd_termread_tokens::{Reader, Seen};
use floyd_text::{Halt, Place};

/// A word of assertions.
#[derive(Clone, Copy, PartialEq, Eq, Debug)]
pub enum AssertionWord {
    /// `EX`
    Exists,
    Prop,
    Local,
    Sep,
    Temp,
    DataAt,
    /// `data_at_`
    DataAtDefault,
    FieldAt,
    Padding,
    Valid,
    /// `TT`
    Anything,
}

impl AssertionWord {
    fn text(self) -> &'static str
        ensures { result.now ≡ specs.text_of self }
    {
        match self {
            AssertionWord::Exists => "EX",
            AssertionWord::Prop => "PROP",
            AssertionWord::Local => "LOCAL",
            AssertionWord::Sep => "SEP",
            AssertionWord::Temp => "temp",
            AssertionWord::DataAt => "data_at",
            AssertionWord::DataAtDefault => "data_at_",
            AssertionWord::FieldAt => "field_at",
            AssertionWord::Padding => "padding",
            AssertionWord::Valid => "valid",
            AssertionWord::Anything => "TT",
        }
    }

    /// Whether a token is the word.
    fn is_token(self, token: &Seen<'_>) -> bool
        ensures { result ≡ specs.is_word self token.now }
    {
        token.is_name() && token.text() == self.text().as_bytes()
    }
}

/// Whether the word stands next.
pub fn leads_word(text: Text<'_>, at: u32, word: AssertionWord) -> bool
    requires { at ≤ length text.tokens.now.items }
    ensures { result ≡ specs.is_next text.entry.bytes.now text.entry.tokens.now (specs.is_word word) at }
{
    match Reader::new(text.bytes, text.tokens, at as usize).peek() {
        Ok(token) => word.is_token(&token),
        Err(_) => false,
    }
}

/// The place of the next token, where it is the word.
fn word_place(text: Text<'_>, at: u32, word: AssertionWord) -> Option<Place>
    requires { at ≤ length text.tokens.now.items }
    ensures { result ≡ specs.found_in (specs.word_place word) (specs.tokens_at text.entry.bytes.now text.entry.tokens.now at) }
{
    match Reader::new(text.bytes, text.tokens, at as usize).peek() {
        Ok(token) => token.place_if(word.is_token(&token)),
        Err(_) => None,
    }
}

fn part_word_of(token: &Seen<'_>) -> Option<AssertionWord>
    ensures { result ≡ specs.part_word token.now }
{
    if AssertionWord::DataAt.is_token(token) {
        Some(AssertionWord::DataAt)
    } else if AssertionWord::DataAtDefault.is_token(token) {
        Some(AssertionWord::DataAtDefault)
    } else if AssertionWord::FieldAt.is_token(token) {
        Some(AssertionWord::FieldAt)
    } else if AssertionWord::Padding.is_token(token) {
        Some(AssertionWord::Padding)
    } else if AssertionWord::Valid.is_token(token) {
        Some(AssertionWord::Valid)
    } else if AssertionWord::Anything.is_token(token) {
        Some(AssertionWord::Anything)
    } else {
        None
    }
}

/// The word of a part that stands next.
pub fn part_word(text: Text<'_>, at: u32) -> Option<AssertionWord>
    requires { at ≤ length text.tokens.now.items }
    ensures { result ≡ specs.found_in specs.part_word (specs.tokens_at text.entry.bytes.now text.entry.tokens.now at) }
{
    match Reader::new(text.bytes, text.tokens, at as usize).peek() {
        Ok(token) => part_word_of(&token),
        Err(_) => None,
    }
}

/// The place of a word, which is to stand next, and the number of the token behind it. Else the refusal of what stands
/// there, as `take` has it.
pub fn take_word(text: Text<'_>, spot: Spot, word: AssertionWord) -> Result<(Place, u32), Halt>
    requires at { spot.at ≤ length text.tokens.now.items }
    requires count { length text.tokens.now.items < 2 ^ 32 }
    ensures exact { Answers (λ x. x) (specs.word text.entry.bytes.now text.entry.tokens.now spot.depth word spot.at) result }
    ensures behind { IfOk result (λ x. x.1 ≡ spot.at + 1) }
    ensures within { IfOk result (λ x. x.1 ≤ length text.entry.tokens.now.items) }
    ensures room { OnOk result (spot.depth ≤ 201) }
{
    let found = word_place(text, spot.at, word);
    take(text, spot, found)
}
