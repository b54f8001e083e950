//! Words of items.
ghost use Rattle.std.specs.Prelude.{◌≡◌, ◌≤◌, ◌<◌, ◌+◌, ◌^◌, ◌&&◌, bytes_eq, codes, IfOk, IsTrue, OnOk, length};
ghost use Rattle.floyd_specread_words.specs.Words as specs;
ghost use Rattle.floyd_termread_marks.specs.Marks as marks;
ghost use Rattle.floyd_termread_phrases.specs.Reads.{Answers};
ghost use Rattle.floyd_termread_tokens.specs.Tokens.{is_name};

use floyd_termread_marks::take;
use floyd_termread_phrases::{Spot, Text};
use floyd_termread_tokens::{Reader, Seen};
use floyd_text::{Halt, Place};

/// A word of the items of specification files, of specifications and of patterns.
#[derive(Clone, Copy, PartialEq, Eq, Debug)]
pub enum SpecWord {
    Import,
    Fun,
    Pred,
    Opaque,
    Lemma,
    Gives,
    Lock,
    Spec,
    Declare,
    Extern,
    By,
    Frame,
    With,
    Pre,
    /// `MAIN_PRE`
    MainPre,
    Params,
    Globals,
    Post,
    Return,
    /// `nil`
    Nil,
    Leaf,
    Node,
}

impl SpecWord {
    fn text(self) -> &'static str
        ensures { result.now ≡ specs.text_of self }
    {
        match self {
            SpecWord::Import => "IMPORT",
            SpecWord::Fun => "FUN",
            SpecWord::Pred => "PRED",
            SpecWord::Opaque => "OPAQUE",
            SpecWord::Lemma => "LEMMA",
            SpecWord::Gives => "GIVES",
            SpecWord::Lock => "LOCK",
            SpecWord::Spec => "SPEC",
            SpecWord::Declare => "DECLARE",
            SpecWord::Extern => "EXTERN",
            SpecWord::By => "BY",
            SpecWord::Frame => "FRAME",
            SpecWord::With => "WITH",
            SpecWord::Pre => "PRE",
            SpecWord::MainPre => "MAIN_PRE",
            SpecWord::Params => "PARAMS",
            SpecWord::Globals => "GLOBALS",
            SpecWord::Post => "POST",
            SpecWord::Return => "RETURN",
            SpecWord::Nil => "nil",
            SpecWord::Leaf => "Leaf",
            SpecWord::Node => "Node",
        }
    }

    /// Whether a token is the word.
    fn is_token(self, token: &Seen<'_>) -> bool
        ensures { result ≡ specs.is_word self token.now }
    {
        token.is_name() && token.text() == self.text().as_bytes()
    }
}

/// Whether the word stands next.
pub fn leads_spec_word(text: Text<'_>, at: u32, word: SpecWord) -> bool
    requires { at ≤ length text.tokens.now.items }
    ensures value { result ≡ marks.is_next text.entry.bytes.now text.entry.tokens.now (specs.is_word word) at }
    ensures there { IsTrue result → at < length text.entry.tokens.now.items }
{
    if at as usize >= text.tokens.len() {
        return false;
    }
    match Reader::new(text.bytes, text.tokens, at as usize).peek() {
        Ok(token) => word.is_token(&token),
        Err(_) => false,
    }
}

/// The place of the next token, where it is the word.
fn word_place(text: Text<'_>, at: u32, word: SpecWord) -> Option<Place>
    requires { at ≤ length text.tokens.now.items }
    ensures { result ≡ marks.found_in (specs.word_place word) (marks.tokens_at text.entry.bytes.now text.entry.tokens.now at) }
{
    match Reader::new(text.bytes, text.tokens, at as usize).peek() {
        Ok(token) => token.place_if(word.is_token(&token)),
        Err(_) => None,
    }
}

/// The place of a word, which is to stand next, and the number of the token behind it. Where it does not, the token that
/// does is refused with 501, and so is the end of the file; a token that stands deeper than 200 is refused with 302.
pub fn take_spec_word(text: Text<'_>, spot: Spot, word: SpecWord) -> Result<(Place, u32), Halt>
    requires at { spot.at ≤ length text.tokens.now.items }
    requires count { length text.tokens.now.items < 2 ^ 32 }
    ensures exact { Answers (λ x. x) (specs.word text.entry.bytes.now text.entry.tokens.now spot.depth word spot.at) result }
    ensures behind { IfOk result (λ x. x.1 ≡ spot.at + 1) }
    ensures within { IfOk result (λ x. x.1 ≤ length text.entry.tokens.now.items) }
    ensures room { OnOk result (spot.depth ≤ 201) }
{
    let found = word_place(text, spot.at, word);
    take(text, spot, found)
}
