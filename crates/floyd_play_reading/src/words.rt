//! Words between assertions.
ghost use Rattle.std.specs.Prelude.{◌≡◌, ◌≤◌, ◌<◌, ◌+◌, ◌^◌, IfOk, length};
ghost use Rattle.floyd_play_reading.specs.Assertions as specs;
ghost use Rattle.floyd_termread_marks.specs.Marks.{found_in, is_next, tokens_at};
ghost use Rattle.floyd_termread_phrases.specs.Reads.{Answers};
ghost use Rattle.floyd_termread_tokens.specs.Tokens.{place_if};

use floyd_termread_marks::take;
use floyd_termread_phrases::{Spot, Text};
use floyd_termread_tokens::Reader;
use floyd_text::{Halt, Place};

/// Whether a name with this text stands next.
pub(crate) fn leads_text(text: Text<'_>, at: u32, word: &[u8]) -> bool
    requires { at ≤ length text.tokens.now.items }
    ensures { result ≡ is_next text.entry.bytes.now text.entry.tokens.now (specs.is_text word.now) at }
{
    match Reader::new(text.bytes, text.tokens, at as usize).peek() {
        Ok(token) => token.is_name() && token.text() == word,
        Err(_) => false,
    }
}

fn place_of_text(text: Text<'_>, at: u32, word: &[u8]) -> Option<Place>
    requires { at ≤ length text.tokens.now.items }
    ensures { result ≡ found_in (λ t. place_if (specs.is_text word.now t) t) (tokens_at text.entry.bytes.now text.entry.tokens.now at) }
{
    match Reader::new(text.bytes, text.tokens, at as usize).peek() {
        Ok(token) => token.place_if(token.is_name() && token.text() == word),
        Err(_) => None,
    }
}

/// The place of a name with this text, which is to stand next.
pub(crate) fn take_text(text: Text<'_>, at: u32, word: &[u8]) -> Result<(Place, u32), Halt>
    requires at { at ≤ length text.tokens.now.items }
    requires count { length text.tokens.now.items < 2 ^ 32 }
    ensures exact { Answers (λ x. x) (specs.word text.entry.bytes.now text.entry.tokens.now word.now at) result }
    ensures within { IfOk result (λ x. x.1 ≤ length text.entry.tokens.now.items) }
{
    let found = place_of_text(text, at, word);
    take(text, Spot { at, depth: 0 }, found)
}
