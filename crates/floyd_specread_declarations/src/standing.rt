//! How declarations are written to stand to their functions.
ghost use Rattle.std.specs.Prelude.{◌≡◌, ◌≤◌, ◌<◌, ◌+◌, ◌^◌, IsTrue, length};
ghost use Rattle.floyd_specread_declarations.specs.Declarations as specs;
ghost use Rattle.floyd_termread_marks.specs.Marks as marks;
ghost use Rattle.floyd_termread_tokens.specs.Tokens.{is_name};

use floyd_specread_words::{SpecWord, leads_spec_word};
use floyd_termread_phrases::Text;
use floyd_termread_tokens::Reader;

/// How a declaration is written to stand to its function.
#[derive(Clone, Copy, PartialEq, Eq, Debug)]
pub enum Standing {
    Plain,
    Import,
    Extern,
}

/// Whether a name stands next, which may be a word.
fn leads_name(text: Text<'_>, at: u32) -> bool
    requires { at ≤ length text.tokens.now.items }
    ensures value { result ≡ marks.is_next text.entry.bytes.now text.entry.tokens.now is_name at }
    ensures there { IsTrue result → at < length text.entry.tokens.now.items }
{
    if at as usize >= text.tokens.len() {
        return false;
    }
    match Reader::new(text.bytes, text.tokens, at as usize).peek() {
        Ok(token) => token.is_name(),
        Err(_) => false,
    }
}

/// Whether a specification begins there, or BY, where that may stand.
#[tactic(auto, using(crate::proofs::StandingLemmas::begins))]
fn leads_given(text: Text<'_>, at: u32, by: bool) -> bool
    requires { at ≤ length text.tokens.now.items }
    ensures { result ≡ marks.is_next text.entry.bytes.now text.entry.tokens.now (specs.begins_given by) at }
{
    if leads_spec_word(text, at, SpecWord::With) {
        return true;
    }
    if leads_spec_word(text, at, SpecWord::Pre) {
        return true;
    }
    if leads_spec_word(text, at, SpecWord::Spec) {
        return true;
    }
    by && leads_spec_word(text, at, SpecWord::By)
}

/// Whether the word stands there, and behind it a name with what is given behind that.
fn is_standing(text: Text<'_>, at: u32, word: SpecWord, by: bool) -> bool
    requires at { at ≤ length text.tokens.now.items }
    requires count { length text.tokens.now.items < 2 ^ 32 }
    ensures value { result ≡ specs.is_standing text.entry.bytes.now text.entry.tokens.now word by at }
    ensures there { IsTrue result → at < length text.entry.tokens.now.items }
{
    if !leads_spec_word(text, at, word) {
        return false;
    }
    leads_name(text, at + 1) && leads_given(text, at + 2, by)
}

/// How the declaration from that token on is written to stand to its function.
pub(crate) fn standing_at(text: Text<'_>, at: u32) -> Standing
    requires at { at ≤ length text.tokens.now.items }
    requires count { length text.tokens.now.items < 2 ^ 32 }
    ensures value { result ≡ specs.standing_at text.entry.bytes.now text.entry.tokens.now at }
    ensures within { at + specs.words_of result ≤ length text.entry.tokens.now.items }
{
    if is_standing(text, at, SpecWord::Import, true) {
        return Standing::Import;
    }
    if is_standing(text, at, SpecWord::Extern, false) {
        return Standing::Extern;
    }
    Standing::Plain
}

/// The number of tokens before the name.
pub(crate) fn words_of(standing: Standing) -> u32
    ensures { result ≡ specs.words_of standing }
{
    match standing {
        Standing::Plain => 0,
        Standing::Import => 1,
        Standing::Extern => 1,
    }
}
