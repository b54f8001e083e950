//! Marks that end what is repeated.
ghost use Rattle.std.specs.Prelude.{◌≡◌, ◌≤◌, ◌<◌, IsTrue, length};
ghost use Rattle.floyd_specread_words.specs.Words as specs;
ghost use Rattle.floyd_termread_marks.specs.Marks as marks;

use floyd_lex::Punctuator;
use floyd_termread_phrases::Text;
use floyd_termread_tokens::Reader;

/// Whether another token than the mark stands next.
pub fn leads_other(text: Text<'_>, at: u32, mark: Punctuator) -> bool
    requires { at ≤ length text.tokens.now.items }
    ensures value { result ≡ marks.is_next text.entry.bytes.now text.entry.tokens.now (specs.is_other mark) at }
    ensures there { IsTrue result → at < length text.entry.tokens.now.items }
{
    if at as usize >= text.tokens.len() {
        return false;
    }
    match Reader::new(text.bytes, text.tokens, at as usize).peek() {
        Ok(token) => !token.is_mark(mark),
        Err(_) => false,
    }
}
