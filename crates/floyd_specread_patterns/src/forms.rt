//! What has the form of a pattern.
ghost use Rattle.std.specs.Prelude.{◌≡◌, ◌≤◌, ◌<◌, ◌+◌, ◌^◌, IsTrue, length};
ghost use Rattle.floyd_specread_patterns.specs.Patterns as specs;
ghost use Rattle.floyd_termread_marks.specs.Marks as marks;
ghost use Rattle.floyd_termread_tokens.specs.Tokens.{is_name};

use floyd_lex::Punctuator;
use floyd_specread_words::{SpecWord, leads_spec_word};
use floyd_termread_marks::leads_mark;
use floyd_termread_phrases::Text;
use floyd_termread_tokens::Reader;

/// Whether a name stands next, which may be a word.
fn leads_name(text: Text<'_>, at: u32) -> bool
    requires { at ≤ length text.tokens.now.items }
    ensures value { result ≡ marks.is_next text.entry.bytes.now text.entry.tokens.now is_name at }
    ensures there { IsTrue result → at < length text.entry.tokens.now.items }
{
    if at as usize >= text.tokens.len() {
        return false;
    }
    match Reader::new(text.bytes, text.tokens, at as usize).peek() {
        Ok(token) => token.is_name(),
        Err(_) => false,
    }
}

/// `"nil" "=>"`, or the same with `Leaf`
fn is_bare(text: Text<'_>, at: u32) -> bool
    requires at { at ≤ length text.tokens.now.items }
    requires count { length text.tokens.now.items < 2 ^ 32 }
    ensures { result ≡ specs.is_bare text.entry.bytes.now text.entry.tokens.now at }
{
    if leads_spec_word(text, at, SpecWord::Nil) || leads_spec_word(text, at, SpecWord::Leaf) {
        return leads_mark(text, at + 1, Punctuator::FatArrow);
    }
    false
}

/// `name "::" name "=>"`
fn is_cons(text: Text<'_>, at: u32) -> bool
    requires at { at ≤ length text.tokens.now.items }
    requires count { length text.tokens.now.items < 2 ^ 32 }
    ensures { result ≡ specs.is_cons text.entry.bytes.now text.entry.tokens.now at }
{
    if !leads_name(text, at) {
        return false;
    }
    if !leads_mark(text, at + 1, Punctuator::ColonColon) {
        return false;
    }
    leads_name(text, at + 2) && leads_mark(text, at + 3, Punctuator::FatArrow)
}

/// `name ","`
fn is_item(text: Text<'_>, at: u32) -> bool
    requires at { at ≤ length text.tokens.now.items }
    requires count { length text.tokens.now.items < 2 ^ 32 }
    ensures value { result ≡ specs.is_item text.entry.bytes.now text.entry.tokens.now at }
    ensures there { IsTrue result → at + 2 ≤ length text.entry.tokens.now.items }
{
    leads_name(text, at) && leads_mark(text, at + 1, Punctuator::Comma)
}

/// `name ")" "=>"`
fn is_last(text: Text<'_>, at: u32) -> bool
    requires at { at ≤ length text.tokens.now.items }
    requires count { length text.tokens.now.items < 2 ^ 32 }
    ensures { result ≡ specs.is_last text.entry.bytes.now text.entry.tokens.now at }
{
    if !leads_name(text, at) {
        return false;
    }
    leads_mark(text, at + 1, Punctuator::CloseParen)
        && leads_mark(text, at + 2, Punctuator::FatArrow)
}

/// `"Node" "(" name "," name "," name ")" "=>"`
fn is_node(text: Text<'_>, at: u32) -> bool
    requires at { at ≤ length text.tokens.now.items }
    requires count { length text.tokens.now.items < 2 ^ 32 }
    ensures { result ≡ specs.is_node text.entry.bytes.now text.entry.tokens.now at }
{
    if !leads_spec_word(text, at, SpecWord::Node) {
        return false;
    }
    if !leads_mark(text, at + 1, Punctuator::OpenParen) {
        return false;
    }
    if !is_item(text, at + 2) {
        return false;
    }
    is_item(text, at + 4) && is_last(text, at + 6)
}

/// Whether what stands next has the form of a pattern up to `=>`. Its names may be words.
pub fn leads_pattern(text: Text<'_>, at: u32) -> bool
    requires at { at ≤ length text.tokens.now.items }
    requires count { length text.tokens.now.items < 2 ^ 32 }
    ensures { result ≡ specs.is_pattern text.entry.bytes.now text.entry.tokens.now at }
{
    if is_bare(text, at) {
        return true;
    }
    is_cons(text, at) || is_node(text, at)
}
