//! Calls of a name.
ghost use Rattle.std.specs.Prelude.{◌≡◌, ◌≤◌, ◌<◌, ◌+◌, ◌-◌, ◌++◌, ◌^◌, IfOk, IsTrue, OnOk, length};
ghost use Rattle.floyd_specread_words.specs.Calls as specs;
ghost use Rattle.floyd_termread_marks.specs.Marks as marks;

use floyd_assert_trees::PlaceList;
use floyd_lex::Punctuator;
use floyd_termread_marks::{first_place, leads_mark};
use floyd_termread_phrases::Text;
use floyd_termread_tokens::Reader;
use floyd_text::Name;
use sqlite_items::Items;
use std::alloc::{AllocError, Global};

/// Whether the name stands next.
fn leads_name(text: Text<'_>, at: u32, name: &Name) -> bool
    requires { at ≤ length text.tokens.now.items }
    ensures { result ≡ marks.is_next text.entry.bytes.now text.entry.tokens.now (specs.is_name_of name.now) at }
{
    match Reader::new(text.bytes, text.tokens, at as usize).peek() {
        Ok(token) => token.is_name() && token.text() == name.as_slice(),
        Err(_) => false,
    }
}

/// Whether the token of this number is the name and an opening parenthesis stands behind it.
pub fn is_call(text: Text<'_>, at: u32, name: &Name) -> bool
    requires at { at < length text.tokens.now.items }
    requires count { length text.tokens.now.items < 2 ^ 32 }
    ensures value { result ≡ specs.is_call text.entry.bytes.now text.entry.tokens.now name.now at }
    ensures there { IsTrue result → at + 2 ≤ length text.entry.tokens.now.items }
{
    leads_name(text, at, name) && leads_mark(text, at + 1, Punctuator::OpenParen)
}

/// Adds the place of the token of this number, where it is a call.
fn put_call(text: Text<'_>, at: u32, name: &Name, places: &mut PlaceList) -> Result<(), AllocError>
    requires at { at < length text.tokens.now.items }
    requires count { length text.tokens.now.items < 2 ^ 32 }
    ensures { OnOk result (places.new ≡ places.old ++ specs.call_at text.entry.bytes.now text.entry.tokens.now name.now at) }
{
    if is_call(text, at, name) {
        places.push(first_place(text, at))?;
    }
    Ok(())
}

/// The places of the tokens from one number up to another, without it, at which the name is called: an opening parenthesis
/// stands behind it.
pub fn calls_between(
    alloc: Global,
    text: Text<'_>,
    name: &Name,
    from: u32,
    to: u32,
) -> Result<PlaceList, AllocError>
    requires order { from ≤ to }
    requires within { to ≤ length text.tokens.now.items }
    requires count { length text.tokens.now.items < 2 ^ 32 }
    ensures { IfOk result (λ places. places ≡ specs.calls_between text.entry.bytes.now text.entry.tokens.now name.now from to) }
{
    let mut places = Items::new(alloc);
    'tokens: for i in 0..to - from {
        put_call(text, from + i, name, &mut places)?;
    }
    Ok(places)
}
