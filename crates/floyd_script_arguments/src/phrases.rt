//! Readers of phrases of tokens: terms, formulas and assertions before they are read as such.
ghost use Rattle.std.specs.Prelude.{◌≡◌, ◌<◌, ◌^◌};
ghost use Rattle.floyd_grammar.specs.GivesClauses.{Gives};
ghost use Rattle.floyd_script_arguments.specs.ArgumentClauses as r;

use floyd_grammar::Stop;
use floyd_lex::Punctuator;
use floyd_script_tokens::{Opening, Reader};

/// What stands in brackets in which `room` more may be open.
#[cycle(contents)]
fn read_contents(reader: &mut Reader<'_>, room: u32) -> Result<(), Stop>
    requires { room < 2 ^ 31 }
    ensures { Gives result reader.new (r.contents room reader.old) }
{
    'each: while reader.leads_phrase(true) {
        read_item(reader, room)?;
    }
    Ok(())
}

/// One more bracket may be open.
fn has_room(room: u32) -> bool
    ensures { result ≡ r.has_room room }
{
    if room == 0 {
        return false;
    }
    true
}

/// A token in brackets, or a pair of brackets.
#[cycle(contents)]
#[tactic(auto, unfolding(crate::specs::ArgumentClauses::item_in, crate::specs::ArgumentClauses::item, crate::specs::ArgumentClauses::after_opening))]
fn read_item(reader: &mut Reader<'_>, room: u32) -> Result<(), Stop>
    requires { room < 2 ^ 31 }
    ensures { Gives result reader.new (r.item_in room reader.old) }
{
    let token = reader.peek()?;
    match reader.take(token.item(true, has_room(room)))? {
        Opening::Plain => Ok(()),
        Opening::Round => read_bracketed(reader, room - 1, Punctuator::CloseParen),
        Opening::Square => read_bracketed(reader, room - 1, Punctuator::CloseBracket),
    }
}

/// What stands in a bracket, and its end.
#[cycle(contents)]
#[tactic(auto, unfolding(crate::specs::ArgumentClauses::bracketed))]
fn read_bracketed(reader: &mut Reader<'_>, room: u32, close: Punctuator) -> Result<(), Stop>
    requires { room < 2 ^ 31 }
    ensures { Gives result reader.new (r.bracketed room close reader.old) }
{
    read_contents(reader, room)?;
    reader.take_mark(close)
}

/// A token outside brackets, or a pair of brackets.
#[tactic(auto, unfolding(crate::specs::ArgumentClauses::item_out, crate::specs::ArgumentClauses::item, crate::specs::ArgumentClauses::after_opening, crate::specs::ArgumentClauses::bracketed))]
fn read_outer(reader: &mut Reader<'_>, room: u32) -> Result<(), Stop>
    requires { room < 2 ^ 31 }
    ensures { Gives result reader.new (r.item_out room reader.old) }
{
    let token = reader.peek()?;
    match reader.take(token.item(false, true))? {
        Opening::Plain => Ok(()),
        Opening::Round => read_bracketed(reader, room, Punctuator::CloseParen),
        Opening::Square => read_bracketed(reader, room, Punctuator::CloseBracket),
    }
}

/// A term, a formula or an assertion as a list of tokens, where one bracket and `room` more in it may be open.
#[tactic(auto, unfolding(crate::specs::ArgumentClauses::phrase))]
pub fn read_phrase(reader: &mut Reader<'_>, room: u32) -> Result<(), Stop>
    requires { room < 2 ^ 31 }
    ensures { Gives result reader.new (r.phrase room reader.old) }
{
    read_outer(reader, room)?;
    'each: while reader.leads_phrase(false) {
        read_outer(reader, room)?;
    }
    Ok(())
}
