//! Readers of what stands behind the words of commands.
ghost use Rattle.floyd_grammar.specs.GivesClauses.{Gives};
ghost use Rattle.floyd_script_arguments.specs.ArgumentClauses as r;

use crate::phrases::read_phrase;
use floyd_grammar::Stop;
use floyd_lex::Punctuator;
use floyd_script_tokens::{Reader, wants};
use floyd_script_trees::Shape;

/// The brackets that may be open in a phrase outside brackets, and in the parentheses of a command, beyond its first.
const BARE_ROOM: u32 = 199;

const INNER_ROOM: u32 = 198;

/// `"(" A ")"`
#[tactic(auto, unfolding(crate::specs::ArgumentClauses::enclosed))]
fn read_enclosed(reader: &mut Reader<'_>) -> Result<(), Stop>
    ensures { Gives result reader.new (r.enclosed reader.old) }
{
    reader.take_mark(Punctuator::OpenParen)?;
    read_phrase(reader, INNER_ROOM)?;
    reader.take_mark(Punctuator::CloseParen)
}

/// `"(" [ T { ";" T } ] ")"`
#[tactic(auto, unfolding(crate::specs::ArgumentClauses::terms))]
fn read_terms(reader: &mut Reader<'_>) -> Result<(), Stop>
    ensures { Gives result reader.new (r.terms reader.old) }
{
    reader.take_mark(Punctuator::OpenParen)?;
    if reader.leads_other(Punctuator::CloseParen) {
        read_some_terms(reader)?;
    }
    reader.take_mark(Punctuator::CloseParen)
}

/// `T { ";" T }`
#[tactic(auto, unfolding(crate::specs::ArgumentClauses::some_terms))]
fn read_some_terms(reader: &mut Reader<'_>) -> Result<(), Stop>
    ensures { Gives result reader.new (r.some_terms reader.old) }
{
    read_phrase(reader, INNER_ROOM)?;
    'each: while reader.leads_mark(Punctuator::Semicolon) {
        read_next_term(reader)?;
    }
    Ok(())
}

#[tactic(auto, unfolding(crate::specs::ArgumentClauses::next_term))]
fn read_next_term(reader: &mut Reader<'_>) -> Result<(), Stop>
    ensures { Gives result reader.new (r.next_term reader.old) }
{
    reader.take_mark(Punctuator::Semicolon)?;
    read_phrase(reader, INNER_ROOM)
}

#[tactic(auto, unfolding(crate::specs::ArgumentClauses::given))]
fn take_given(reader: &mut Reader<'_>) -> Result<(), Stop>
    ensures { Gives result reader.new (r.given reader.old) }
{
    let token = reader.peek()?;
    reader.take(wants(token.is_given()))
}

/// Names of variables in parentheses, with `;` between them.
#[tactic(auto, unfolding(crate::specs::ArgumentClauses::givens))]
fn read_givens(reader: &mut Reader<'_>) -> Result<(), Stop>
    ensures { Gives result reader.new (r.givens reader.old) }
{
    reader.take_mark(Punctuator::OpenParen)?;
    if reader.leads_other(Punctuator::CloseParen) {
        read_some_givens(reader)?;
    }
    reader.take_mark(Punctuator::CloseParen)
}

#[tactic(auto, unfolding(crate::specs::ArgumentClauses::some_givens))]
fn read_some_givens(reader: &mut Reader<'_>) -> Result<(), Stop>
    ensures { Gives result reader.new (r.some_givens reader.old) }
{
    take_given(reader)?;
    'each: while reader.leads_mark(Punctuator::Semicolon) {
        read_next_given(reader)?;
    }
    Ok(())
}

#[tactic(auto, unfolding(crate::specs::ArgumentClauses::next_given))]
fn read_next_given(reader: &mut Reader<'_>) -> Result<(), Stop>
    ensures { Gives result reader.new (r.next_given reader.old) }
{
    reader.take_mark(Punctuator::Semicolon)?;
    take_given(reader)
}

/// Names of variables, one after the other.
fn read_all_given(reader: &mut Reader<'_>) -> Result<(), Stop>
    ensures { Gives result reader.new (r.all_given reader.old) }
{
    'each: while reader.leads_given() {
        take_given(reader)?;
    }
    Ok(())
}

#[tactic(auto, unfolding(crate::specs::ArgumentClauses::name))]
fn take_name(reader: &mut Reader<'_>) -> Result<(), Stop>
    ensures { Gives result reader.new (r.name reader.old) }
{
    let token = reader.peek()?;
    reader.take(wants(token.is_name()))
}

#[tactic(auto, unfolding(crate::specs::ArgumentClauses::number))]
fn take_number(reader: &mut Reader<'_>) -> Result<(), Stop>
    ensures { Gives result reader.new (r.number reader.old) }
{
    let token = reader.peek()?;
    reader.take(wants(token.is_number()))
}

#[tactic(auto, unfolding(crate::specs::ArgumentClauses::hypothesis))]
fn take_hypothesis(reader: &mut Reader<'_>) -> Result<(), Stop>
    ensures { Gives result reader.new (r.hypothesis reader.old) }
{
    let token = reader.peek()?;
    reader.take(wants(token.names_hypothesis()))
}

/// `"(" A ")" [ "continue" "(" A ")" ] "break" "(" A ")"`
#[tactic(auto, unfolding(crate::specs::ArgumentClauses::loop_assertions))]
fn read_loop(reader: &mut Reader<'_>) -> Result<(), Stop>
    ensures { Gives result reader.new (r.loop_assertions reader.old) }
{
    read_enclosed(reader)?;
    read_maybe_continue(reader)?;
    read_behind_word(reader, b"break".as_slice())
}

#[tactic(auto, unfolding(crate::specs::ArgumentClauses::maybe_continue))]
fn read_maybe_continue(reader: &mut Reader<'_>) -> Result<(), Stop>
    ensures { Gives result reader.new (r.maybe_continue reader.old) }
{
    if reader.leads_word(b"continue".as_slice()) {
        return read_behind_word(reader, b"continue".as_slice());
    }
    Ok(())
}

/// A word, and an assertion in parentheses.
#[tactic(auto, unfolding(crate::specs::ArgumentClauses::behind_word, crate::specs::ArgumentClauses::word))]
fn read_behind_word(reader: &mut Reader<'_>, word: &[u8]) -> Result<(), Stop>
    ensures { Gives result reader.new (r.behind_word word.now reader.old) }
{
    reader.take_word(word)?;
    read_enclosed(reader)
}

/// `[ "(" A ")" ]`
#[tactic(auto, unfolding(crate::specs::ArgumentClauses::maybe_enclosed))]
fn read_maybe_enclosed(reader: &mut Reader<'_>) -> Result<(), Stop>
    ensures { Gives result reader.new (r.maybe_enclosed reader.old) }
{
    if reader.leads_mark(Punctuator::OpenParen) {
        return read_enclosed(reader);
    }
    Ok(())
}

/// A mark that may be absent.
#[tactic(auto, unfolding(crate::specs::ArgumentClauses::maybe_mark))]
fn read_maybe_mark(reader: &mut Reader<'_>, mark: Punctuator) -> Result<(), Stop>
    ensures { Gives result reader.new (r.maybe_mark mark reader.old) }
{
    if reader.leads_mark(mark) {
        return reader.take_mark(mark);
    }
    Ok(())
}

#[tactic(auto, unfolding(crate::specs::ArgumentClauses::maybe_given))]
fn read_maybe_given(reader: &mut Reader<'_>) -> Result<(), Stop>
    ensures { Gives result reader.new (r.maybe_given reader.old) }
{
    if reader.leads_given() {
        return take_given(reader);
    }
    Ok(())
}

/// A hypothesis, behind which names may stand, or another name with them.
#[tactic(auto, unfolding(crate::specs::ArgumentClauses::destructed, crate::specs::ArgumentClauses::names_behind))]
fn read_destructed(reader: &mut Reader<'_>) -> Result<(), Stop>
    ensures { Gives result reader.new (r.destructed reader.old) }
{
    let token = reader.peek()?;
    let is_hypothesis = reader.take(token.destructed())?;
    if is_hypothesis && !reader.leads_mark(Punctuator::OpenParen) {
        return Ok(());
    }
    read_givens(reader)
}

/// `( "N" | hypothesis ) ":" [ "-" ] number`
#[tactic(auto, unfolding(crate::specs::ArgumentClauses::weight, crate::specs::ArgumentClauses::number))]
fn read_weight(reader: &mut Reader<'_>) -> Result<(), Stop>
    ensures { Gives result reader.new (r.weight reader.old) }
{
    let token = reader.peek()?;
    reader.take(wants(token.is_word(b"N".as_slice()) || token.names_hypothesis()))?;
    reader.take_mark(Punctuator::Colon)?;
    read_maybe_mark(reader, Punctuator::Minus)?;
    take_number(reader)
}

/// Weights in parentheses, with `,` between them.
#[tactic(auto, unfolding(crate::specs::ArgumentClauses::weights))]
fn read_weights(reader: &mut Reader<'_>) -> Result<(), Stop>
    ensures { Gives result reader.new (r.weights reader.old) }
{
    reader.take_mark(Punctuator::OpenParen)?;
    if reader.leads_other(Punctuator::CloseParen) {
        read_some_weights(reader)?;
    }
    reader.take_mark(Punctuator::CloseParen)
}

#[tactic(auto, unfolding(crate::specs::ArgumentClauses::some_weights))]
fn read_some_weights(reader: &mut Reader<'_>) -> Result<(), Stop>
    ensures { Gives result reader.new (r.some_weights reader.old) }
{
    read_weight(reader)?;
    'each: while reader.leads_mark(Punctuator::Comma) {
        read_next_weight(reader)?;
    }
    Ok(())
}

#[tactic(auto, unfolding(crate::specs::ArgumentClauses::next_weight))]
fn read_next_weight(reader: &mut Reader<'_>) -> Result<(), Stop>
    ensures { Gives result reader.new (r.next_weight reader.old) }
{
    reader.take_mark(Punctuator::Comma)?;
    read_weight(reader)
}

/// The number of a part, or a hypothesis.
#[tactic(auto, unfolding(crate::specs::ArgumentClauses::number_or_hypothesis))]
fn take_number_or_hypothesis(reader: &mut Reader<'_>) -> Result<(), Stop>
    ensures { Gives result reader.new (r.number_or_hypothesis reader.old) }
{
    let token = reader.peek()?;
    reader.take(wants(token.is_number() || token.names_hypothesis()))
}

/// What stands behind a word of this shape.
pub fn read_arguments(reader: &mut Reader<'_>, shape: Shape) -> Result<(), Stop>
    ensures { Gives result reader.new (r.arguments shape reader.old) }
{
    match shape {
        Shape::Nothing => Ok(()),
        Shape::MaybeEnclosed => read_maybe_enclosed(reader),
        Shape::Enclosed => read_enclosed(reader),
        Shape::Loop => read_loop(reader),
        Shape::Terms => read_terms(reader),
        Shape::NamedTerms => {
            take_name(reader)?;
            read_terms(reader)
        }
        Shape::NamedTwice => {
            take_name(reader)?;
            read_terms(reader)?;
            read_terms(reader)
        }
        Shape::Named => take_name(reader),
        Shape::Givens => read_all_given(reader),
        Shape::MaybeGiven => read_maybe_given(reader),
        Shape::Bare => read_phrase(reader, BARE_ROOM),
        Shape::Number => take_number(reader),
        Shape::NumberOrHypothesis => take_number_or_hypothesis(reader),
        Shape::NumberTerm => {
            take_number(reader)?;
            read_enclosed(reader)
        }
        Shape::TwoNumbers => {
            take_number(reader)?;
            take_number(reader)
        }
        Shape::Rewriting => {
            read_maybe_mark(reader, Punctuator::LeftArrow)?;
            take_hypothesis(reader)
        }
        Shape::Destructing => read_destructed(reader),
        Shape::NamedGivens => {
            take_name(reader)?;
            read_givens(reader)
        }
        Shape::HypothesisTerm => {
            take_hypothesis(reader)?;
            read_enclosed(reader)
        }
        Shape::Hypothesis => take_hypothesis(reader),
        Shape::Weights => read_weights(reader),
    }
}
