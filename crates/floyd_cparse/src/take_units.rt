//! Tokens of declarations, as the reader takes them.
ghost use Rattle.std.specs.Prelude.{◌≡◌, ◌<◌, ◌^◌, IfOk, []};
ghost use Rattle.floyd_cparse_statements.specs.Statements as s;
ghost use Rattle.floyd_cparse.specs.Units as u;
ghost use Rattle.floyd_cparse.specs.UnitClauses as r;
ghost use Rattle.floyd_grammar.specs.ParseClauses.{leads, one};
ghost use Rattle.floyd_grammar.specs.GivesClauses.{Gives};

use crate::values::{GlobalEnd, InitialiserStart, ValueEnd};
use floyd_cparse_tokens::{Reader, Sight, TypeNames, UNEXPECTED, found_or};
use floyd_cparse_trees::{Identifier, Literal};
use floyd_cparse_types::{DeclaratorEnd, Declared, after_declarator};
use floyd_grammar::Stop;
use floyd_lex::{Keyword, Punctuator};
use floyd_text::Place;
use std::alloc::{AllocError, Global};

/// How deep a token may stand.
pub(crate) const LIMIT: u32 = 200;

fn initialiser_start(
    alloc: Global,
    sight: &Sight<'_>,
    types: &TypeNames,
) -> Result<Option<InitialiserStart>, AllocError>
    ensures { IfOk result (λ x. x ≡ u.start_of_init types.now sight.now) }
{
    if sight.is_mark(Punctuator::OpenBrace) {
        Ok(Some(InitialiserStart::List(sight.place())))
    } else if sight.is_mark(Punctuator::Minus) {
        Ok(Some(InitialiserStart::Minus))
    } else if sight.is_mark(Punctuator::Ampersand) {
        Ok(Some(InitialiserStart::Address))
    } else if sight.is_plain(types) {
        Ok(Some(InitialiserStart::Name(sight.identifier(alloc)?)))
    } else {
        Ok(literal_start(sight.literal()))
    }
}

fn plain_name(
    alloc: Global,
    sight: &Sight<'_>,
    types: &TypeNames,
) -> Result<Option<Identifier>, AllocError>
    ensures { IfOk result (λ x. x ≡ u.plain_name types.now sight.now) }
{
    if sight.is_plain(types) {
        Ok(Some(sight.identifier(alloc)?))
    } else {
        Ok(None)
    }
}

/// A `,` before `}`, which ends a list.
fn is_last_comma(sight: &Sight<'_>) -> bool
    ensures { result ≡ u.is_last_comma sight.now }
{
    sight.is_mark(Punctuator::Comma) && sight.precedes(Punctuator::CloseBrace)
}

fn separates_values(sight: &Sight<'_>) -> bool
    ensures { result ≡ u.is_separator sight.now }
{
    sight.is_mark(Punctuator::Comma) && !sight.precedes(Punctuator::CloseBrace)
}

/// For what it is refused directly behind initial data that ends so.
fn after_value(sight: &Sight<'_>, types: &TypeNames, room: u32, end: ValueEnd) -> u8
    ensures { result ≡ u.after_value types.now room end sight.now }
{
    if sight.is_mark(Punctuator::Comma) || (end.address && sight.is_mark(Punctuator::OpenBracket)) {
        UNEXPECTED
    } else {
        sight.blame(types, room, end.count as u64, UNEXPECTED)
    }
}

/// For what it is refused directly behind a declarator with or without initial data.
#[tactic(auto, unfolding(crate::specs::Units::limit))]
fn after_global(sight: &Sight<'_>, types: &TypeNames, end: GlobalEnd) -> u8
    ensures { result ≡ u.after_global types.now end sight.now }
{
    match end {
        GlobalEnd::Declarator(declarator) => {
            if sight.is_mark(Punctuator::Comma) || sight.is_mark(Punctuator::Equal) {
                UNEXPECTED
            } else {
                after_declarator(
                    sight,
                    types,
                    Declared::Object,
                    LIMIT,
                    declarator,
                    UNEXPECTED,
                )
            }
        }
        GlobalEnd::Value(value) => after_value(sight, types, LIMIT, value),
    }
}

fn literal_start(literal: Option<Literal>) -> Option<InitialiserStart>
    ensures { result ≡ u.start_of_literal literal }
{
    match literal {
        Some(literal) => Some(InitialiserStart::Literal(literal)),
        None => None,
    }
}

pub(crate) fn take_init(
    alloc: Global,
    reader: &mut Reader<'_>,
    types: &TypeNames,
    room: u32,
) -> Result<InitialiserStart, Stop>
    ensures { Gives result reader.new (one (u.init_token types.now room) reader.old) }
{
    let sight = reader.peek()?;
    let start = initialiser_start(alloc, &sight, types)?;
    reader.take(sight.demand(types, room, 0, UNEXPECTED, start))
}

pub(crate) fn take_element(reader: &mut Reader<'_>, room: u32) -> Result<Place, Stop>
    ensures { Gives result reader.new (one (u.element_token room) reader.old) }
{
    let sight = reader.peek()?;
    let place = sight.place_if(sight.is_mark(Punctuator::OpenBracket));
    reader.take(sight.offer(room, 0, place))
}

pub(crate) fn take_literal(
    reader: &mut Reader<'_>,
    types: &TypeNames,
    room: u32,
) -> Result<Literal, Stop>
    ensures { Gives result reader.new (one (u.literal_token types.now room) reader.old) }
{
    let sight = reader.peek()?;
    reader.take(sight.demand(types, room, 1, UNEXPECTED, sight.literal()))
}

pub(crate) fn take_element_end(
    reader: &mut Reader<'_>,
    types: &TypeNames,
    room: u32,
) -> Result<Place, Stop>
    ensures { Gives result reader.new (one (u.element_end types.now room) reader.old) }
{
    let sight = reader.peek()?;
    let cause = sight.blame(types, room, 1, UNEXPECTED);
    let place = sight.place_if(sight.is_mark(Punctuator::CloseBracket));
    reader.take(found_or(cause, place))
}

pub(crate) fn take_name(
    alloc: Global,
    reader: &mut Reader<'_>,
    types: &TypeNames,
    room: u32,
) -> Result<Identifier, Stop>
    ensures { Gives result reader.new (one (u.name_token types.now room) reader.old) }
{
    let sight = reader.peek()?;
    let name = plain_name(alloc, &sight, types)?;
    reader.take(sight.demand(types, room, 1, UNEXPECTED, name))
}

pub(crate) fn leads_last_comma(reader: &Reader<'_>) -> bool
    ensures { result ≡ leads u.is_last_comma reader.now }
{
    match reader.peek() {
        Ok(sight) => is_last_comma(&sight),
        Err(_) => false,
    }
}

pub(crate) fn take_last_comma(reader: &mut Reader<'_>) -> Result<Place, Stop>
    ensures { Gives result reader.new (one u.last_comma_token reader.old) }
{
    let sight = reader.peek()?;
    let place = sight.place_if(is_last_comma(&sight));
    reader.take(found_or(UNEXPECTED, place))
}

pub(crate) fn leads_separator(reader: &Reader<'_>) -> bool
    ensures { result ≡ leads u.is_separator reader.now }
{
    match reader.peek() {
        Ok(sight) => separates_values(&sight),
        Err(_) => false,
    }
}

pub(crate) fn take_separator(reader: &mut Reader<'_>) -> Result<Place, Stop>
    ensures { Gives result reader.new (one u.separator_token reader.old) }
{
    let sight = reader.peek()?;
    let place = sight.place_if(separates_values(&sight));
    reader.take(found_or(UNEXPECTED, place))
}

pub(crate) fn take_values_end(
    reader: &mut Reader<'_>,
    types: &TypeNames,
    room: u32,
    end: ValueEnd,
) -> Result<Place, Stop>
    ensures { Gives result reader.new (one (u.values_end types.now room end) reader.old) }
{
    let sight = reader.peek()?;
    let cause = after_value(&sight, types, room, end);
    let place = sight.place_if(sight.is_mark(Punctuator::CloseBrace));
    reader.take(found_or(cause, place))
}

pub(crate) fn take_typedef(reader: &mut Reader<'_>) -> Result<Place, Stop>
    ensures { Gives result reader.new (one u.typedef_token reader.old) }
{
    let sight = reader.peek()?;
    let place = sight.place_if(sight.is_word(Keyword::Typedef));
    reader.take(found_or(UNEXPECTED, place))
}

pub(crate) fn take_extern(reader: &mut Reader<'_>) -> Result<Place, Stop>
    ensures { Gives result reader.new (one u.extern_token reader.old) }
{
    let sight = reader.peek()?;
    let place = sight.place_if(sight.is_word(Keyword::Extern));
    reader.take(found_or(UNEXPECTED, place))
}

pub(crate) fn take_semicolon_end(reader: &mut Reader<'_>) -> Result<Place, Stop>
    ensures { Gives result reader.new (one u.semicolon_end reader.old) }
{
    let sight = reader.peek()?;
    let place = sight.place_if(sight.is_mark(Punctuator::Semicolon));
    reader.take(found_or(UNEXPECTED, place))
}

/// A block begins, which a declaration with `extern` does not have.
pub(crate) fn leads_body(reader: &Reader<'_>, external: bool) -> bool
    ensures { result ≡ leads (r.begins_body external) reader.now }
{
    reader.leads_mark(Punctuator::OpenBrace) && !external
}

pub(crate) fn take_body(reader: &mut Reader<'_>, external: bool) -> Result<Place, Stop>
    ensures { Gives result reader.new (one (u.body_token external) reader.old) }
{
    let sight = reader.peek()?;
    let place = sight.place_if(sight.is_mark(Punctuator::OpenBrace) && !external);
    reader.take(found_or(UNEXPECTED, place))
}

#[tactic(auto, unfolding(crate::specs::Units::limit))]
pub(crate) fn take_typedefs_end(
    reader: &mut Reader<'_>,
    types: &TypeNames,
    end: DeclaratorEnd,
) -> Result<Place, Stop>
    ensures { Gives result reader.new (one (u.typedefs_end (record { items = []; types = types.now; end = end })) reader.old) }
{
    let sight = reader.peek()?;
    let cause = if sight.is_mark(Punctuator::Comma) {
        UNEXPECTED
    } else {
        after_declarator(&sight, types, Declared::Type, LIMIT, end, UNEXPECTED)
    };
    let place = sight.place_if(sight.is_mark(Punctuator::Semicolon));
    reader.take(found_or(cause, place))
}

#[tactic(auto, unfolding(crate::specs::Units::limit))]
pub(crate) fn take_globals_end(
    reader: &mut Reader<'_>,
    types: &TypeNames,
    end: GlobalEnd,
) -> Result<Place, Stop>
    ensures { Gives result reader.new (one (u.globals_end types.now end) reader.old) }
{
    let sight = reader.peek()?;
    let cause = after_global(&sight, types, end);
    let place = sight.place_if(sight.is_mark(Punctuator::Semicolon));
    reader.take(found_or(cause, place))
}
