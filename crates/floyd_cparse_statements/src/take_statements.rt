//! Tokens of statements, as the reader takes them.
ghost use Rattle.std.specs.Prelude.{◌≡◌, [], Err};
ghost use Rattle.floyd_cparse_statements.specs.Statements as s;
ghost use Rattle.floyd_cparse_statements.specs.StatementClauses as r;
ghost use Rattle.floyd_cparse_tokens.specs.Tokens.{is_mark, place_if};
ghost use Rattle.floyd_grammar.specs.ParseClauses.{leads, one};
ghost use Rattle.floyd_grammar.specs.GivesClauses.{Gives};

use crate::read_labels::is_label_word;
use crate::values::{LocalEnd, ReadStatement, StatementStart};
use floyd_cparse_expressions::{Comma, Operand, after_expression};
use floyd_cparse_tokens::{LEFT_OUT, Reader, Sight, TOO_DEEP, TypeNames, UNEXPECTED, found_or};
use floyd_cparse_trees::SwitchCase;
use floyd_cparse_types::{Declared, after_declarator};
use floyd_grammar::Stop;
use floyd_lex::{Keyword, Punctuator};
use floyd_text::Place;
use sqlite_items::Items;

/// A name before `:`.
fn is_label(sight: &Sight<'_>) -> bool
    ensures { result ≡ s.is_label sight.now }
{
    sight.is_name() && sight.precedes(Punctuator::Colon)
}

fn begins_declaration(sight: &Sight<'_>, types: &TypeNames) -> bool
    ensures { result ≡ s.begins_declaration types.now sight.now }
{
    sight.begins_type(types) && !is_label(sight)
}

fn barred_list(sight: &Sight<'_>, room: u32) -> Option<u8>
    ensures { result ≡ s.list_of_values room sight.now }
{
    if !sight.is_mark(Punctuator::OpenBrace) {
        None
    } else if sight.is_deep(room, 0) {
        Some(TOO_DEEP)
    } else {
        Some(LEFT_OUT)
    }
}

/// An `else` that belongs to the statement before.
fn is_taken_else(sight: &Sight<'_>, takes_else: bool) -> bool
    ensures { result ≡ s.is_taken_else takes_else sight.now }
{
    takes_else && sight.is_word(Keyword::Else)
}

/// The mark or word with which a statement begins that is no effect.
fn statement_start(sight: &Sight<'_>) -> Option<StatementStart>
    ensures { result ≡ s.start_of_statement sight.now }
{
    if sight.is_mark(Punctuator::OpenBrace) {
        Some(StatementStart::Block)
    } else if sight.is_mark(Punctuator::Semicolon) {
        Some(StatementStart::Empty)
    } else if sight.is_word(Keyword::If) {
        Some(StatementStart::If(sight.place()))
    } else if sight.is_word(Keyword::While) {
        Some(StatementStart::While(sight.place()))
    } else if sight.is_word(Keyword::Do) {
        Some(StatementStart::Do)
    } else if sight.is_word(Keyword::For) {
        Some(StatementStart::For(sight.place()))
    } else if sight.is_word(Keyword::Switch) {
        Some(StatementStart::Switch(sight.place()))
    } else {
        leaving_start(sight)
    }
}

fn leaving_start(sight: &Sight<'_>) -> Option<StatementStart>
    ensures { result ≡ s.leaving_start sight.now }
{
    if sight.is_word(Keyword::Break) {
        Some(StatementStart::Break)
    } else if sight.is_word(Keyword::Continue) {
        Some(StatementStart::Continue)
    } else if sight.is_word(Keyword::Return) {
        Some(StatementStart::Return(sight.place()))
    } else {
        None
    }
}

/// For what it is refused directly behind a declarator with or without a right side.
fn after_local(sight: &Sight<'_>, types: &TypeNames, room: u32, end: LocalEnd) -> u8
    ensures { result ≡ s.after_local types.now room end sight.now }
{
    match end {
        LocalEnd::Declarator(declarator) => {
            if sight.is_mark(Punctuator::Comma) || sight.is_mark(Punctuator::Equal) {
                UNEXPECTED
            } else {
                after_declarator(sight, types, Declared::Object, room, declarator, UNEXPECTED)
            }
        }
        LocalEnd::Value(value) => after_expression(sight, types, Comma::Separates, room, value),
    }
}

/// The mark stands next, with which a part ends that may be absent.
pub(crate) fn leads_end(reader: &Reader<'_>, end: Punctuator) -> bool
    ensures { result ≡ leads (r.is_ending (λ s. place_if (is_mark end s) s)) reader.now }
{
    match reader.peek() {
        Ok(sight) => sight.place_if(sight.is_mark(end)).is_some(),
        Err(_) => false,
    }
}

pub(crate) fn take_end(reader: &mut Reader<'_>, end: Punctuator) -> Result<Place, Stop>
    ensures { Gives result reader.new (one (s.ending_token (λ s. place_if (is_mark end s) s)) reader.old) }
{
    let sight = reader.peek()?;
    let place = sight.place_if(sight.is_mark(end));
    reader.take(found_or(UNEXPECTED, place))
}

pub(crate) fn take_value_end(
    reader: &mut Reader<'_>,
    types: &TypeNames,
    comma: Comma,
    room: u32,
    end: Punctuator,
    value: &Operand,
) -> Result<Place, Stop>
    ensures { Gives result reader.new (one (s.value_end types.now comma room (λ s. place_if (is_mark end s) s) value.now) reader.old) }
{
    let sight = reader.peek()?;
    let cause = after_expression(&sight, types, comma, room, value.end);
    let place = sight.place_if(sight.is_mark(end));
    reader.take(found_or(cause, place))
}

pub(crate) fn take_semicolon(
    reader: &mut Reader<'_>,
    types: &TypeNames,
    room: u32,
    count: u32,
) -> Result<Place, Stop>
    ensures { Gives result reader.new (one (s.semicolon_token types.now room count) reader.old) }
{
    let sight = reader.peek()?;
    let place = sight.place_if(sight.is_mark(Punctuator::Semicolon));
    reader.take(sight.demand(types, room, count as u64, UNEXPECTED, place))
}

pub(crate) fn take_while(
    reader: &mut Reader<'_>,
    types: &TypeNames,
    room: u32,
    count: u32,
) -> Result<Place, Stop>
    ensures { Gives result reader.new (one (s.while_token types.now room count) reader.old) }
{
    let sight = reader.peek()?;
    let place = sight.place_if(sight.is_word(Keyword::While));
    reader.take(sight.demand(types, room, count as u64, UNEXPECTED, place))
}

/// A statement that is no effect begins, and is not too deep.
pub(crate) fn leads_started(reader: &Reader<'_>, room: u32) -> bool
    ensures { result ≡ leads (r.begins_started room) reader.now }
{
    match reader.peek() {
        Ok(sight) => statement_start(&sight).is_some() && !sight.is_deep(room, 0),
        Err(_) => false,
    }
}

pub(crate) fn take_start(reader: &mut Reader<'_>, room: u32) -> Result<StatementStart, Stop>
    ensures { Gives result reader.new (one (s.statement_token room) reader.old) }
{
    let sight = reader.peek()?;
    if sight.is_deep(room, 0) {
        return reader.take(Err(UNEXPECTED));
    }
    reader.take(found_or(UNEXPECTED, statement_start(&sight)))
}

/// An `else` that belongs to the `if` before.
pub(crate) fn leads_else(reader: &Reader<'_>, body: &ReadStatement) -> bool
    ensures { result ≡ leads (r.begins_else body.now) reader.now }
{
    reader.leads_word(Keyword::Else) && !body.takes_else
}

pub(crate) fn take_else(reader: &mut Reader<'_>, body: &ReadStatement) -> Result<Place, Stop>
    ensures { Gives result reader.new (one (s.else_token body.now) reader.old) }
{
    let sight = reader.peek()?;
    let place = sight.place_if(sight.is_word(Keyword::Else) && !body.takes_else);
    reader.take(found_or(UNEXPECTED, place))
}

pub(crate) fn leads_declaration(reader: &Reader<'_>, types: &TypeNames) -> bool
    ensures { result ≡ leads (s.begins_declaration types.now) reader.now }
{
    match reader.peek() {
        Ok(sight) => begins_declaration(&sight, types),
        Err(_) => false,
    }
}

/// A token stands next that is neither `}` nor an `else` that belongs to the statement before.
pub(crate) fn leads_item(reader: &Reader<'_>, takes_else: bool) -> bool
    ensures { result ≡ leads (r.begins_item (record { items = []; takes_else = takes_else })) reader.now }
{
    match reader.peek() {
        Ok(sight) => {
            !(sight.is_mark(Punctuator::CloseBrace) || is_taken_else(&sight, takes_else))
        }
        Err(_) => false,
    }
}

/// A token stands next that is neither `}`, nor a label's, nor an `else` that belongs to the statement before.
pub(crate) fn leads_case_item(reader: &Reader<'_>, takes_else: bool) -> bool
    ensures { result ≡ leads (r.begins_case_item (record { items = []; takes_else = takes_else })) reader.now }
{
    match reader.peek() {
        Ok(sight) => {
            !(sight.is_mark(Punctuator::CloseBrace)
                || (is_label_word(&sight) || is_taken_else(&sight, takes_else)))
        }
        Err(_) => false,
    }
}

/// No case of the switch was read so far.
pub(crate) fn is_first(cases: &Items<SwitchCase>) -> bool
    ensures { result ≡ s.is_first cases.now }
{
    matches!(cases.as_slice(), [])
}

/// A case begins, or a token stands where the first one must.
pub(crate) fn leads_case(reader: &Reader<'_>, cases: &Items<SwitchCase>) -> bool
    ensures { result ≡ leads (r.begins_case cases.now) reader.now }
{
    match reader.peek() {
        Ok(sight) if is_first(cases) => !sight.is_mark(Punctuator::CloseBrace),
        Ok(sight) => is_label_word(&sight),
        Err(_) => false,
    }
}

pub(crate) fn take_brace(
    reader: &mut Reader<'_>,
    types: &TypeNames,
    room: u32,
    count: u32,
) -> Result<Place, Stop>
    ensures { Gives result reader.new (one (s.brace_token types.now room count) reader.old) }
{
    let sight = reader.peek()?;
    let place = sight.place_if(sight.is_mark(Punctuator::OpenBrace));
    reader.take(sight.demand(types, room, count as u64, UNEXPECTED, place))
}

/// For what `{` is refused behind the `=` of a local variable.
pub(crate) fn bars_list(reader: &Reader<'_>, room: u32) -> Option<u8>
    ensures { result ≡ r.barred_next (s.list_of_values room) reader.now }
{
    match reader.peek() {
        Ok(sight) => barred_list(&sight, room),
        Err(_) => None,
    }
}

/// For what a label is refused.
pub(crate) fn bars_label(reader: &Reader<'_>) -> Option<u8>
    ensures { result ≡ r.barred_next s.label reader.now }
{
    match reader.peek() {
        Ok(sight) if is_label(&sight) => Some(LEFT_OUT),
        _ => None,
    }
}

pub fn take_equal(reader: &mut Reader<'_>) -> Result<Place, Stop>
    ensures { Gives result reader.new (one s.equal_token reader.old) }
{
    let sight = reader.peek()?;
    let place = sight.place_if(sight.is_mark(Punctuator::Equal));
    reader.take(found_or(UNEXPECTED, place))
}

pub(crate) fn take_locals_end(
    reader: &mut Reader<'_>,
    types: &TypeNames,
    room: u32,
    end: LocalEnd,
) -> Result<Place, Stop>
    ensures { Gives result reader.new (one (s.locals_end types.now room end) reader.old) }
{
    let sight = reader.peek()?;
    let cause = after_local(&sight, types, room, end);
    let place = sight.place_if(sight.is_mark(Punctuator::Semicolon));
    reader.take(found_or(cause, place))
}
