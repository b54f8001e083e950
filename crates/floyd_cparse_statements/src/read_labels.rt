//! Readers of the labels of `switch`.
ghost use Rattle.std.specs.Prelude.{◌≡◌, ◌≤◌, IfOk, option_map};
ghost use Rattle.floyd_cparse_statements.specs.Labels as l;
ghost use Rattle.floyd_cparse_statements.specs.LabelClauses as r;
ghost use Rattle.floyd_grammar.specs.ParseClauses.{one};
ghost use Rattle.floyd_grammar.specs.GivesClauses.{Gives};

use crate::values::{CaseStart, LabelLiteral, LabelStart};
use floyd_cparse_tokens::{Reader, Sight, TypeNames, UNEXPECTED, found_or};
use floyd_cparse_trees::SwitchLabel;
use floyd_grammar::Stop;
use floyd_lex::{Keyword, Punctuator};
use floyd_text::{Name, Place};
use std::alloc::{AllocError, Global};

/// The word with which a label begins.
fn label_start(sight: &Sight<'_>) -> Option<LabelStart>
    ensures { result ≡ l.start_of_label sight.now }
{
    if sight.is_word(Keyword::Case) {
        Some(LabelStart::Case)
    } else if sight.is_word(Keyword::Default) {
        Some(LabelStart::Default(sight.place()))
    } else {
        None
    }
}

pub(crate) fn is_label_word(sight: &Sight<'_>) -> bool
    ensures { result ≡ l.is_label_word sight.now }
{
    sight.is_word(Keyword::Case) || sight.is_word(Keyword::Default)
}

fn label_literal(sight: &Sight<'_>, alloc: Global) -> Result<Option<LabelLiteral>, AllocError>
    ensures { IfOk result (λ x. x ≡ l.label_literal sight.now) }
{
    match sight.literal() {
        Some(literal) => {
            let text = Name::from_slice(alloc, sight.text())?;
            Ok(Some(LabelLiteral { literal, text }))
        }
        None => Ok(None),
    }
}

/// What may stand behind `case`: `-`, or a literal.
fn case_start(sight: &Sight<'_>, alloc: Global) -> Result<Option<CaseStart>, AllocError>
    ensures { IfOk result (λ x. x ≡ l.start_of_case sight.now) }
{
    if sight.is_mark(Punctuator::Minus) {
        return Ok(Some(CaseStart::Minus));
    }
    match label_literal(sight, alloc)? {
        Some(literal) => Ok(Some(CaseStart::Literal(literal))),
        None => Ok(None),
    }
}

fn take_label(
    reader: &mut Reader<'_>,
    types: &TypeNames,
    room: u32,
    first: bool,
) -> Result<LabelStart, Stop>
    ensures { Gives result reader.new (one (l.label_token types.now room first) reader.old) }
{
    let sight = reader.peek()?;
    let cause = if first {
        sight.blame(types, room, 0, UNEXPECTED)
    } else {
        UNEXPECTED
    };
    reader.take(found_or(cause, label_start(&sight)))
}

fn take_case(
    alloc: Global,
    reader: &mut Reader<'_>,
    types: &TypeNames,
    room: u32,
) -> Result<CaseStart, Stop>
    ensures { Gives result reader.new (one (l.case_token types.now room) reader.old) }
{
    let sight = reader.peek()?;
    let start = case_start(&sight, alloc)?;
    reader.take(sight.demand(types, room, 0, UNEXPECTED, start))
}

/// The literal behind `-`.
fn take_literal(
    alloc: Global,
    reader: &mut Reader<'_>,
    types: &TypeNames,
    room: u32,
) -> Result<LabelLiteral, Stop>
    ensures { Gives result reader.new (one (l.literal_token types.now room) reader.old) }
{
    let sight = reader.peek()?;
    let literal = label_literal(&sight, alloc)?;
    reader.take(sight.demand(types, room, 1, UNEXPECTED, literal))
}

fn take_colon(reader: &mut Reader<'_>, types: &TypeNames, room: u32) -> Result<Place, Stop>
    ensures { Gives result reader.new (one (l.colon_token types.now room) reader.old) }
{
    let sight = reader.peek()?;
    let place = sight.place_if(sight.is_mark(Punctuator::Colon));
    reader.take(sight.demand(types, room, 0, UNEXPECTED, place))
}

fn case_label(negative: bool, x: LabelLiteral) -> SwitchLabel
    ensures { result ≡ l.case_label negative x }
{
    SwitchLabel::Case {
        negative,
        literal: x.literal,
        text: x.text,
    }
}

/// `["-"] literal` behind `case`
#[tactic(auto, unfolding(crate::specs::LabelClauses::after_case))]
fn read_after_case(
    alloc: Global,
    reader: &mut Reader<'_>,
    types: &TypeNames,
    room: u32,
    start: CaseStart,
) -> Result<SwitchLabel, Stop>
    ensures { Gives result reader.new (r.after_case types.now room start reader.old) }
{
    match start {
        CaseStart::Minus => {
            let literal = take_literal(alloc, reader, types, room)?;
            Ok(case_label(true, literal))
        }
        CaseStart::Literal(literal) => Ok(case_label(false, literal)),
    }
}

#[tactic(auto, unfolding(crate::specs::LabelClauses::after_label_word))]
fn read_after_label_word(
    alloc: Global,
    reader: &mut Reader<'_>,
    types: &TypeNames,
    room: u32,
    start: LabelStart,
) -> Result<SwitchLabel, Stop>
    ensures { Gives result reader.new (r.after_label_word types.now room start reader.old) }
{
    match start {
        LabelStart::Case => {
            let start = take_case(alloc, reader, types, room)?;
            read_after_case(alloc, reader, types, room, start)
        }
        LabelStart::Default(place) => Ok(SwitchLabel::Default(place)),
    }
}

/// A label without its colon.
#[tactic(auto, unfolding(crate::specs::LabelClauses::label_name))]
fn read_label_name(
    alloc: Global,
    reader: &mut Reader<'_>,
    types: &TypeNames,
    room: u32,
    first: bool,
) -> Result<SwitchLabel, Stop>
    ensures { Gives result reader.new (r.label_name types.now room first reader.old) }
{
    let start = take_label(reader, types, room, first)?;
    read_after_label_word(alloc, reader, types, room, start)
}

/// `"case" ["-"] literal ":" | "default" ":"`
#[tactic(auto, unfolding(crate::specs::LabelClauses::switch_label))]
pub(crate) fn read_label(
    alloc: Global,
    reader: &mut Reader<'_>,
    types: &TypeNames,
    room: u32,
    first: bool,
) -> Result<SwitchLabel, Stop>
    ensures { Gives result reader.new (r.switch_label types.now room first reader.old) }
{
    let label = read_label_name(alloc, reader, types, room, first)?;
    take_colon(reader, types, room)?;
    Ok(label)
}
