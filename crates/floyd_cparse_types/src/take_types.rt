//! Tokens of types, as the reader takes them.
ghost use Rattle.std.specs.Prelude.{◌<◌, ◌^◌, ◌≤◌, ◌+◌, IfOk, Some};
ghost use Rattle.floyd_cparse_types.specs.Types as t;
ghost use Rattle.floyd_grammar.specs.ParseClauses.{one};
ghost use Rattle.floyd_grammar.specs.GivesClauses.{Gives};

use crate::type_tokens::{
    after_declarator, base_start, core_start, is_shadowed, may_precede, shadow_cause, suffix_start,
    tag,
};
use crate::values::{
    BaseStart, CoreStart, DeclaratorEnd, Declared, IntWords, SizeStart, SuffixStart, Tag,
};
use floyd_cparse_tokens::{LEFT_OUT, Reader, SHADOWED, TypeNames, UNEXPECTED, found_or};
use floyd_grammar::Stop;
use floyd_lex::{Keyword, Punctuator};
use floyd_text::Place;
use std::alloc::Global;

pub(crate) fn take_const(reader: &mut Reader<'_>, room: u32, count: u64) -> Result<Place, Stop>
    requires { count < 2 ^ 40 }
    ensures { Gives result reader.new (one (t.const_token room count) reader.old) }
{
    let sight = reader.peek()?;
    let place = sight.place_if(sight.is_word(Keyword::Const));
    reader.take(sight.offer(room, count, place))
}

pub(crate) fn take_word(
    reader: &mut Reader<'_>,
    room: u32,
    count: u64,
    words: IntWords,
) -> Result<IntWords, Stop>
    requires { count < 2 ^ 40 }
    ensures { Gives result reader.new (one (t.word_token room count words) reader.old) }
{
    let sight = reader.peek()?;
    let more = words.with(&sight);
    reader.take(sight.offer(room, count, more))
}

pub(crate) fn take_base_start(
    alloc: Global,
    reader: &mut Reader<'_>,
    types: &TypeNames,
    room: u32,
    count: u64,
) -> Result<BaseStart, Stop>
    requires { count < 2 ^ 40 }
    ensures { Gives result reader.new (one (t.base_token types.now room count) reader.old) }
{
    let sight = reader.peek()?;
    if sight.is_word(Keyword::Const) {
        return reader.take(Err(UNEXPECTED));
    }
    let start = base_start(alloc, &sight, types)?;
    reader.take(sight.demand(types, room, count, UNEXPECTED, start))
}

pub(crate) fn take_tag(
    alloc: Global,
    reader: &mut Reader<'_>,
    types: &TypeNames,
    room: u32,
    count: u64,
) -> Result<Tag, Stop>
    requires { count < 2 ^ 40 }
    ensures { Gives result reader.new (one (t.tag_token types.now room count) reader.old) }
{
    let sight = reader.peek()?;
    let tag = tag(alloc, &sight)?;
    reader.take(sight.demand(types, room, count, UNEXPECTED, tag))
}

pub(crate) fn take_fields_open(
    reader: &mut Reader<'_>,
    types: &TypeNames,
    room: u32,
    count: u64,
) -> Result<Place, Stop>
    requires { count < 2 ^ 40 }
    ensures { Gives result reader.new (one (t.fields_token types.now room count) reader.old) }
{
    let sight = reader.peek()?;
    let place = sight.place_if(sight.is_mark(Punctuator::OpenBrace));
    reader.take(sight.demand(types, room, count, UNEXPECTED, place))
}

pub fn take_comma(reader: &mut Reader<'_>) -> Result<Place, Stop>
    ensures { Gives result reader.new (one t.comma_token reader.old) }
{
    let sight = reader.peek()?;
    let place = sight.place_if(sight.is_mark(Punctuator::Comma));
    reader.take(found_or(UNEXPECTED, place))
}

pub(crate) fn take_field_end(
    reader: &mut Reader<'_>,
    types: &TypeNames,
    room: u32,
    end: DeclaratorEnd,
) -> Result<Place, Stop>
    ensures { Gives result reader.new (one (t.field_end types.now room end) reader.old) }
{
    let sight = reader.peek()?;
    let cause = if sight.is_mark(Punctuator::Comma) {
        UNEXPECTED
    } else {
        let special = if sight.is_mark(Punctuator::Colon) {
            LEFT_OUT
        } else {
            UNEXPECTED
        };
        after_declarator(&sight, types, Declared::Field, room, end, special)
    };
    let place = sight.place_if(sight.is_mark(Punctuator::Semicolon));
    reader.take(found_or(cause, place))
}

pub fn take_brace_end(reader: &mut Reader<'_>) -> Result<Place, Stop>
    ensures { Gives result reader.new (one t.brace_end reader.old) }
{
    let sight = reader.peek()?;
    let place = sight.place_if(sight.is_mark(Punctuator::CloseBrace));
    reader.take(found_or(UNEXPECTED, place))
}

pub(crate) fn take_star(reader: &mut Reader<'_>, room: u32, count: u64) -> Result<Place, Stop>
    requires { count < 2 ^ 40 }
    ensures value { Gives result reader.new (one (t.star_token room count) reader.old) }
    ensures room { IfOk result (λ _. count ≤ room + 1) }
{
    let sight = reader.peek()?;
    let place = sight.place_if(sight.is_mark(Punctuator::Star));
    reader.take(sight.offer(room, count, place))
}

pub(crate) fn take_parameter_comma(
    reader: &mut Reader<'_>,
    room: u32,
    end: DeclaratorEnd,
) -> Result<Place, Stop>
    ensures { Gives result reader.new (one (t.parameter_comma room end) reader.old) }
{
    let sight = reader.peek()?;
    let place = sight.place_if(sight.is_mark(Punctuator::Comma));
    reader.take(sight.offer(room, end.count as u64 + end.stars as u64, place))
}

pub(crate) fn take_parameters_end(
    reader: &mut Reader<'_>,
    types: &TypeNames,
    room: u32,
    end: DeclaratorEnd,
) -> Result<Place, Stop>
    ensures { Gives result reader.new (one (t.parameters_end types.now room end) reader.old) }
{
    let sight = reader.peek()?;
    let cause = if sight.is_mark(Punctuator::Comma) {
        UNEXPECTED
    } else {
        after_declarator(&sight, types, Declared::Parameter, room, end, UNEXPECTED)
    };
    let place = sight.place_if(sight.is_mark(Punctuator::CloseParen));
    reader.take(found_or(cause, place))
}

pub(crate) fn take_no_parameters_end(reader: &mut Reader<'_>) -> Result<Place, Stop>
    ensures { Gives result reader.new (one t.no_parameters_end reader.old) }
{
    let sight = reader.peek()?;
    let place = sight.place_if(sight.is_mark(Punctuator::CloseParen));
    reader.take(found_or(UNEXPECTED, place))
}

pub(crate) fn take_inner_end(
    reader: &mut Reader<'_>,
    types: &TypeNames,
    declared: Declared,
    room: u32,
    end: DeclaratorEnd,
) -> Result<Place, Stop>
    ensures { Gives result reader.new (one (t.inner_end types.now declared room end) reader.old) }
{
    let sight = reader.peek()?;
    let cause = after_declarator(&sight, types, declared, room, end, UNEXPECTED);
    let place = sight.place_if(sight.is_mark(Punctuator::CloseParen));
    reader.take(found_or(cause, place))
}

pub(crate) fn take_size_end(
    reader: &mut Reader<'_>,
    types: &TypeNames,
    room: u32,
    count: u32,
) -> Result<Place, Stop>
    ensures { Gives result reader.new (one (t.size_end types.now room count) reader.old) }
{
    let sight = reader.peek()?;
    let cause = sight.blame(types, room, count as u64, UNEXPECTED);
    let place = sight.place_if(sight.is_mark(Punctuator::CloseBracket));
    reader.take(found_or(cause, place))
}

pub(crate) fn take_size(
    reader: &mut Reader<'_>,
    types: &TypeNames,
    room: u32,
    count: u32,
) -> Result<SizeStart, Stop>
    ensures { Gives result reader.new (one (t.size_token types.now room count) reader.old) }
{
    let sight = reader.peek()?;
    if sight.is_mark(Punctuator::CloseBracket) {
        return reader.take(Ok(SizeStart::End));
    }
    let size = match sight.literal() {
        Some(literal) => Some(SizeStart::Size(literal)),
        None => None,
    };
    reader.take(sight.demand(types, room, count as u64, UNEXPECTED, size))
}

pub(crate) fn take_core(
    alloc: Global,
    reader: &mut Reader<'_>,
    types: &TypeNames,
    declared: Declared,
    room: u32,
    end: DeclaratorEnd,
) -> Result<CoreStart, Stop>
    ensures { Gives result reader.new (one (t.core_token types.now declared room end.count end.stars) reader.old) }
{
    let sight = reader.peek()?;
    let all = end.count as u64 + end.stars as u64;
    if may_precede(&sight, end.stars) {
        return reader.take(Err(UNEXPECTED));
    }
    if declared.is_named() {
        let special = shadow_cause(&sight, types, declared);
        let start = core_start(alloc, &sight, types, declared)?;
        return reader.take(sight.demand(types, room, all, special, start));
    }
    if is_shadowed(&sight, types, declared) {
        return reader.take(Err(sight.blame(types, room, all, SHADOWED)));
    }
    let start = core_start(alloc, &sight, types, declared)?;
    reader.take(sight.offer(room, all, start))
}

pub(crate) fn take_suffix(
    reader: &mut Reader<'_>,
    types: &TypeNames,
    declared: Declared,
    room: u32,
    end: DeclaratorEnd,
) -> Result<SuffixStart, Stop>
    ensures value { Gives result reader.new (one (t.suffix_token types.now declared room end) reader.old) }
    ensures room { IfOk result (λ _. end.count + end.stars ≤ room + 1) }
{
    let sight = reader.peek()?;
    reader.take(suffix_start(&sight, types, declared, room, end))
}
