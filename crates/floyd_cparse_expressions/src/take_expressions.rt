//! Tokens of expressions, as the reader takes them.
ghost use Rattle.std.specs.Prelude.{◌<◌, ◌^◌, ◌≤◌, ◌+◌, IfOk};
ghost use Rattle.floyd_cparse_tokens.specs.Tokens.{is_mark, place_if};
ghost use Rattle.floyd_cparse_expressions.specs.Expressions as e;
ghost use Rattle.floyd_grammar.specs.ParseClauses.{one};
ghost use Rattle.floyd_grammar.specs.GivesClauses.{Gives};

use crate::expression_tokens::{
    after_expression, after_unary, behind_prefix, infix, is_prefix_at, operand_start,
    postfix_start, prefix_start,
};
use crate::operators::assignment_of;
use crate::values::{
    Arguments, Assigning, Chain, Comma, EffectNext, Ending, Infix, Operand, OperandStart,
    PostfixStart, PrefixStart,
};
use floyd_cparse_tokens::{Reader, TOO_DEEP, TypeNames, UNEXPECTED, found_or};
use floyd_cparse_trees::Identifier;
use floyd_cparse_types::{Declared, ReadDeclarator, after_declarator};
use floyd_grammar::Stop;
use floyd_lex::Punctuator;
use floyd_text::Place;
use std::alloc::Global;

pub(crate) fn take_typename_end(
    reader: &mut Reader<'_>,
    types: &TypeNames,
    room: u32,
    declarator: &ReadDeclarator,
) -> Result<Place, Stop>
    ensures { Gives result reader.new (one (e.typename_end types.now room declarator.now) reader.old) }
{
    let sight = reader.peek()?;
    let cause = after_declarator(
        &sight,
        types,
        Declared::Nothing,
        room,
        declarator.end,
        UNEXPECTED,
    );
    let place = sight.place_if(sight.is_mark(Punctuator::CloseParen));
    reader.take(found_or(cause, place))
}

pub(crate) fn take_prefix(
    reader: &mut Reader<'_>,
    types: &TypeNames,
    room: u32,
    count: u64,
) -> Result<PrefixStart, Stop>
    requires { count < 2 ^ 40 }
    ensures { Gives result reader.new (one (e.prefix_token types.now room count) reader.old) }
{
    let sight = reader.peek()?;
    if count > room as u64 {
        return reader.take(Err(UNEXPECTED));
    }
    let start = prefix_start(&sight, types);
    reader.take(sight.offer(room, count, start))
}

pub(crate) fn take_operand(
    alloc: Global,
    reader: &mut Reader<'_>,
    types: &TypeNames,
    cast: bool,
    room: u32,
    count: u64,
) -> Result<OperandStart, Stop>
    requires { count < 2 ^ 40 }
    ensures { Gives result reader.new (one (e.operand_token types.now cast room count) reader.old) }
{
    let sight = reader.peek()?;
    if is_prefix_at(&sight, types, room, count) {
        return reader.take(Err(UNEXPECTED));
    }
    let special = behind_prefix(&sight, cast);
    let start = operand_start(alloc, &sight, types)?;
    reader.take(sight.demand(types, room, count, special, start))
}

pub(crate) fn take_postfix(
    reader: &mut Reader<'_>,
    room: u32,
    end: Ending,
) -> Result<PostfixStart, Stop>
    ensures value { Gives result reader.new (one (e.postfix_token room end) reader.old) }
    ensures room { IfOk result (λ _. end.count ≤ room + 1) }
{
    let sight = reader.peek()?;
    if end.type_name {
        return reader.take(Err(UNEXPECTED));
    }
    let start = postfix_start(&sight);
    reader.take(sight.offer(room, end.count as u64, start))
}

pub(crate) fn take_field(
    alloc: Global,
    reader: &mut Reader<'_>,
    types: &TypeNames,
    room: u32,
    count: u32,
) -> Result<Identifier, Stop>
    ensures { Gives result reader.new (one (e.field_token types.now room count) reader.old) }
{
    let sight = reader.peek()?;
    let name = if sight.is_name() {
        Some(sight.identifier(alloc)?)
    } else {
        None
    };
    reader.take(sight.demand(types, room, count as u64, UNEXPECTED, name))
}

pub(crate) fn take_infix(
    reader: &mut Reader<'_>,
    room: u32,
    level: u32,
    left: &Operand,
) -> Result<Infix, Stop>
    ensures value { Gives result reader.new (one (e.infix_token room level left.now) reader.old) }
    ensures room { IfOk result (λ _. left.now.end.count ≤ room + 1) }
{
    let sight = reader.peek()?;
    let infix = infix(&sight, level);
    reader.take(sight.offer(room, left.end.count as u64, infix))
}

pub(crate) fn take_question(
    reader: &mut Reader<'_>,
    room: u32,
    condition: &Operand,
) -> Result<Place, Stop>
    ensures { Gives result reader.new (one (e.question_token room condition.now) reader.old) }
{
    let sight = reader.peek()?;
    let place = sight.place_if(sight.is_mark(Punctuator::Question));
    reader.take(sight.offer(room, condition.end.count as u64, place))
}

pub(crate) fn take_colon(
    reader: &mut Reader<'_>,
    types: &TypeNames,
    comma: Comma,
    room: u32,
    middle: &Operand,
) -> Result<Place, Stop>
    ensures { Gives result reader.new (one (e.colon_token types.now comma room middle.now) reader.old) }
{
    let sight = reader.peek()?;
    if !sight.is_mark(Punctuator::Colon) {
        let cause = after_expression(&sight, types, comma.inside(), room, middle.end);
        return reader.take(Err(cause));
    }
    if room < middle.end.count {
        return reader.take(Err(TOO_DEEP));
    }
    reader.take(Ok(sight.place()))
}

pub(crate) fn take_assign(
    reader: &mut Reader<'_>,
    room: u32,
    chain: &Chain,
) -> Result<Assigning, Stop>
    ensures value { Gives result reader.new (one (e.assign_token room chain.now) reader.old) }
    ensures room { IfOk result (λ _. chain.now.last.end.count ≤ room + 1) }
{
    let sight = reader.peek()?;
    let end = chain.last.end;
    if end.is_wide() {
        return reader.take(Err(UNEXPECTED));
    }
    let found = assignment_of(&sight);
    reader.take(sight.offer(room, end.count as u64, found))
}

pub(crate) fn take_argument_comma(
    reader: &mut Reader<'_>,
    room: u32,
    all: &Arguments,
) -> Result<Place, Stop>
    ensures { Gives result reader.new (one (e.argument_comma room all.now) reader.old) }
{
    let sight = reader.peek()?;
    let place = sight.place_if(sight.is_mark(Punctuator::Comma));
    reader.take(sight.offer(room, all.end.count as u64, place))
}

pub(crate) fn take_arguments_end(
    reader: &mut Reader<'_>,
    types: &TypeNames,
    room: u32,
    all: &Arguments,
) -> Result<Place, Stop>
    ensures { Gives result reader.new (one (e.arguments_end types.now room all.now) reader.old) }
{
    let sight = reader.peek()?;
    let cause = after_expression(&sight, types, Comma::Separates, room, all.end);
    let place = sight.place_if(sight.is_mark(Punctuator::CloseParen));
    reader.take(found_or(cause, place))
}

pub(crate) fn take_no_arguments_end(reader: &mut Reader<'_>) -> Result<Place, Stop>
    ensures { Gives result reader.new (one e.no_arguments_end reader.old) }
{
    let sight = reader.peek()?;
    let place = sight.place_if(sight.is_mark(Punctuator::CloseParen));
    reader.take(found_or(UNEXPECTED, place))
}

pub(crate) fn take_index_end(
    reader: &mut Reader<'_>,
    types: &TypeNames,
    room: u32,
    index: &Operand,
) -> Result<Place, Stop>
    ensures { Gives result reader.new (one (e.index_end types.now room index.now) reader.old) }
{
    let sight = reader.peek()?;
    let cause = after_expression(&sight, types, Comma::Plain, room, index.end);
    let place = sight.place_if(sight.is_mark(Punctuator::CloseBracket));
    reader.take(found_or(cause, place))
}

pub(crate) fn take_parenthesis_end(
    reader: &mut Reader<'_>,
    types: &TypeNames,
    room: u32,
    inner: &Operand,
) -> Result<Place, Stop>
    ensures { Gives result reader.new (one (e.inner_end types.now room inner.now) reader.old) }
{
    let sight = reader.peek()?;
    let cause = after_expression(&sight, types, Comma::LeftOut, room, inner.end);
    let place = sight.place_if(sight.is_mark(Punctuator::CloseParen));
    reader.take(found_or(cause, place))
}

pub fn take_open(
    reader: &mut Reader<'_>,
    types: &TypeNames,
    room: u32,
    count: u32,
) -> Result<Place, Stop>
    ensures { Gives result reader.new (one (e.open_token types.now room count) reader.old) }
{
    let sight = reader.peek()?;
    let place = sight.place_if(sight.is_mark(Punctuator::OpenParen));
    reader.take(sight.demand(types, room, count as u64, UNEXPECTED, place))
}

/// Takes what follows an unary expression that begins an effect, which the mark ends.
pub(crate) fn take_effect(
    reader: &mut Reader<'_>,
    types: &TypeNames,
    comma: Comma,
    room: u32,
    end: Punctuator,
    x: &Operand,
) -> Result<EffectNext, Stop>
    ensures { Gives result reader.new (one (e.effect_token types.now comma room (λ s. place_if (is_mark end s) s) x.now) reader.old) }
{
    let sight = reader.peek()?;
    if let Some(by) = assignment_of(&sight) {
        if sight.is_deep(room, x.end.count as u64) {
            return reader.take(Err(TOO_DEEP));
        }
        return reader.take(Ok(EffectNext::Assign(by)));
    }
    if sight.is_mark(end) && x.end.form.is_effect() {
        return reader.take(Ok(EffectNext::End));
    }
    let cause = after_unary(&sight, types, comma, room, x.end);
    reader.take(Err(cause))
}

/// Takes the mark that ends an assignment.
pub(crate) fn take_effect_end(
    reader: &mut Reader<'_>,
    types: &TypeNames,
    comma: Comma,
    room: u32,
    end: Punctuator,
    value: &Operand,
) -> Result<Place, Stop>
    ensures { Gives result reader.new (one (e.effect_end_token types.now comma room (λ s. place_if (is_mark end s) s) value.now) reader.old) }
{
    let sight = reader.peek()?;
    let effect = Ending {
        effect: true,
        ..value.end
    };
    let cause = after_expression(&sight, types, comma, room, effect);
    let place = sight.place_if(sight.is_mark(end));
    reader.take(found_or(cause, place))
}
