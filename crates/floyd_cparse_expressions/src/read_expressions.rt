//! Readers of expressions.
ghost use Rattle.std.specs.Prelude.{◌<◌, ◌≤◌, ◌+◌, suc, length};
ghost use Rattle.floyd_cparse_tokens.specs.Tokens.{is_mark, place_if};
ghost use Rattle.floyd_cparse_expressions.specs.Expressions.{Whole, Conditional};
ghost use Rattle.floyd_cparse_expressions.specs.ExpressionClauses as r;
ghost use Rattle.floyd_cparse_expressions.specs.ExpressionClauses.{nested};
ghost use Rattle.floyd_cparse_expressions.specs.declared.values.PostfixStart.TheVariants as postfix_start;
ghost use Rattle.floyd_grammar.specs.GivesClauses.{Gives};

use crate::build_expressions::{
    assign, binary_of, call_of, chain_operand, choice_of, constant, first_argument, member_of,
    name_operand, nothing_given, parentheses_of, plus_argument, plus_target, size_operand, step_of,
    subscript_of, with_prefixes,
};
use crate::expression_tokens::{leads_assignment, leads_infix, leads_postfix};
use crate::read_prefixes::{read_prefixes, read_typename};
use crate::take_expressions::{
    take_argument_comma, take_arguments_end, take_assign, take_colon, take_effect, take_effect_end,
    take_field, take_index_end, take_infix, take_no_arguments_end, take_open, take_operand,
    take_parenthesis_end, take_postfix, take_question,
};
use crate::values::{
    Arguments, Chain, Comma, EffectNext, MemberMark, Operand, OperandStart, PostfixStart, Prefixes,
};
use floyd_cparse_tokens::{Reader, TypeNames, inside};
use floyd_cparse_trees::CExpr;
use floyd_grammar::Stop;
use floyd_lex::Punctuator;
use floyd_text::Place;
use sqlite_items::Items;
use std::alloc::Global;

/// C's assignment expression.
#[cycle(expressions)]
#[tactic(auto, unfolding(crate::specs::ExpressionClauses::nested, crate::specs::ExpressionClauses::at_level, crate::specs::ExpressionClauses::expr))]
pub fn read_expr(
    alloc: Global,
    reader: &mut Reader<'_>,
    types: &TypeNames,
    comma: Comma,
    room: u32,
    count: u32,
) -> Result<Operand, Stop>
    requires { room ≤ 201 }
    ensures { Gives result reader.new (nested types.now room Whole comma count reader.old) }
{
    if room == 0 {
        return reader.refuse_without_room(count);
    }
    let chain = read_chain(alloc, reader, types, comma, room - 1, count)?;
    Ok(chain_operand(alloc, chain)?)
}

/// C's conditional expression.
#[cycle(expressions)]
#[tactic(auto, unfolding(crate::specs::ExpressionClauses::nested, crate::specs::ExpressionClauses::at_level))]
fn read_inner_conditional(
    alloc: Global,
    reader: &mut Reader<'_>,
    types: &TypeNames,
    comma: Comma,
    room: u32,
    count: u32,
) -> Result<Operand, Stop>
    requires { room ≤ 201 }
    ensures { Gives result reader.new (nested types.now room Conditional comma count reader.old) }
{
    if room == 0 {
        return reader.refuse_without_room(count);
    }
    read_conditional(alloc, reader, types, comma, room - 1, count)
}

/// `conditional { ("=" | op "=") conditional }`
#[cycle(expressions)]
#[tactic(auto, unfolding(crate::specs::ExpressionClauses::chain))]
fn read_chain(
    alloc: Global,
    reader: &mut Reader<'_>,
    types: &TypeNames,
    comma: Comma,
    room: u32,
    count: u32,
) -> Result<Chain, Stop>
    requires { room ≤ 200 }
    ensures { Gives result reader.new (r.chain types.now room (nested types.now room) comma count reader.old) }
{
    let first = read_conditional(alloc, reader, types, comma, room, count)?;
    let mut chain = Chain {
        targets: Items::new(alloc),
        last: first,
    };
    'each: while leads_assignment(reader, &chain) {
        let by = take_assign(reader, room, &chain)?;
        let value = read_conditional(alloc, reader, types, comma, room, chain.last.end.count + 1)?;
        chain = plus_target(chain, by, value)?;
    }
    Ok(chain)
}

/// `operators [ "?" expr ":" conditional ]`
#[cycle(expressions)]
#[tactic(auto, unfolding(crate::specs::ExpressionClauses::conditional, crate::specs::ExpressionClauses::after_condition, crate::specs::ExpressionClauses::choice, crate::specs::ExpressionClauses::otherwise))]
fn read_conditional(
    alloc: Global,
    reader: &mut Reader<'_>,
    types: &TypeNames,
    comma: Comma,
    room: u32,
    count: u32,
) -> Result<Operand, Stop>
    requires { room ≤ 200 }
    ensures { Gives result reader.new (r.conditional types.now room (nested types.now room) comma count reader.old) }
{
    let condition = read_operators(alloc, reader, types, room, 10, count)?;
    if !reader.leads_mark(Punctuator::Question) {
        return Ok(condition);
    }
    let place = take_question(reader, room, &condition)?;
    let middle = read_expr(
        alloc,
        reader,
        types,
        comma.inside(),
        room,
        condition.end.count,
    )?;
    take_colon(reader, types, comma, inside(room), &middle)?;
    let last = read_inner_conditional(alloc, reader, types, comma, room, middle.end.count)?;
    Ok(choice_of(alloc, condition, place, middle, last)?)
}

/// Binary operators of so many levels.
#[cycle(expressions)]
#[tactic(auto, unfolding(crate::specs::ExpressionClauses::operators))]
fn read_operators(
    alloc: Global,
    reader: &mut Reader<'_>,
    types: &TypeNames,
    room: u32,
    level: u32,
    count: u32,
) -> Result<Operand, Stop>
    requires room { room ≤ 200 }
    requires level { level ≤ 10 }
    ensures { Gives result reader.new (r.operators types.now room (nested types.now room) level count reader.old) }
{
    if level == 0 {
        return read_unary(alloc, reader, types, room, count);
    }
    let mut left = read_operators(alloc, reader, types, room, level - 1, count)?;
    'each: while leads_infix(reader, level) {
        let op = take_infix(reader, room, level, &left)?;
        let right = read_operators(alloc, reader, types, room, level - 1, left.end.count + 1)?;
        left = binary_of(alloc, op, left, right)?;
    }
    Ok(left)
}

/// Prefixes before an operand.
#[cycle(expressions)]
#[tactic(auto, unfolding(crate::specs::ExpressionClauses::unary))]
fn read_unary(
    alloc: Global,
    reader: &mut Reader<'_>,
    types: &TypeNames,
    room: u32,
    count: u32,
) -> Result<Operand, Stop>
    requires { room ≤ 200 }
    ensures { Gives result reader.new (r.unary types.now room (nested types.now room) count reader.old) }
{
    let all = read_prefixes(alloc, reader, types, room, count)?;
    let operand = read_operand(alloc, reader, types, room, &all)?;
    Ok(with_prefixes(alloc, all.items, operand)?)
}

/// A name, a constant or an expression in parentheses with what stands behind it, or `sizeof` with its type name.
#[cycle(expressions)]
#[tactic(auto, unfolding(crate::specs::ExpressionClauses::operand, crate::specs::ExpressionClauses::after_operand_start))]
fn read_operand(
    alloc: Global,
    reader: &mut Reader<'_>,
    types: &TypeNames,
    room: u32,
    all: &Prefixes,
) -> Result<Operand, Stop>
    requires room { room ≤ 200 }
    requires count { length all.now.items ≤ room + 1 }
    ensures { Gives result reader.new (r.operand types.now room (nested types.now room) all.now reader.old) }
{
    let count = all.count as u64 + all.items.len() as u64;
    match take_operand(alloc, reader, types, all.cast, room, count)? {
        OperandStart::Name(name) => {
            read_postfixes(alloc, reader, types, room, name_operand(name, all.count))
        }
        OperandStart::Literal(literal) => {
            read_postfixes(alloc, reader, types, room, constant(literal, all.count))
        }
        OperandStart::Open(_) => read_parenthesised(alloc, reader, types, room, all.count),
        OperandStart::SizeOf(place) => read_size(alloc, reader, types, room, all.count, place),
    }
}

/// `expr ")"` behind `(`, and the postfix operators behind it.
#[cycle(expressions)]
#[tactic(auto, unfolding(crate::specs::ExpressionClauses::inner_expr))]
fn read_parenthesised(
    alloc: Global,
    reader: &mut Reader<'_>,
    types: &TypeNames,
    room: u32,
    count: u32,
) -> Result<Operand, Stop>
    requires { room ≤ 200 }
    ensures { Gives result reader.new (r.in_parentheses types.now room (nested types.now room) count reader.old) }
{
    let inner = read_expr(alloc, reader, types, Comma::LeftOut, room, count)?;
    take_parenthesis_end(reader, types, inside(room), &inner)?;
    let operand = parentheses_of(alloc, inner)?;
    read_postfixes(alloc, reader, types, room, operand)
}

/// `"(" typename ")"` behind `sizeof`.
#[tactic(auto, unfolding(crate::specs::ExpressionClauses::size))]
fn read_size(
    alloc: Global,
    reader: &mut Reader<'_>,
    types: &TypeNames,
    room: u32,
    count: u32,
    place: Place,
) -> Result<Operand, Stop>
    requires { room ≤ 200 }
    ensures { Gives result reader.new (r.size types.now room (nested types.now room) place count reader.old) }
{
    take_open(reader, types, room, count)?;
    let (name, end) = read_typename(alloc, reader, types, room, count)?;
    Ok(size_operand(alloc, place, name, end)?)
}

/// The postfix operators behind an operand.
#[cycle(expressions)]
#[tactic(auto, unfolding(crate::specs::ExpressionClauses::postfixes))]
fn read_postfixes(
    alloc: Global,
    reader: &mut Reader<'_>,
    types: &TypeNames,
    room: u32,
    first: Operand,
) -> Result<Operand, Stop>
    requires { room ≤ 200 }
    ensures { Gives result reader.new (r.postfixes types.now room (nested types.now room) first reader.old) }
{
    let mut operand = first;
    'each: while leads_postfix(reader, &operand) {
        operand = read_postfix(alloc, reader, types, room, operand)?;
    }
    Ok(operand)
}

/// `"[" expr "]" | "(" [expr {"," expr}] ")" | "." name | "->" name | "++" | "--"`
#[cycle(expressions)]
#[tactic(auto, unfolding(crate::specs::ExpressionClauses::one_postfix, crate::specs::ExpressionClauses::after_postfix_start))]
fn read_postfix(
    alloc: Global,
    reader: &mut Reader<'_>,
    types: &TypeNames,
    room: u32,
    operand: Operand,
) -> Result<Operand, Stop>
    requires { room ≤ 200 }
    ensures { Gives result reader.new (r.one_postfix types.now room (nested types.now room) operand reader.old) }
{
    match take_postfix(reader, room, operand.end)? {
        PostfixStart::Index(place) => read_index(alloc, reader, types, room, operand, place),
        PostfixStart::Call(place) => read_call(alloc, reader, types, room, operand, place),
        PostfixStart::Member(op, place) => {
            read_member(
                alloc,
                reader,
                types,
                room,
                operand,
                MemberMark { op, place },
            )
        }
        PostfixStart::Step(op, place) => Ok(step_of(alloc, operand, op, place)?),
    }
}

/// `expr "]"` behind an operand and `[`.
#[cycle(expressions)]
#[tactic(auto, unfolding(crate::specs::ExpressionClauses::after_postfix_start))]
fn read_index(
    alloc: Global,
    reader: &mut Reader<'_>,
    types: &TypeNames,
    room: u32,
    operand: Operand,
    place: Place,
) -> Result<Operand, Stop>
    requires room { room ≤ 200 }
    requires count { operand.end.count ≤ room + 1 }
    ensures { Gives result reader.new (r.after_postfix_start types.now room (nested types.now room) operand (postfix_start.Index place) reader.old) }
{
    let index = read_expr(
        alloc,
        reader,
        types,
        Comma::Plain,
        room,
        operand.end.count + 1,
    )?;
    take_index_end(reader, types, inside(room), &index)?;
    Ok(subscript_of(alloc, operand, place, index)?)
}

/// `[expr {"," expr}] ")"` behind an operand and `(`.
#[cycle(expressions)]
#[tactic(auto, unfolding(crate::specs::ExpressionClauses::after_postfix_start))]
fn read_call(
    alloc: Global,
    reader: &mut Reader<'_>,
    types: &TypeNames,
    room: u32,
    operand: Operand,
    place: Place,
) -> Result<Operand, Stop>
    requires room { room ≤ 200 }
    requires count { operand.end.count ≤ room + 1 }
    ensures { Gives result reader.new (r.after_postfix_start types.now room (nested types.now room) operand (postfix_start.Call place) reader.old) }
{
    let all = read_arguments(alloc, reader, types, room, operand.end.count + 1)?;
    Ok(call_of(alloc, operand, place, all)?)
}

/// A field behind an operand and `.` or `->`.
#[tactic(auto, unfolding(crate::specs::ExpressionClauses::after_postfix_start))]
fn read_member(
    alloc: Global,
    reader: &mut Reader<'_>,
    types: &TypeNames,
    room: u32,
    operand: Operand,
    mark: MemberMark,
) -> Result<Operand, Stop>
    requires room { room ≤ 200 }
    requires count { operand.end.count ≤ room + 1 }
    ensures { Gives result reader.new (r.after_postfix_start types.now room (nested types.now room) operand (postfix_start.Member mark.op mark.place) reader.old) }
{
    let field = take_field(alloc, reader, types, room, operand.end.count + 1)?;
    Ok(member_of(alloc, operand, mark.op, mark.place, field)?)
}

/// `[expr {"," expr}] ")"`
#[cycle(expressions)]
#[tactic(auto, unfolding(crate::specs::ExpressionClauses::arguments, crate::specs::ExpressionClauses::no_arguments, crate::specs::ExpressionClauses::some_arguments))]
fn read_arguments(
    alloc: Global,
    reader: &mut Reader<'_>,
    types: &TypeNames,
    room: u32,
    count: u32,
) -> Result<Arguments, Stop>
    requires { room ≤ 200 }
    ensures { Gives result reader.new (r.arguments types.now room (nested types.now room) count reader.old) }
{
    if reader.leads_mark(Punctuator::CloseParen) {
        take_no_arguments_end(reader)?;
        return Ok(nothing_given(alloc, count));
    }
    let all = read_argument_list(alloc, reader, types, room, count)?;
    take_arguments_end(reader, types, inside(room), &all)?;
    Ok(all)
}

/// `expr {"," expr}`
#[cycle(expressions)]
#[tactic(auto, unfolding(crate::specs::ExpressionClauses::argument_list))]
fn read_argument_list(
    alloc: Global,
    reader: &mut Reader<'_>,
    types: &TypeNames,
    room: u32,
    count: u32,
) -> Result<Arguments, Stop>
    requires { room ≤ 200 }
    ensures { Gives result reader.new (r.argument_list types.now room (nested types.now room) count reader.old) }
{
    let first = read_expr(alloc, reader, types, Comma::Separates, room, count)?;
    let mut all = first_argument(alloc, first)?;
    'each: while reader.leads_mark(Punctuator::Comma) {
        take_argument_comma(reader, inside(room), &all)?;
        let next = read_expr(alloc, reader, types, Comma::Separates, room, all.end.count)?;
        all = plus_argument(all, next)?;
    }
    Ok(all)
}

/// C's assignment expression in a room.
fn read_expr_in(
    alloc: Global,
    reader: &mut Reader<'_>,
    types: &TypeNames,
    comma: Comma,
    room: u32,
    count: u32,
) -> Result<Operand, Stop>
    requires { room ≤ 200 }
    ensures { Gives result reader.new (nested types.now (suc room) Whole comma count reader.old) }
{
    read_expr(alloc, reader, types, comma, room + 1, count)
}

/// An effect, and the mark behind it.
#[tactic(auto, unfolding(crate::specs::ExpressionClauses::effect, crate::specs::ExpressionClauses::after_effect))]
pub fn read_effect(
    alloc: Global,
    reader: &mut Reader<'_>,
    types: &TypeNames,
    comma: Comma,
    end: Punctuator,
    room: u32,
) -> Result<CExpr, Stop>
    requires { room ≤ 200 }
    ensures { Gives result reader.new (r.effect types.now room comma (λ s. place_if (is_mark end s) s) reader.old) }
{
    let x = read_unary(alloc, reader, types, room, 0)?;
    match take_effect(reader, types, comma, room, end, &x)? {
        EffectNext::End => Ok(x.tree),
        EffectNext::Assign(by) => {
            let value = read_expr_in(alloc, reader, types, comma, room, x.end.count)?;
            take_effect_end(reader, types, comma, room, end, &value)?;
            Ok(assign(alloc, x, by, value)?)
        }
    }
}
