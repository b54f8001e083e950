//! Readers of conditions, heads of loops and local variables.
ghost use Rattle.std.specs.Prelude.{◌≡◌, ◌≤◌, pred, IfOk};
ghost use Rattle.floyd_cparse_statements.specs.StatementClauses.{statements};
ghost use Rattle.floyd_grammar.specs.GivesClauses.{Gives};
ghost use Rattle.floyd_cparse_tokens.specs.Tokens.{is_mark, place_if};
ghost use Rattle.floyd_cparse_statements.specs.Statements as s;
ghost use Rattle.floyd_cparse_statements.specs.StatementClauses as r;

use crate::take_statements::{
    bars_list, leads_end, take_end, take_equal, take_locals_end, take_semicolon, take_value_end,
    take_while,
};
use crate::values::{ForHead, LocalEnd, Locals, ReadLocal, ReadStatement};
use floyd_cparse_expressions::{Comma, Operand, read_effect, read_expr, take_open};
use floyd_cparse_tokens::{Reader, TypeNames};
use floyd_cparse_trees::{CExpr, CStatement, LocalDeclaration, LocalDeclarator};
use floyd_cparse_types::{Declared, ReadDeclarator, read_dtor, read_specs, take_comma};
use floyd_grammar::Stop;
use floyd_lex::Punctuator;
use sqlite_items::{Boxed, Items};
use std::alloc::{AllocError, Global};

/// `"(" expr ")"` behind a word.
#[tactic(auto, unfolding(crate::specs::StatementClauses::parenthesised))]
pub(crate) fn read_condition(
    alloc: Global,
    reader: &mut Reader<'_>,
    types: &TypeNames,
    room: u32,
) -> Result<Boxed<CExpr>, Stop>
    requires { room ≤ 200 }
    ensures { Gives result reader.new (r.parenthesised types.now room 1 reader.old) }
{
    take_open(reader, types, room, 1)?;
    read_inner_condition(alloc, reader, types, room.saturating_sub(2))
}

fn read_inner_condition(
    alloc: Global,
    reader: &mut Reader<'_>,
    types: &TypeNames,
    room: u32,
) -> Result<Boxed<CExpr>, Stop>
    requires { room ≤ 200 }
    ensures { Gives result reader.new (r.inner_condition types.now room reader.old) }
{
    let value = read_expr(alloc, reader, types, Comma::LeftOut, room + 1, 0)?;
    take_value_end(
        reader,
        types,
        Comma::LeftOut,
        room,
        Punctuator::CloseParen,
        &value,
    )?;
    Ok(Boxed::new(alloc, value.tree)?)
}

/// `[effect]` and the mark behind it.
#[tactic(auto, unfolding(crate::specs::StatementClauses::for_effect, crate::specs::StatementClauses::no_value, crate::specs::StatementClauses::some_effect))]
fn read_for_effect(
    alloc: Global,
    reader: &mut Reader<'_>,
    types: &TypeNames,
    room: u32,
    end: Punctuator,
) -> Result<Option<Boxed<CExpr>>, Stop>
    requires { room ≤ 200 }
    ensures { Gives result reader.new (r.for_effect types.now room (λ s. place_if (is_mark end s) s) reader.old) }
{
    if leads_end(reader, end) {
        take_end(reader, end)?;
        return Ok(None);
    }
    let effect = read_effect(alloc, reader, types, Comma::LeftOut, end, room)?;
    Ok(Some(Boxed::new(alloc, effect)?))
}

/// `[expr]` and the mark behind it.
#[tactic(auto, unfolding(crate::specs::StatementClauses::value, crate::specs::StatementClauses::no_value))]
pub(crate) fn read_value(
    alloc: Global,
    reader: &mut Reader<'_>,
    types: &TypeNames,
    room: u32,
    comma: Comma,
    end: Punctuator,
) -> Result<Option<Boxed<CExpr>>, Stop>
    requires { room ≤ 200 }
    ensures { Gives result reader.new (r.value types.now room comma (λ s. place_if (is_mark end s) s) reader.old) }
{
    if leads_end(reader, end) {
        take_end(reader, end)?;
        return Ok(None);
    }
    read_some_value(alloc, reader, types, room, comma, end)
}

fn read_some_value(
    alloc: Global,
    reader: &mut Reader<'_>,
    types: &TypeNames,
    room: u32,
    comma: Comma,
    end: Punctuator,
) -> Result<Option<Boxed<CExpr>>, Stop>
    requires { room ≤ 200 }
    ensures { Gives result reader.new (r.some_value types.now room comma (λ s. place_if (is_mark end s) s) reader.old) }
{
    let value = read_expr(alloc, reader, types, comma, room + 1, 0)?;
    take_value_end(reader, types, comma, room, end, &value)?;
    Ok(Some(Boxed::new(alloc, value.tree)?))
}

/// `"(" [effect] ";" [expr] ";" [effect] ")"` behind `for`.
#[tactic(auto, unfolding(crate::specs::StatementClauses::for_head))]
pub(crate) fn read_for_head(
    alloc: Global,
    reader: &mut Reader<'_>,
    types: &TypeNames,
    room: u32,
) -> Result<ForHead, Stop>
    requires { room ≤ 200 }
    ensures { Gives result reader.new (r.for_head types.now room (statements types.now room) (statements types.now (pred room)) reader.old) }
{
    take_open(reader, types, room, 1)?;
    read_for_parts(alloc, reader, types, room.saturating_sub(2))
}

fn read_for_parts(
    alloc: Global,
    reader: &mut Reader<'_>,
    types: &TypeNames,
    room: u32,
) -> Result<ForHead, Stop>
    requires { room ≤ 200 }
    ensures { Gives result reader.new (r.for_parts types.now room reader.old) }
{
    let first = read_for_effect(alloc, reader, types, room, Punctuator::Semicolon)?;
    let condition = read_value(
        alloc,
        reader,
        types,
        room,
        Comma::LeftOut,
        Punctuator::Semicolon,
    )?;
    let third = read_for_effect(alloc, reader, types, room, Punctuator::CloseParen)?;
    Ok(ForHead {
        first,
        condition,
        third,
    })
}

/// `"while" "(" expr ")" ";"` behind the body of `do`.
#[tactic(auto, unfolding(crate::specs::StatementClauses::do_condition))]
pub(crate) fn read_do_condition(
    alloc: Global,
    reader: &mut Reader<'_>,
    types: &TypeNames,
    room: u32,
    body: ReadStatement,
) -> Result<ReadStatement, Stop>
    requires { room ≤ 200 }
    ensures { Gives result reader.new (r.do_condition types.now room (statements types.now room) (statements types.now (pred room)) body reader.old) }
{
    let place = take_while(reader, types, room, 1)?;
    let condition = read_condition(alloc, reader, types, room)?;
    take_semicolon(reader, types, room, 1)?;
    Ok(whole_statement(
        alloc,
        CStatement::Do {
            body: body.tree,
            place,
            condition: condition.into_inner(),
        },
    )?)
}

/// `specs dtor ["=" rhs] {"," dtor ["=" rhs]} ";"`
#[tactic(auto, unfolding(crate::specs::StatementClauses::local_declaration, crate::specs::StatementClauses::locals_of))]
pub(crate) fn read_local_declaration(
    alloc: Global,
    reader: &mut Reader<'_>,
    types: &TypeNames,
    room: u32,
) -> Result<LocalDeclaration, Stop>
    requires { room ≤ 200 }
    ensures { Gives result reader.new (r.local_declaration types.now room reader.old) }
{
    let specifiers = read_specs(alloc, reader, types, room + 1, 0)?;
    let all = read_locals(alloc, reader, types, room)?;
    take_locals_end(reader, types, room, all.end)?;
    Ok(LocalDeclaration {
        specifiers: specifiers.tree,
        declarators: all.items,
    })
}

#[tactic(auto, unfolding(crate::specs::StatementClauses::locals))]
fn read_locals(
    alloc: Global,
    reader: &mut Reader<'_>,
    types: &TypeNames,
    room: u32,
) -> Result<Locals, Stop>
    requires { room ≤ 200 }
    ensures { Gives result reader.new (r.locals types.now room reader.old) }
{
    let first = read_local(alloc, reader, types, room)?;
    let mut items = Items::new(alloc);
    items.push(first.item)?;
    let mut end = first.end;
    'each: while reader.leads_mark(Punctuator::Comma) {
        let next = read_next_local(alloc, reader, types, room)?;
        items.push(next.item)?;
        end = next.end;
    }
    Ok(Locals { items, end })
}

fn read_next_local(
    alloc: Global,
    reader: &mut Reader<'_>,
    types: &TypeNames,
    room: u32,
) -> Result<ReadLocal, Stop>
    requires { room ≤ 200 }
    ensures { Gives result reader.new (r.next_local types.now room reader.old) }
{
    take_comma(reader)?;
    read_local(alloc, reader, types, room)
}

/// `dtor ["=" rhs]`
#[tactic(auto, unfolding(crate::specs::StatementClauses::local))]
fn read_local(
    alloc: Global,
    reader: &mut Reader<'_>,
    types: &TypeNames,
    room: u32,
) -> Result<ReadLocal, Stop>
    requires { room ≤ 200 }
    ensures { Gives result reader.new (r.local types.now room reader.old) }
{
    let declarator = read_dtor(alloc, reader, types, Declared::Object, room + 1, 0)?;
    read_local_rest(alloc, reader, types, room, declarator)
}

#[tactic(auto, unfolding(crate::specs::StatementClauses::local_rest, crate::specs::StatementClauses::local_value))]
fn read_local_rest(
    alloc: Global,
    reader: &mut Reader<'_>,
    types: &TypeNames,
    room: u32,
    declarator: ReadDeclarator,
) -> Result<ReadLocal, Stop>
    requires { room ≤ 200 }
    ensures { Gives result reader.new (r.local_rest types.now room declarator reader.old) }
{
    if !reader.leads_mark(Punctuator::Equal) {
        return Ok(ReadLocal {
            item: LocalDeclarator {
                declarator: declarator.tree,
                initialiser: None,
            },
            end: LocalEnd::Declarator(declarator.end),
        });
    }
    let place = take_equal(reader)?;
    let value = read_right_side(alloc, reader, types, room)?;
    Ok(ReadLocal {
        item: LocalDeclarator {
            declarator: declarator.tree,
            initialiser: Some((place, value.tree)),
        },
        end: LocalEnd::Value(value.end),
    })
}

/// What stands behind the `=` of a local variable, which is no list.
fn read_right_side(
    alloc: Global,
    reader: &mut Reader<'_>,
    types: &TypeNames,
    room: u32,
) -> Result<Operand, Stop>
    requires { room ≤ 200 }
    ensures { Gives result reader.new (r.right_side types.now room reader.old) }
{
    match bars_list(reader, room) {
        Some(cause) => reader.take(Err(cause)),
        None => read_expr(alloc, reader, types, Comma::Separates, room + 1, 0),
    }
}

/// A statement to which no `else` behind it belongs.
pub(crate) fn whole_statement(alloc: Global, tree: CStatement) -> Result<ReadStatement, AllocError>
    ensures { IfOk result (λ x. x ≡ s.whole_statement tree) }
{
    Ok(ReadStatement {
        tree: Boxed::new(alloc, tree)?,
        takes_else: false,
    })
}
