//! Readers of statements.
ghost use Rattle.std.specs.Prelude.{◌≡◌, ◌≤◌, pred, true, IfOk};
ghost use Rattle.floyd_grammar.specs.ParseClauses.{leads};
ghost use Rattle.floyd_grammar.specs.GivesClauses.{Gives};
ghost use Rattle.floyd_cparse_statements.specs.Statements as s;
ghost use Rattle.floyd_cparse_statements.specs.StatementClauses as r;
ghost use Rattle.floyd_cparse_statements.specs.StatementClauses.{statements, block_items};

use crate::read_labels::read_label;
use crate::read_locals::{
    read_condition, read_do_condition, read_for_head, read_local_declaration, read_value,
    whole_statement,
};
use crate::take_statements::{
    bars_label, is_first, leads_case, leads_case_item, leads_declaration, leads_else, leads_item,
    leads_started, take_brace, take_else, take_semicolon, take_start,
};
use crate::values::{ForHead, ReadItem, ReadStatement, StatementStart};
use floyd_cparse_expressions::{Comma, read_effect};
use floyd_cparse_tokens::{Reader, TypeNames};
use floyd_cparse_trees::{BlockItem, CExpr, CStatement, SwitchCase};
use floyd_cparse_types::take_brace_end;
use floyd_grammar::Stop;
use floyd_lex::Punctuator;
use floyd_text::Place;
use sqlite_items::{Boxed, Items};
use std::alloc::{AllocError, Global};

/// The items of a block, and `}`.
#[cycle(statements)]
#[tactic(auto, unfolding(crate::specs::StatementClauses::block_items))]
pub fn read_block_items(
    alloc: Global,
    reader: &mut Reader<'_>,
    types: &TypeNames,
    room: u32,
) -> Result<Items<BlockItem>, Stop>
    requires { room ≤ 200 }
    ensures { Gives result reader.new (block_items types.now (pred room) (statements types.now room) reader.old) }
{
    let mut items = Items::new(alloc);
    let mut takes_else = false;
    'each: while leads_item(reader, takes_else) {
        let next = read_item(alloc, reader, types, room)?;
        items.push(next.tree)?;
        takes_else = next.takes_else;
    }
    take_brace_end(reader)?;
    Ok(items)
}

/// The cases of a switch, and `}`.
#[cycle(statements)]
#[tactic(auto, unfolding(crate::specs::StatementClauses::switch_cases))]
fn read_switch_cases(
    alloc: Global,
    reader: &mut Reader<'_>,
    types: &TypeNames,
    room: u32,
) -> Result<Items<SwitchCase>, Stop>
    requires { room ≤ 200 }
    ensures { Gives result reader.new (r.switch_cases types.now (pred room) (statements types.now room) reader.old) }
{
    let mut cases = Items::new(alloc);
    'each: while leads_case(reader, &cases) {
        let first = is_first(&cases);
        let next = read_switch_case(alloc, reader, types, room, first)?;
        cases.push(next)?;
    }
    take_brace_end(reader)?;
    Ok(cases)
}

/// `label { stmt }`
#[cycle(statements)]
#[tactic(auto, unfolding(crate::specs::StatementClauses::switch_case))]
fn read_switch_case(
    alloc: Global,
    reader: &mut Reader<'_>,
    types: &TypeNames,
    room: u32,
    first: bool,
) -> Result<SwitchCase, Stop>
    requires { room ≤ 200 }
    ensures { Gives result reader.new (r.switch_case types.now (pred room) (statements types.now room) first reader.old) }
{
    let label = read_label(alloc, reader, types, room.saturating_sub(1), first)?;
    let mut items = Items::new(alloc);
    let mut takes_else = false;
    'each: while leads_case_item(reader, takes_else) {
        let next = read_statement(alloc, reader, types, room)?;
        items.push(BlockItem::Statement(next.tree.into_inner()))?;
        takes_else = next.takes_else;
    }
    let body = Boxed::new(alloc, CStatement::Block(items))?;
    Ok(SwitchCase { label, body })
}

/// `specs dtor .. ";" | stmt`
#[cycle(statements)]
#[tactic(auto, unfolding(crate::specs::StatementClauses::block_item, crate::specs::StatementClauses::stated_item))]
fn read_item(
    alloc: Global,
    reader: &mut Reader<'_>,
    types: &TypeNames,
    room: u32,
) -> Result<ReadItem, Stop>
    requires { room ≤ 200 }
    ensures { Gives result reader.new (r.block_item types.now (pred room) (statements types.now room) reader.old) }
{
    if leads_declaration(reader, types) {
        return read_declared_item(alloc, reader, types, room.saturating_sub(1));
    }
    let statement = read_statement(alloc, reader, types, room)?;
    Ok(ReadItem {
        tree: BlockItem::Statement(statement.tree.into_inner()),
        takes_else: statement.takes_else,
    })
}

#[tactic(auto, unfolding(crate::specs::StatementClauses::declared_item))]
fn read_declared_item(
    alloc: Global,
    reader: &mut Reader<'_>,
    types: &TypeNames,
    room: u32,
) -> Result<ReadItem, Stop>
    requires room { room ≤ 200 }
    requires begins { leads (s.begins_declaration types.now) reader.old ≡ true }
    ensures { Gives result reader.new (r.declared_item types.now room reader.old) }
{
    let declaration = read_local_declaration(alloc, reader, types, room)?;
    Ok(ReadItem {
        tree: BlockItem::Declaration(declaration),
        takes_else: false,
    })
}

/// A statement.
#[cycle(statements)]
fn read_statement(
    alloc: Global,
    reader: &mut Reader<'_>,
    types: &TypeNames,
    room: u32,
) -> Result<ReadStatement, Stop>
    requires { room ≤ 200 }
    ensures { Gives result reader.new (statements types.now room reader.old) }
{
    if room == 0 {
        return reader.refuse_without_room(0);
    }
    read_statement_inside(alloc, reader, types, room - 1)
}

#[cycle(statements)]
#[tactic(auto, unfolding(crate::specs::StatementClauses::statement, crate::specs::StatementClauses::started))]
fn read_statement_inside(
    alloc: Global,
    reader: &mut Reader<'_>,
    types: &TypeNames,
    room: u32,
) -> Result<ReadStatement, Stop>
    requires { room ≤ 200 }
    ensures { Gives result reader.new (r.statement types.now room (statements types.now room) (statements types.now (pred room)) reader.old) }
{
    if !leads_started(reader, room) {
        return read_effect_statement(alloc, reader, types, room);
    }
    let start = take_start(reader, room)?;
    read_started(alloc, reader, types, room, start)
}

#[tactic(auto, unfolding(crate::specs::StatementClauses::effect_statement))]
fn read_effect_statement(
    alloc: Global,
    reader: &mut Reader<'_>,
    types: &TypeNames,
    room: u32,
) -> Result<ReadStatement, Stop>
    requires { room ≤ 200 }
    ensures { Gives result reader.new (r.effect_statement types.now room (statements types.now room) (statements types.now (pred room)) reader.old) }
{
    let effect = read_unlabelled(alloc, reader, types, room)?;
    Ok(whole_statement(alloc, CStatement::Effect(effect))?)
}

/// `effect ";"`, which no label begins.
fn read_unlabelled(
    alloc: Global,
    reader: &mut Reader<'_>,
    types: &TypeNames,
    room: u32,
) -> Result<CExpr, Stop>
    requires { room ≤ 200 }
    ensures { Gives result reader.new (r.unlabelled types.now room reader.old) }
{
    match bars_label(reader) {
        Some(cause) => reader.take(Err(cause)),
        None => read_effect(
            alloc,
            reader,
            types,
            Comma::Plain,
            Punctuator::Semicolon,
            room,
        ),
    }
}

/// What follows the word or mark with which a statement begins.
#[cycle(statements)]
#[tactic(auto, unfolding(crate::specs::StatementClauses::after_start, crate::specs::StatementClauses::while_statement, crate::specs::StatementClauses::do_statement, crate::specs::StatementClauses::switch_statement))]
fn read_started(
    alloc: Global,
    reader: &mut Reader<'_>,
    types: &TypeNames,
    room: u32,
    start: StatementStart,
) -> Result<ReadStatement, Stop>
    requires { room ≤ 200 }
    ensures { Gives result reader.new (r.after_start types.now room (statements types.now room) (statements types.now (pred room)) start reader.old) }
{
    match start {
        StatementStart::Block => {
            let items = read_block_items(alloc, reader, types, room)?;
            Ok(whole_statement(alloc, CStatement::Block(items))?)
        }
        StatementStart::Empty => Ok(whole_statement(alloc, CStatement::Empty)?),
        StatementStart::If(place) => read_if(alloc, reader, types, room, place),
        StatementStart::While(place) => {
            let condition = read_condition(alloc, reader, types, room)?;
            let body = read_statement(alloc, reader, types, room)?;
            Ok(while_of(alloc, place, condition, body)?)
        }
        StatementStart::Do => {
            let body = read_statement(alloc, reader, types, room)?;
            read_do_condition(alloc, reader, types, room, body)
        }
        StatementStart::For(place) => {
            let head = read_for_head(alloc, reader, types, room)?;
            let body = read_statement(alloc, reader, types, room)?;
            Ok(for_of(alloc, place, head, body)?)
        }
        StatementStart::Switch(place) => {
            let value = read_condition(alloc, reader, types, room)?;
            take_brace(reader, types, room, 1)?;
            let cases = read_switch_cases(alloc, reader, types, room.saturating_sub(1))?;
            Ok(switch_of(alloc, place, value, cases)?)
        }
        StatementStart::Break => {
            take_semicolon(reader, types, room, 0)?;
            Ok(whole_statement(alloc, CStatement::Break)?)
        }
        StatementStart::Continue => {
            take_semicolon(reader, types, room, 0)?;
            Ok(whole_statement(alloc, CStatement::Continue)?)
        }
        StatementStart::Return(place) => {
            let value = read_value(
                alloc,
                reader,
                types,
                room,
                Comma::Plain,
                Punctuator::Semicolon,
            )?;
            Ok(whole_statement(
                alloc,
                CStatement::Return {
                    place,
                    value: unbox(value),
                },
            )?)
        }
    }
}

/// `"(" expr ")" stmt ["else" stmt]`
#[cycle(statements)]
#[tactic(auto, unfolding(crate::specs::StatementClauses::if_statement, crate::specs::StatementClauses::after_if, crate::specs::StatementClauses::with_else))]
fn read_if(
    alloc: Global,
    reader: &mut Reader<'_>,
    types: &TypeNames,
    room: u32,
    place: Place,
) -> Result<ReadStatement, Stop>
    requires { room ≤ 200 }
    ensures { Gives result reader.new (r.if_statement types.now room (statements types.now room) (statements types.now (pred room)) place reader.old) }
{
    let condition = read_condition(alloc, reader, types, room)?;
    let body = read_statement(alloc, reader, types, room)?;
    if !leads_else(reader, &body) {
        return Ok(if_of(alloc, place, condition, body)?);
    }
    take_else(reader, &body)?;
    let otherwise = read_statement(alloc, reader, types, room.saturating_sub(1))?;
    Ok(if_else_of(alloc, place, condition, body, otherwise)?)
}

fn if_of(
    alloc: Global,
    place: Place,
    condition: Boxed<CExpr>,
    body: ReadStatement,
) -> Result<ReadStatement, AllocError>
    ensures { IfOk result (λ x. x ≡ s.if_alone place condition body) }
{
    let tree = CStatement::If {
        place,
        condition: condition.into_inner(),
        then: body.tree,
    };
    Ok(ReadStatement {
        tree: Boxed::new(alloc, tree)?,
        takes_else: true,
    })
}

fn if_else_of(
    alloc: Global,
    place: Place,
    condition: Boxed<CExpr>,
    body: ReadStatement,
    otherwise: ReadStatement,
) -> Result<ReadStatement, AllocError>
    ensures { IfOk result (λ x. x ≡ s.if_else place condition body otherwise) }
{
    let takes_else = otherwise.takes_else;
    let tree = CStatement::IfElse {
        place,
        condition: condition.into_inner(),
        then: body.tree,
        otherwise: otherwise.tree,
    };
    Ok(ReadStatement {
        tree: Boxed::new(alloc, tree)?,
        takes_else,
    })
}

fn while_of(
    alloc: Global,
    place: Place,
    condition: Boxed<CExpr>,
    body: ReadStatement,
) -> Result<ReadStatement, AllocError>
    ensures { IfOk result (λ x. x ≡ s.while_of place condition body) }
{
    let takes_else = body.takes_else;
    let tree = CStatement::While {
        place,
        condition: condition.into_inner(),
        body: body.tree,
    };
    Ok(ReadStatement {
        tree: Boxed::new(alloc, tree)?,
        takes_else,
    })
}

fn for_of(
    alloc: Global,
    place: Place,
    head: ForHead,
    body: ReadStatement,
) -> Result<ReadStatement, AllocError>
    ensures { IfOk result (λ x. x ≡ s.for_of place head.first head.condition head.third body) }
{
    let takes_else = body.takes_else;
    let tree = CStatement::For {
        place,
        first: unbox(head.first),
        condition: unbox(head.condition),
        third: unbox(head.third),
        body: body.tree,
    };
    Ok(ReadStatement {
        tree: Boxed::new(alloc, tree)?,
        takes_else,
    })
}

fn switch_of(
    alloc: Global,
    place: Place,
    value: Boxed<CExpr>,
    cases: Items<SwitchCase>,
) -> Result<ReadStatement, AllocError>
    ensures { IfOk result (λ x. x ≡ s.switch_of place value cases) }
{
    whole_statement(
        alloc,
        CStatement::Switch {
            place,
            value: value.into_inner(),
            cases,
        },
    )
}

fn unbox(value: Option<Boxed<CExpr>>) -> Option<CExpr>
    ensures { result ≡ value }
{
    match value {
        Some(value) => Some(value.into_inner()),
        None => None,
    }
}
