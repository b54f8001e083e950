//! Readers of declarations and sources.
ghost use Rattle.std.specs.Prelude.{◌≡◌, ◌≤◌, IfOk, pred, suc, OnOk, []};
ghost use Rattle.floyd_grammar.specs.GivesClauses.{Gives};
ghost use Rattle.floyd_cparse_statements.specs.Statements as s;
ghost use Rattle.floyd_cparse_statements.specs.StatementClauses.{statements, block_items};
ghost use Rattle.floyd_cparse.specs.Units as u;
ghost use Rattle.floyd_cparse.specs.UnitClauses as r;
ghost use Rattle.floyd_cparse_tokens.specs.Tokens.{with_name};
ghost use Rattle.floyd_cparse.specs.Scope.{typedefs_in, external_in};

use crate::read_initialisers::read_init;
use crate::take_units::{
    LIMIT, leads_body, take_body, take_extern, take_globals_end, take_semicolon_end, take_typedef,
    take_typedefs_end,
};
use crate::values::{GlobalEnd, Globals, ReadGlobal};
use floyd_cparse_statements::{read_block_items, take_equal};
use floyd_cparse_tokens::{Reader, TypeNames};
use floyd_cparse_trees::{
    CUnit, Declaration, External, FunctionDefinition, InitDeclarator, Typedef,
};
use floyd_cparse_types::{
    Declarators, Declared, ReadDeclarator, ReadSpecifiers, read_dtor, read_specs, take_comma,
};
use floyd_grammar::Stop;
use floyd_lex::{Keyword, Punctuator};
use floyd_text::Name;
use sqlite_items::Items;
use std::alloc::{AllocError, Global};

/// All declarations of a source.
#[tactic(auto, unfolding(crate::specs::UnitClauses::unit, crate::specs::UnitClauses::externals))]
pub(crate) fn read_unit(alloc: Global, reader: &mut Reader<'_>) -> Result<CUnit, Stop>
    ensures { Gives result reader.new (r.unit reader.old) }
{
    let mut types = TypeNames::new(alloc);
    let mut externals = Items::new(alloc);
    'each: while reader.leads_any() {
        let next = read_external(alloc, reader, &mut types)?;
        externals.push(next)?;
    }
    Ok(CUnit { externals })
}

/// A declaration, a typedef, whose names are in scope behind it, or a function.
#[tactic(auto, unfolding(crate::specs::UnitClauses::external))]
fn read_external(
    alloc: Global,
    reader: &mut Reader<'_>,
    types: &mut TypeNames,
) -> Result<External, Stop>
    ensures { Gives (external_in types.new result) reader.new (r.external types.old reader.old) }
{
    if reader.leads_word(Keyword::Typedef) {
        return read_typedef(alloc, reader, types);
    }
    if reader.leads_word(Keyword::Extern) {
        take_extern(reader)?;
        return read_specified(alloc, reader, types, true);
    }
    read_specified(alloc, reader, types, false)
}

/// `"typedef" specs dtor {"," dtor} ";"`
#[tactic(auto, unfolding(crate::specs::UnitClauses::typedef, crate::specs::UnitClauses::typedefs_of, crate::specs::Units::limit))]
fn read_typedef(
    alloc: Global,
    reader: &mut Reader<'_>,
    types: &mut TypeNames,
) -> Result<External, Stop>
    ensures { Gives (external_in types.new result) reader.new (r.typedef types.old reader.old) }
{
    take_typedef(reader)?;
    let specifiers = read_specs(alloc, reader, types, LIMIT + 1, 0)?;
    let all = read_typedefs(alloc, reader, types)?;
    take_typedefs_end(reader, types, all.end)?;
    Ok(External::Typedef(Typedef {
        specifiers: specifiers.tree,
        declarators: all.items,
    }))
}

/// `dtor {"," dtor}`, whose names are in scope behind them.
#[tactic(auto, unfolding(crate::specs::UnitClauses::typedefs, crate::specs::Units::limit))]
fn read_typedefs(
    alloc: Global,
    reader: &mut Reader<'_>,
    types: &mut TypeNames,
) -> Result<Declarators, Stop>
    ensures { Gives (typedefs_in types.new result) reader.new (r.typedefs types.old reader.old) }
{
    let first = read_dtor(alloc, reader, types, Declared::Type, LIMIT + 1, 0)?;
    add_name(alloc, types, first.name)?;
    let mut items = Items::new(alloc);
    items.push(first.tree)?;
    let mut end = first.end;
    'each: while reader.leads_mark(Punctuator::Comma) {
        let next = read_next_typedef(alloc, reader, types)?;
        add_name(alloc, types, next.name)?;
        items.push(next.tree)?;
        end = next.end;
    }
    Ok(Declarators { items, end })
}

#[tactic(auto, unfolding(crate::specs::Units::limit))]
fn read_next_typedef(
    alloc: Global,
    reader: &mut Reader<'_>,
    types: &TypeNames,
) -> Result<ReadDeclarator, Stop>
    ensures { Gives result reader.new (r.next_typedef types.now reader.old) }
{
    take_comma(reader)?;
    read_dtor(alloc, reader, types, Declared::Type, LIMIT + 1, 0)
}

fn add_name(alloc: Global, types: &mut TypeNames, name: Option<Name>) -> Result<(), AllocError>
    ensures { OnOk result (types.new ≡ with_name name types.old) }
{
    match name {
        Some(name) => types.add(alloc, name.as_slice()),
        None => Ok(()),
    }
}

/// `specs [..] ";"` and `specs dtor block`
#[tactic(auto, unfolding(crate::specs::UnitClauses::specified, crate::specs::UnitClauses::declared, crate::specs::UnitClauses::none_declared, crate::specs::Units::limit))]
fn read_specified(
    alloc: Global,
    reader: &mut Reader<'_>,
    types: &TypeNames,
    external: bool,
) -> Result<External, Stop>
    ensures { Gives (external_in types.now result) reader.new (r.specified types.now external reader.old) }
{
    let specifiers = read_specs(alloc, reader, types, LIMIT + 1, 0)?;
    if !reader.leads_mark(Punctuator::Semicolon) {
        return read_some_declared(alloc, reader, types, external, specifiers);
    }
    take_semicolon_end(reader)?;
    Ok(External::Declaration(Declaration {
        external,
        specifiers: specifiers.tree,
        declarators: Items::new(alloc),
    }))
}

#[tactic(auto, unfolding(crate::specs::UnitClauses::some_declared, crate::specs::UnitClauses::declared_rest, crate::specs::Units::limit))]
fn read_some_declared(
    alloc: Global,
    reader: &mut Reader<'_>,
    types: &TypeNames,
    external: bool,
    specifiers: ReadSpecifiers,
) -> Result<External, Stop>
    ensures { Gives result reader.new (r.some_declared types.now external specifiers reader.old) }
{
    let declarator = read_dtor(alloc, reader, types, Declared::Object, LIMIT + 1, 0)?;
    if leads_body(reader, external) {
        read_function(alloc, reader, types, external, specifiers, declarator)
    } else {
        read_declaration(alloc, reader, types, external, specifiers, declarator)
    }
}

/// A block behind the declarator.
#[tactic(auto, unfolding(crate::specs::UnitClauses::function, crate::specs::Units::limit))]
fn read_function(
    alloc: Global,
    reader: &mut Reader<'_>,
    types: &TypeNames,
    external: bool,
    specifiers: ReadSpecifiers,
    declarator: ReadDeclarator,
) -> Result<External, Stop>
    ensures { Gives result reader.new (r.function types.now external specifiers declarator reader.old) }
{
    take_body(reader, external)?;
    let body = read_block_items(alloc, reader, types, LIMIT)?;
    Ok(External::Function(FunctionDefinition {
        specifiers: specifiers.tree,
        declarator: declarator.tree,
        body,
    }))
}

/// `["=" init] {"," dtor ["=" init]} ";"` behind the first declarator.
#[tactic(auto, unfolding(crate::specs::UnitClauses::declaration))]
fn read_declaration(
    alloc: Global,
    reader: &mut Reader<'_>,
    types: &TypeNames,
    external: bool,
    specifiers: ReadSpecifiers,
    declarator: ReadDeclarator,
) -> Result<External, Stop>
    ensures { Gives result reader.new (r.declaration types.now external specifiers declarator reader.old) }
{
    let all = read_globals(alloc, reader, types, declarator)?;
    take_globals_end(reader, types, all.end)?;
    Ok(External::Declaration(Declaration {
        external,
        specifiers: specifiers.tree,
        declarators: all.items,
    }))
}

#[tactic(auto, unfolding(crate::specs::UnitClauses::globals))]
fn read_globals(
    alloc: Global,
    reader: &mut Reader<'_>,
    types: &TypeNames,
    declarator: ReadDeclarator,
) -> Result<Globals, Stop>
    ensures { Gives result reader.new (r.globals types.now declarator reader.old) }
{
    let first = read_global_rest(alloc, reader, types, declarator)?;
    let mut items = Items::new(alloc);
    items.push(first.item)?;
    let mut end = first.end;
    'each: while reader.leads_mark(Punctuator::Comma) {
        let next = read_next_global(alloc, reader, types)?;
        items.push(next.item)?;
        end = next.end;
    }
    Ok(Globals { items, end })
}

#[tactic(auto, unfolding(crate::specs::UnitClauses::global, crate::specs::Units::limit))]
fn read_next_global(
    alloc: Global,
    reader: &mut Reader<'_>,
    types: &TypeNames,
) -> Result<ReadGlobal, Stop>
    ensures { Gives result reader.new (r.next_global types.now reader.old) }
{
    take_comma(reader)?;
    let declarator = read_dtor(alloc, reader, types, Declared::Object, LIMIT + 1, 0)?;
    read_global_rest(alloc, reader, types, declarator)
}

/// `["=" init]` behind a declarator.
#[tactic(auto, unfolding(crate::specs::UnitClauses::global_rest, crate::specs::UnitClauses::global_value, crate::specs::Units::limit))]
fn read_global_rest(
    alloc: Global,
    reader: &mut Reader<'_>,
    types: &TypeNames,
    declarator: ReadDeclarator,
) -> Result<ReadGlobal, Stop>
    ensures { Gives result reader.new (r.global_rest types.now declarator reader.old) }
{
    if !reader.leads_mark(Punctuator::Equal) {
        return Ok(ReadGlobal {
            item: InitDeclarator {
                declarator: declarator.tree,
                initialiser: None,
            },
            end: GlobalEnd::Declarator(declarator.end),
        });
    }
    let place = take_equal(reader)?;
    let value = read_init(alloc, reader, types, LIMIT + 1)?;
    Ok(ReadGlobal {
        item: InitDeclarator {
            declarator: declarator.tree,
            initialiser: Some((place, value.tree)),
        },
        end: GlobalEnd::Value(value.end),
    })
}
