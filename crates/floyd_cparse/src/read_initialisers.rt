//! Readers of initial data.
ghost use Rattle.std.specs.Prelude.{◌≡◌, ◌≤◌, IfOk};
ghost use Rattle.floyd_grammar.specs.GivesClauses.{Gives};
ghost use Rattle.floyd_cparse.specs.Units as u;
ghost use Rattle.floyd_cparse.specs.UnitClauses as r;

use crate::take_units::{
    leads_last_comma, leads_separator, take_element, take_element_end, take_init, take_last_comma,
    take_literal, take_name, take_separator, take_values_end,
};
use crate::values::{InitialiserStart, Initialisers, ReadInitialiser, ValueEnd};
use floyd_cparse_tokens::{Reader, TypeNames};
use floyd_cparse_trees::{Constant, Identifier, Initialiser, Literal};
use floyd_cparse_types::take_brace_end;
use floyd_grammar::Stop;
use floyd_lex::Punctuator;
use floyd_text::Place;
use sqlite_items::Items;
use std::alloc::Global;

/// `init`
#[cycle(initialisers)]
#[tactic(auto, unfolding(crate::specs::UnitClauses::inits, crate::specs::UnitClauses::init, crate::specs::UnitClauses::after_init_start))]
pub(crate) fn read_init(
    alloc: Global,
    reader: &mut Reader<'_>,
    types: &TypeNames,
    room: u32,
) -> Result<ReadInitialiser, Stop>
    requires { room ≤ 201 }
    ensures { Gives result reader.new (r.inits types.now room reader.old) }
{
    if room == 0 {
        return reader.refuse_without_room(0);
    }
    let room = room - 1;
    match take_init(alloc, reader, types, room)? {
        InitialiserStart::List(place) => {
            let items = read_values(alloc, reader, types, room)?;
            Ok(ReadInitialiser {
                tree: Initialiser::List { place, items },
                end: plain_end(0),
            })
        }
        InitialiserStart::Minus => {
            let literal = take_literal(reader, types, room)?;
            Ok(literal_read(true, literal))
        }
        InitialiserStart::Address => {
            let name = take_name(alloc, reader, types, room)?;
            read_address(reader, types, room, name)
        }
        InitialiserStart::Literal(literal) => Ok(literal_read(false, literal)),
        InitialiserStart::Name(name) => Ok(constant_read(Constant::Name(name), plain_end(0))),
    }
}

/// `init {"," init} [","] "}"`
#[cycle(initialisers)]
#[tactic(auto, unfolding(crate::specs::UnitClauses::values))]
fn read_values(
    alloc: Global,
    reader: &mut Reader<'_>,
    types: &TypeNames,
    room: u32,
) -> Result<Items<Initialiser>, Stop>
    requires { room ≤ 200 }
    ensures { Gives result reader.new (r.values types.now room (r.inits types.now room) reader.old) }
{
    let all = read_value_list(alloc, reader, types, room)?;
    read_list_end(reader, types, room, all.end)?;
    Ok(all.items)
}

#[cycle(initialisers)]
#[tactic(auto, unfolding(crate::specs::UnitClauses::value_list))]
fn read_value_list(
    alloc: Global,
    reader: &mut Reader<'_>,
    types: &TypeNames,
    room: u32,
) -> Result<Initialisers, Stop>
    requires { room ≤ 200 }
    ensures { Gives result reader.new (r.value_list types.now room (r.inits types.now room) reader.old) }
{
    let first = read_init(alloc, reader, types, room)?;
    let mut items = Items::new(alloc);
    items.push(first.tree)?;
    let mut end = first.end;
    'each: while leads_separator(reader) {
        let next = read_next_value(alloc, reader, types, room)?;
        items.push(next.tree)?;
        end = next.end;
    }
    Ok(Initialisers { items, end })
}

#[cycle(initialisers)]
fn read_next_value(
    alloc: Global,
    reader: &mut Reader<'_>,
    types: &TypeNames,
    room: u32,
) -> Result<ReadInitialiser, Stop>
    requires { room ≤ 200 }
    ensures { Gives result reader.new (r.next_value types.now room (r.inits types.now room) reader.old) }
{
    take_separator(reader)?;
    read_init(alloc, reader, types, room)
}

/// `[","] "}"`
#[tactic(auto, unfolding(crate::specs::UnitClauses::close_list, crate::specs::UnitClauses::last_comma))]
fn read_list_end(
    reader: &mut Reader<'_>,
    types: &TypeNames,
    room: u32,
    end: ValueEnd,
) -> Result<Place, Stop>
    ensures { Gives result reader.new (r.close_list types.now room (r.inits types.now room) end reader.old) }
{
    if leads_last_comma(reader) {
        take_last_comma(reader)?;
        return take_brace_end(reader);
    }
    take_values_end(reader, types, room.saturating_sub(1), end)
}

/// `["[" literal "]"]` behind `&` and a name.
#[tactic(auto, unfolding(crate::specs::UnitClauses::address, crate::specs::UnitClauses::element))]
fn read_address(
    reader: &mut Reader<'_>,
    types: &TypeNames,
    room: u32,
    name: Identifier,
) -> Result<ReadInitialiser, Stop>
    ensures { Gives result reader.new (r.address types.now room (r.inits types.now room) name reader.old) }
{
    if !reader.leads_mark(Punctuator::OpenBracket) {
        let end = ValueEnd {
            count: 0,
            address: true,
        };
        return Ok(constant_read(Constant::Address(name), end));
    }
    let place = take_element(reader, room)?;
    let index = take_literal(reader, types, room.saturating_sub(1))?;
    take_element_end(reader, types, room.saturating_sub(1))?;
    let element = Constant::Element {
        array: name,
        place,
        index,
    };
    Ok(constant_read(element, plain_end(1)))
}

fn plain_end(count: u32) -> ValueEnd
    ensures { result ≡ u.value_end count }
{
    ValueEnd {
        count,
        address: false,
    }
}

fn constant_read(tree: Constant, end: ValueEnd) -> ReadInitialiser
    ensures { result ≡ u.constant_read tree end }
{
    ReadInitialiser {
        tree: Initialiser::Constant(tree),
        end,
    }
}

fn literal_read(negative: bool, literal: Literal) -> ReadInitialiser
    ensures { result ≡ u.literal_read negative literal }
{
    constant_read(Constant::Literal { negative, literal }, plain_end(0))
}
