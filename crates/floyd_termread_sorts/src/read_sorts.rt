//! Readers of sorts and binders.
ghost use Rattle.std.specs.Prelude.{◌<◌, ◌≤◌, ◌^◌, ◌+◌, [], IfOk, suc};
ghost use Rattle.floyd_grammar.specs.GivesClauses.{Gives};
ghost use Rattle.floyd_termread_sorts.specs.SortClauses as r;
ghost use Rattle.floyd_termread_sorts.specs.SortClauses.{sorts};
ghost use Rattle.floyd_termread_sorts.specs.Sorts.{run_behind};

use crate::take_sorts::{
    first_binder, leads_sort, no_sort, plus_binder, plus_sort, refuse_row, take_binder_name,
    take_colon, take_comma, take_dot, take_sort, take_sort_end, wants_none,
};
use crate::values::{Binders, SortParts, SortStart};
use floyd_cparse_tokens::TypeNames;
use floyd_grammar::Stop;
use floyd_lex::Punctuator;
use floyd_termread_tokens::{Reader, inside};
use floyd_termread_trees::{Binder, SortItem};
use sqlite_items::Items;
use std::alloc::Global;

/// A sort, with `room` less one brackets left and `count` operators before it.
#[cycle(sorts)]
pub fn read_sort(
    alloc: Global,
    reader: &mut Reader<'_>,
    room: u32,
    count: u32,
) -> Result<Items<SortItem>, Stop>
    requires { room ≤ 201 }
    ensures { Gives result reader.new (sorts room count reader.old) }
{
    if room == 0 {
        return reader.refuse_without_room(count);
    }
    read_row(alloc, reader, room - 1, count)
}

/// A row that wants no sort any more.
#[cycle(sorts)]
#[tactic(auto, unfolding(crate::specs::SortClauses::sort))]
fn read_row(
    alloc: Global,
    reader: &mut Reader<'_>,
    room: u32,
    count: u32,
) -> Result<Items<SortItem>, Stop>
    requires { room ≤ 200 }
    ensures { Gives result reader.new (r.sort room (sorts room) count reader.old) }
{
    let parts = read_parts(alloc, reader, room, count)?;
    finish_sort(reader, parts, room)
}

/// The row of a sort, as far as it goes.
#[cycle(sorts)]
#[tactic(auto, unfolding(crate::specs::SortClauses::sort_parts))]
fn read_parts(
    alloc: Global,
    reader: &mut Reader<'_>,
    room: u32,
    count: u32,
) -> Result<SortParts, Stop>
    requires { room ≤ 200 }
    ensures { Gives result reader.new (r.sort_parts room (sorts room) count reader.old) }
{
    let mut parts = no_sort(alloc);
    'each: while leads_sort(reader, &parts) {
        let item = read_item(alloc, reader, room, count, &parts)?;
        parts = plus_sort(parts, item)?;
    }
    Ok(parts)
}

/// A word of a sort, or a sort in parentheses.
#[cycle(sorts)]
#[tactic(auto, unfolding(crate::specs::SortClauses::sort_item, crate::specs::SortClauses::after_sort_start, crate::specs::SortClauses::parenthesised))]
fn read_item(
    alloc: Global,
    reader: &mut Reader<'_>,
    room: u32,
    count: u32,
    parts: &SortParts,
) -> Result<SortItem, Stop>
    requires { room ≤ 200 }
    ensures value { Gives result reader.new (r.sort_item room (sorts room) count parts.now reader.old) }
    ensures room { IfOk result (λ x. run_behind x parts.now.run ≤ room + 2) }
{
    match take_sort(reader, room, count, parts)? {
        SortStart::Word(word, place) => Ok(SortItem::Word(word, place)),
        SortStart::Open(place) => {
            let items = read_sort(alloc, reader, room, count)?;
            take_sort_end(reader, inside(room), count)?;
            Ok(SortItem::Parenthesised(place, items))
        }
    }
}

/// The row, where it wants no sort any more.
#[tactic(auto, unfolding(crate::specs::SortClauses::finish_sort))]
fn finish_sort(
    reader: &mut Reader<'_>,
    parts: SortParts,
    room: u32,
) -> Result<Items<SortItem>, Stop>
    ensures { Gives result reader.new (r.finish_sort room (sorts room) parts reader.old) }
{
    if wants_none(&parts) {
        return Ok(parts.items);
    }
    refuse_row(reader)
}

/// `name ":" sort`
#[tactic(auto, unfolding(crate::specs::SortClauses::binder))]
fn read_binder(
    alloc: Global,
    reader: &mut Reader<'_>,
    room: u32,
    count: u32,
    depth: u64,
    names: &TypeNames,
) -> Result<Binder, Stop>
    requires room { room ≤ 200 }
    requires depth { depth < 2 ^ 40 }
    ensures { Gives result reader.new (r.binder room count depth names.now reader.old) }
{
    let name = take_binder_name(alloc, reader, room, depth, names)?;
    take_colon(reader, room, count)?;
    let sort = read_sort(alloc, reader, room + 1, count)?;
    Ok(Binder { name, sort })
}

/// `name ":" sort { "," name ":" sort }`
#[tactic(auto, unfolding(crate::specs::SortClauses::binders))]
pub fn read_binders(
    alloc: Global,
    reader: &mut Reader<'_>,
    room: u32,
    count: u32,
    depth: u64,
) -> Result<Binders, Stop>
    requires room { room ≤ 200 }
    requires depth { depth < 2 ^ 40 }
    ensures { Gives result reader.new (r.binders room count depth reader.old) }
{
    let first = read_binder(alloc, reader, room, count, depth, &TypeNames::new(alloc))?;
    let mut all = first_binder(alloc, first)?;
    'each: while reader.leads_mark(Punctuator::Comma) {
        let next = read_next_binder(alloc, reader, room, count, &all)?;
        all = plus_binder(alloc, all, next)?;
    }
    Ok(all)
}

fn read_next_binder(
    alloc: Global,
    reader: &mut Reader<'_>,
    room: u32,
    count: u32,
    all: &Binders,
) -> Result<Binder, Stop>
    requires { room ≤ 200 }
    ensures { Gives result reader.new (r.next_binder room count all.now reader.old) }
{
    take_comma(reader)?;
    read_binder(alloc, reader, room, count, count as u64, &all.names)
}

/// The binders behind a quantifier, and the `.` behind them. The first name stands at `depth`.
#[tactic(auto, unfolding(crate::specs::SortClauses::quantified))]
pub fn read_quantified(
    alloc: Global,
    reader: &mut Reader<'_>,
    room: u32,
    count: u32,
    depth: u64,
) -> Result<Items<Binder>, Stop>
    requires room { room ≤ 200 }
    requires depth { depth < 2 ^ 40 }
    ensures { Gives result reader.new (r.quantified room count depth reader.old) }
{
    let all = read_binders(alloc, reader, room, count, depth)?;
    take_dot(reader, room, count)?;
    Ok(all.items)
}
