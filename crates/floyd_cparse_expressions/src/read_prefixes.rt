//! Readers of type names, and of what stands before an operand.
ghost use Rattle.std.specs.Prelude.{◌≡◌, ◌<◌, ◌≤◌, ◌+◌, IfOk, length};
ghost use Rattle.floyd_cparse_expressions.specs.Expressions as e;
ghost use Rattle.floyd_cparse_expressions.specs.ExpressionClauses as r;
ghost use Rattle.floyd_cparse_expressions.specs.ExpressionClauses.{nested};
ghost use Rattle.floyd_grammar.specs.GivesClauses.{Gives};

use crate::expression_tokens::leads_prefix;
use crate::take_expressions::{take_prefix, take_typename_end};
use crate::values::{PrefixStart, Prefixes};
use floyd_cparse_tokens::{Reader, TypeNames, inside};
use floyd_cparse_trees::{Prefix, TypeName};
use floyd_cparse_types::{Declared, read_dtor, read_specs};
use floyd_grammar::Stop;
use sqlite_items::Items;
use std::alloc::{AllocError, Global};

/// A type name and `)`, with the operators so far.
#[tactic(auto, unfolding(crate::specs::ExpressionClauses::typename, crate::specs::ExpressionClauses::typename_declarator))]
pub(crate) fn read_typename(
    alloc: Global,
    reader: &mut Reader<'_>,
    types: &TypeNames,
    room: u32,
    count: u32,
) -> Result<(TypeName, u32), Stop>
    requires { room ≤ 200 }
    ensures { Gives result reader.new (r.typename types.now room (nested types.now room) count reader.old) }
{
    let specifiers = read_specs(alloc, reader, types, room, count)?;
    let declarator = read_dtor(alloc, reader, types, Declared::Nothing, room, count)?;
    take_typename_end(reader, types, inside(room), &declarator)?;
    Ok((
        TypeName {
            specifiers: specifiers.tree,
            declarator: declarator.tree,
        },
        declarator.end.count,
    ))
}

/// One prefix, with the operators behind it.
#[tactic(auto, unfolding(crate::specs::ExpressionClauses::one_prefix, crate::specs::ExpressionClauses::after_prefix_start))]
fn read_prefix(
    alloc: Global,
    reader: &mut Reader<'_>,
    types: &TypeNames,
    room: u32,
    all: &Prefixes,
) -> Result<Prefixes, Stop>
    requires room { room ≤ 200 }
    requires count { length all.now.items ≤ room + 1 }
    ensures value { Gives result reader.new (r.one_prefix types.now room (nested types.now room) all.now reader.old) }
    ensures one { IfOk result (λ next. length next.items ≡ 1) }
{
    let count = all.count as u64 + all.items.len() as u64;
    match take_prefix(reader, types, room, count)? {
        PrefixStart::Op(op, place) => {
            Ok(one_prefix(alloc, Prefix::Op(op, place), all.count, false)?)
        }
        PrefixStart::Step(op, place) => {
            Ok(one_prefix(alloc, Prefix::Step(op, place), all.count, false)?)
        }
        PrefixStart::Cast(place) => {
            let (name, count) = read_typename(alloc, reader, types, room, all.count)?;
            Ok(one_prefix(alloc, Prefix::Cast(name, place), count, true)?)
        }
    }
}

fn one_prefix(alloc: Global, prefix: Prefix, count: u32, cast: bool) -> Result<Prefixes, AllocError>
    ensures { IfOk result (λ x. x ≡ e.one_prefix_of prefix count cast) }
{
    let mut items = Items::new(alloc);
    items.push(prefix)?;
    Ok(Prefixes { items, count, cast })
}

/// The prefixes before an operand.
#[tactic(auto, unfolding(crate::specs::ExpressionClauses::prefixes))]
pub(crate) fn read_prefixes(
    alloc: Global,
    reader: &mut Reader<'_>,
    types: &TypeNames,
    room: u32,
    count: u32,
) -> Result<Prefixes, Stop>
    requires { room ≤ 200 }
    ensures value { Gives result reader.new (r.prefixes types.now room (nested types.now room) count reader.old) }
    ensures room { IfOk result (λ all. length all.items ≤ room + 1) }
{
    let mut all = Prefixes {
        items: Items::new(alloc),
        count,
        cast: false,
    };
    'each: while leads_prefix(reader, types, room, &all) {
        let next = read_prefix(alloc, reader, types, room, &all)?;
        all = plus_prefix(all, next)?;
    }
    Ok(all)
}

fn plus_prefix(all: Prefixes, next: Prefixes) -> Result<Prefixes, AllocError>
    ensures { IfOk result (λ x. x ≡ e.plus_prefix all next) }
{
    let mut items = all.items;
    items.append(next.items)?;
    Ok(Prefixes {
        items,
        count: next.count,
        cast: next.cast,
    })
}
