//! A written tree grouped by the strengths of its operators.
ghost use Rattle.std.specs.Prelude.{◌≡◌, ◌≤◌, IfOk, map};
ghost use Rattle.floyd_termread_groups.specs.HeightClauses.{height};
ghost use Rattle.floyd_termread_groups.specs.RowClauses.{step_at};
ghost use Rattle.floyd_termread_groups.specs.Groups as g;

use crate::copies::{copy_identifier, copy_opening};
use crate::grouped::{Grouped, GroupedLink, Strength};
use crate::rows::{count_of_formula, count_until, joined, prefixed, signed};
use crate::strengths::{Level, has_strength, table};
use floyd_termread_trees::{Link, Prefix, Written};
use sqlite_items::Items;
use std::alloc::{AllocError, Global};

/// The tree with its rows grouped. There is an error only where memory runs out.
#[cycle(group)]
pub fn group(alloc: Global, tree: &Written) -> Result<Grouped, AllocError>
    ensures exact { IfOk result (λ x. x ≡ g.grouped tree.now) }
{
    match tree {
        Written::Missing => Ok(Grouped::Missing),
        Written::Literal { value, place } => Ok(Grouped::Literal {
            minus: None,
            value: *value,
            place: *place,
        }),
        Written::Name(name) => Ok(Grouped::Name(copy_identifier(name)?)),
        Written::Word(word, place) => Ok(Grouped::Word(*word, *place)),
        Written::Struct(place, tag) => Ok(Grouped::Struct(*place, copy_identifier(tag)?)),
        Written::Field(place, name) => Ok(Grouped::Field(*place, copy_identifier(name)?)),
        Written::Bracket {
            opening,
            place,
            items,
            close,
        } => {
            let opening = copy_opening(opening)?;
            let items = group_all(alloc, items.as_slice())?;
            Ok(Grouped::Bracket {
                opening,
                place: *place,
                items,
                close: *close,
            })
        }
        Written::Prefixed { prefixes, operand } => {
            group_row(alloc, &table(), prefixes.as_slice(), operand.get(), &[])
        }
        Written::Chain { first, links } => {
            group_operand(alloc, &table(), first.get(), links.as_slice())
        }
    }
}

/// What stands in a bracket, item by item.
#[cycle(group)]
fn group_all(alloc: Global, items: &[Written]) -> Result<Items<Grouped>, AllocError>
    ensures exact { IfOk result (λ xs. xs ≡ map g.grouped items.now) }
{
    let mut all = Items::new(alloc);
    let mut rest = items;
    'each: while let Some((item, behind)) = rest.split_first() {
        all.push(group(alloc, item)?)?;
        rest = behind;
    }
    Ok(all)
}

/// The operators before an operand, and what they stand before.
fn parts_of(operand: &Written) -> (&[Prefix], &Written)
    ensures parts { g.operand operand.now ≡ g.operand_of result.0.now (g.grouped result.1.now) }
    ensures height { height result.1.now ≤ height operand.now }
{
    match operand {
        Written::Prefixed { prefixes, operand } => (prefixes.as_slice(), operand.get()),
        _ => (&[], operand),
    }
}

/// The row of these operators behind an operand, at these levels.
#[cycle(group)]
fn group_operand(
    alloc: Global,
    levels: &[Level],
    operand: &Written,
    links: &[Link],
) -> Result<Grouped, AllocError>
    ensures exact { IfOk result (λ x. x ≡ g.row levels.now (g.operand operand.now) (map step_at links.now)) }
{
    let (prefixes, atom) = parts_of(operand);
    group_row(alloc, levels, prefixes, atom, links)
}

/// The same, where the operators before the operand are apart from it.
#[cycle(group)]
#[tactic(auto, unfolding(crate::specs::Groups::row))]
fn group_row(
    alloc: Global,
    levels: &[Level],
    prefixes: &[Prefix],
    atom: &Written,
    links: &[Link],
) -> Result<Grouped, AllocError>
    ensures exact { IfOk result (λ x. x ≡ g.row levels.now (g.operand_of prefixes.now (g.grouped atom.now)) (map step_at links.now)) }
{
    let Some((level, stronger)) = levels.split_first() else {
        return signed(alloc, prefixes, group(alloc, atom)?);
    };
    match level {
        Level::Before => {
            let count = count_of_formula(prefixes);
            let formula = group_row(alloc, stronger, &prefixes[count..], atom, links)?;
            prefixed(alloc, &prefixes[..count], formula)
        }
        Level::Between(strength) => {
            let end = count_until(*strength, links);
            let first = group_row(alloc, stronger, prefixes, atom, &links[..end])?;
            let more = group_links(alloc, *strength, stronger, links)?;
            joined(alloc, *strength, first, more)
        }
    }
}

/// The operators that are so strong, each with the row behind it up to the next.
#[cycle(group)]
fn group_links(
    alloc: Global,
    strength: Strength,
    stronger: &[Level],
    links: &[Link],
) -> Result<Items<GroupedLink>, AllocError>
    ensures exact { IfOk result (λ xs. xs ≡ map (g.link (g.row stronger.now)) (g.parts strength (map step_at links.now))) }
{
    let mut all = Items::new(alloc);
    let mut rest = links;
    'each: while let Some((link, behind)) = rest.split_first() {
        if has_strength(strength, link.infix) {
            let end = count_until(strength, behind);
            all.push(group_link(alloc, stronger, link, &behind[..end])?)?;
        }
        rest = behind;
    }
    Ok(all)
}

/// An operator with the row behind it.
#[cycle(group)]
fn group_link(
    alloc: Global,
    stronger: &[Level],
    link: &Link,
    behind: &[Link],
) -> Result<GroupedLink, AllocError>
    ensures exact { IfOk result (λ x. x ≡ g.link (g.row stronger.now) (step_at link.now, map step_at behind.now)) }
{
    let operand = group_operand(alloc, stronger, &link.operand, behind)?;
    Ok(GroupedLink {
        infix: link.infix,
        place: link.place,
        operand,
    })
}
