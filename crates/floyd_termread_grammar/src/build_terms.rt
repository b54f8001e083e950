//! Terms and formulas as they are built from their parts.
ghost use Rattle.std.specs.Prelude.{◌≡◌, ◌<◌, ◌^◌, IfOk};
ghost use Rattle.floyd_termread_grammar.specs.Terms as t;
ghost use Rattle.floyd_termread_trees.specs.declared.written.Opening.TheVariants as opening;

use crate::values::{Atom, Chain, Contents, Filled, Operand, Prefixes};
use floyd_cparse_trees::Identifier;
use floyd_termread_tables::{Class, End, Kind, LinkStart, Want, kind_behind, kind_of};
use floyd_termread_trees::{Link, Opening, Prefix, Written};
use floyd_text::Place;
use sqlite_items::{Boxed, Items};
use std::alloc::{AllocError, Global};

fn other_end(count: u32) -> End
    ensures { result ≡ t.other_end count }
{
    End {
        kind: Kind::Other,
        bare: false,
        count,
    }
}

pub(crate) fn no_prefixes(alloc: Global, want: Want, count: u32) -> Prefixes
    ensures { result ≡ t.no_prefixes want count }
{
    Prefixes {
        items: Items::new(alloc),
        run: 0,
        count,
        want,
        minus: false,
    }
}

/// With one operator more. The limit on depth comes before a count that has no room.
pub(crate) fn plus_prefix(all: Prefixes, prefix: Prefix) -> Result<Prefixes, AllocError>
    ensures { IfOk result (λ x. x ≡ t.plus_prefix all prefix) }
{
    let mut all = all;
    match &prefix {
        Prefix::Minus(_) => {
            all.run = all.run.checked_add(1).ok_or(AllocError)?;
            all.minus = true;
        }
        Prefix::Not(_) => {
            all.run = all.run.checked_add(1).ok_or(AllocError)?;
            all.want = Want::Formula;
        }
        Prefix::Forall(_, _) | Prefix::Exists(_, _) => {
            all.run = 0;
            all.count = all.count.checked_add(1).ok_or(AllocError)?;
            all.want = Want::Formula;
        }
    }
    all.items.push(prefix)?;
    Ok(all)
}

fn is_missing(tree: &Written) -> bool
    ensures { result ≡ t.is_missing tree.now }
{
    matches!(tree, Written::Missing)
}

fn prefixed(alloc: Global, prefixes: Items<Prefix>, tree: Written) -> Result<Written, AllocError>
    ensures { IfOk result (λ x. x ≡ t.prefixed prefixes tree) }
{
    if prefixes.is_empty() || is_missing(&tree) {
        return Ok(tree);
    }
    let operand = Boxed::new(alloc, tree)?;
    Ok(Written::Prefixed { prefixes, operand })
}

pub(crate) fn with_prefixes(alloc: Global, all: Prefixes, x: Atom) -> Result<Operand, AllocError>
    ensures { IfOk result (λ y. y ≡ t.with_prefixes all x) }
{
    let end = End {
        kind: kind_of(all.want, x.class),
        bare: x.bare,
        count: x.count,
    };
    let tree = prefixed(alloc, all.items, x.tree)?;
    Ok(Operand { tree, end })
}

pub(crate) fn first_link(alloc: Global, x: Operand) -> Chain
    ensures { result ≡ t.first_link x }
{
    Chain {
        first: x.tree,
        links: Items::new(alloc),
        end: x.end,
    }
}

pub(crate) fn plus_link(chain: Chain, start: LinkStart, x: Operand) -> Result<Chain, AllocError>
    ensures { IfOk result (λ y. y ≡ t.plus_link chain (start, x)) }
{
    let mut chain = chain;
    chain.end = End {
        kind: kind_behind(chain.end.kind, start.op, x.end.kind),
        bare: x.end.bare,
        count: x.end.count,
    };
    chain.links.push(Link {
        infix: start.op,
        place: start.place,
        operand: x.tree,
    })?;
    Ok(chain)
}

fn linked(alloc: Global, first: Written, links: Items<Link>) -> Result<Written, AllocError>
    ensures { IfOk result (λ x. x ≡ t.linked first links) }
{
    if links.is_empty() {
        return Ok(first);
    }
    let first = Boxed::new(alloc, first)?;
    Ok(Written::Chain { first, links })
}

pub(crate) fn chain_operand(alloc: Global, chain: Chain) -> Result<Operand, AllocError>
    ensures { IfOk result (λ x. x ≡ t.chain_operand chain) }
{
    let tree = linked(alloc, chain.first, chain.links)?;
    Ok(Operand {
        tree,
        end: chain.end,
    })
}

/// A side of a relation, where the text is cut off before the relation.
pub(crate) fn cut_side(alloc: Global, chain: Chain) -> Result<Operand, AllocError>
    ensures { IfOk result (λ x. x ≡ t.cut_side chain) }
{
    let end = other_end(chain.end.count);
    let tree = linked(alloc, chain.first, chain.links)?;
    Ok(Operand { tree, end })
}

pub(crate) fn no_items(alloc: Global, count: u32) -> Contents
    ensures { result ≡ t.no_items count }
{
    Contents {
        items: Items::new(alloc),
        end: other_end(count),
    }
}

pub(crate) fn plus_item(all: Contents, x: Operand) -> Result<Contents, AllocError>
    ensures { IfOk result (λ y. y ≡ t.plus_item all x) }
{
    let mut all = all;
    all.items.push(x.tree)?;
    all.end = x.end;
    Ok(all)
}

pub(crate) fn first_item(alloc: Global, x: Operand) -> Result<Contents, AllocError>
    ensures { IfOk result (λ y. y ≡ t.first_item x) }
{
    let mut items = Items::new(alloc);
    items.push(x.tree)?;
    Ok(Contents { items, end: x.end })
}

pub(crate) fn filled(all: Contents, close: Option<Place>) -> Filled
    ensures { result ≡ t.filled all close }
{
    Filled {
        items: all.items,
        end: all.end,
        close,
    }
}

pub(crate) fn bracket_atom(opening: Opening, class: Class, place: Place, all: Filled) -> Atom
    ensures { result ≡ t.bracket_atom opening class place all }
{
    let class = if all.end.kind.is_formula() {
        Class::Formula
    } else {
        class
    };
    Atom {
        tree: Written::Bracket {
            opening,
            place,
            items: all.items,
            close: all.close,
        },
        class,
        bare: false,
        count: all.end.count,
    }
}

pub(crate) fn atom(tree: Written, class: Class, count: u32) -> Atom
    ensures { result ≡ t.atom tree class count }
{
    Atom {
        tree,
        class,
        bare: false,
        count,
    }
}

pub(crate) fn name_atom(name: Identifier, count: u32) -> Atom
    ensures { result ≡ t.name_atom name count }
{
    Atom {
        tree: Written::Name(name),
        class: Class::Term,
        bare: true,
        count,
    }
}

pub(crate) fn missing_atom(count: u32) -> Atom
    ensures { result ≡ t.missing_atom count }
{
    atom(Written::Missing, Class::Other, count)
}

pub(crate) fn struct_atom(place: Place, count: u32, tag: Option<Identifier>) -> Atom
    ensures { result ≡ t.struct_atom place count tag }
{
    match tag {
        Some(tag) => atom(Written::Struct(place, tag), Class::Other, count),
        None => missing_atom(count),
    }
}

pub(crate) fn path_atom(x: Operand) -> Atom
    ensures { result ≡ t.path_atom x }
{
    atom(x.tree, Class::Other, x.end.count)
}

/// The bracket behind a term's name or word counts as an operator.
pub(crate) fn count_in(class: Class, count: u32) -> u32
    requires { count < 2 ^ 31 }
    ensures { result ≡ t.count_in class count }
{
    match class {
        Class::Term => count + 1,
        Class::Formula | Class::Other => count,
    }
}

fn field_tree(place: Place, name: Option<Identifier>) -> Written
    ensures { result ≡ t.field_tree place name }
{
    match name {
        Some(name) => Written::Field(place, name),
        None => Written::Missing,
    }
}

pub(crate) fn field_operand(place: Place, count: u32, name: Option<Identifier>) -> Operand
    ensures { result ≡ t.field_operand place count name }
{
    Operand {
        tree: field_tree(place, name),
        end: other_end(count),
    }
}

fn bracket_operand(opening: Opening, place: Place, all: Filled) -> Operand
    ensures { result ≡ t.bracket_operand opening place all }
{
    let end = other_end(all.end.count);
    Operand {
        tree: Written::Bracket {
            opening,
            place,
            items: all.items,
            close: all.close,
        },
        end,
    }
}

pub(crate) fn subscript_operand(place: Place, all: Filled) -> Operand
    ensures { result ≡ t.bracket_operand opening.Subscript place all }
{
    bracket_operand(Opening::Subscript, place, all)
}

pub(crate) fn path_operand(place: Place, all: Contents, close: Option<Place>) -> Operand
    ensures { result ≡ t.bracket_operand opening.Path place (t.filled all close) }
{
    bracket_operand(Opening::Path, place, filled(all, close))
}
