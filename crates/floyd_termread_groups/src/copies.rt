//! Copies of what a written tree holds. Names are shared.
ghost use Rattle.std.specs.Prelude.{◌≡◌, IfOk};

use floyd_cparse_trees::Identifier;
use floyd_termread_trees::{Binder, Opening, Prefix, SortItem};
use sqlite_items::Items;
use std::alloc::{AllocError, Global};

pub(crate) fn copy_identifier(identifier: &Identifier) -> Result<Identifier, AllocError>
    ensures { IfOk result (λ x. x ≡ identifier.now) }
{
    Ok(Identifier {
        name: identifier.name.share()?,
        place: identifier.place,
    })
}

pub(crate) fn copy_opening(opening: &Opening) -> Result<Opening, AllocError>
    ensures { IfOk result (λ x. x ≡ opening.now) }
{
    match opening {
        Opening::Call(name) => Ok(Opening::Call(copy_identifier(name)?)),
        Opening::Word(word, place) => Ok(Opening::Word(*word, *place)),
        Opening::Parenthesis => Ok(Opening::Parenthesis),
        Opening::List => Ok(Opening::List),
        Opening::Subscript => Ok(Opening::Subscript),
        Opening::Path => Ok(Opening::Path),
    }
}

fn copy_sort(alloc: Global, items: &[SortItem]) -> Result<Items<SortItem>, AllocError>
    ensures { IfOk result (λ xs. xs ≡ items.now) }
{
    let mut copy = Items::new(alloc);
    for item in items {
        match item {
            SortItem::Word(word, place) => copy.push(SortItem::Word(*word, *place))?,
            SortItem::Parenthesised(place, inner) => {
                let inner = copy_sort(alloc, inner.as_slice())?;
                copy.push(SortItem::Parenthesised(*place, inner))?;
            }
        }
    }
    Ok(copy)
}

fn copy_binder(alloc: Global, binder: &Binder) -> Result<Binder, AllocError>
    ensures { IfOk result (λ x. x ≡ binder.now) }
{
    Ok(Binder {
        name: copy_identifier(&binder.name)?,
        sort: copy_sort(alloc, binder.sort.as_slice())?,
    })
}

fn copy_binders(alloc: Global, binders: &[Binder]) -> Result<Items<Binder>, AllocError>
    ensures { IfOk result (λ xs. xs ≡ binders.now) }
{
    let mut copy = Items::new(alloc);
    for binder in binders {
        copy.push(copy_binder(alloc, binder)?)?;
    }
    Ok(copy)
}

fn copy_prefix(alloc: Global, prefix: &Prefix) -> Result<Prefix, AllocError>
    ensures { IfOk result (λ x. x ≡ prefix.now) }
{
    match prefix {
        Prefix::Minus(place) => Ok(Prefix::Minus(*place)),
        Prefix::Not(place) => Ok(Prefix::Not(*place)),
        Prefix::Forall(place, binders) => {
            let binders = copy_binders(alloc, binders.as_slice())?;
            Ok(Prefix::Forall(*place, binders))
        }
        Prefix::Exists(place, binders) => {
            let binders = copy_binders(alloc, binders.as_slice())?;
            Ok(Prefix::Exists(*place, binders))
        }
    }
}

pub(crate) fn copy_prefixes(alloc: Global, prefixes: &[Prefix]) -> Result<Items<Prefix>, AllocError>
    ensures { IfOk result (λ xs. xs ≡ prefixes.now) }
{
    let mut copy = Items::new(alloc);
    for prefix in prefixes {
        copy.push(copy_prefix(alloc, prefix)?)?;
    }
    Ok(copy)
}
