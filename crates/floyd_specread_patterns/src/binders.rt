//! The variables of patterns.
ghost use Rattle.std.specs.Prelude.{◌≡◌, IfOk};
ghost use Rattle.floyd_specread_patterns.specs.Binders as specs;
ghost use Rattle.floyd_tree_sorts.specs.Sorts.{item_sort, node_sort};

use floyd_assert_trees::{Binder, BinderList, Pattern};
use floyd_text::Name;
use floyd_tree::Sort;
use sqlite_items::Items;
use std::alloc::{AllocError, Global};

fn binder_of(name: &Name, sort: &Sort) -> Result<Binder, AllocError>
    ensures { IfOk result (λ b. b ≡ specs.binder_of name.now sort.now) }
{
    let name = name.share()?;
    let sort = sort.share()?;
    Ok(Binder { name, sort })
}

/// Those of an item and a rest, where the whole is a list.
fn cons_binders(
    alloc: Global,
    item: &Name,
    rest: &Name,
    whole: &Sort,
) -> Result<BinderList, AllocError>
    ensures { IfOk result (λ bs. bs ≡ specs.cons_binders item.now rest.now whole.now (item_sort whole.now)) }
{
    match whole.item()? {
        Some(sort) => {
            let mut binders = Items::new(alloc);
            binders.push(binder_of(item, &sort)?)?;
            binders.push(binder_of(rest, whole)?)?;
            Ok(binders)
        }
        None => Ok(Items::new(alloc)),
    }
}

/// Those of a left part, an item and a right part, where the whole is a tree.
fn node_binders(
    alloc: Global,
    left: &Name,
    item: &Name,
    right: &Name,
    whole: &Sort,
) -> Result<BinderList, AllocError>
    ensures { IfOk result (λ bs. bs ≡ specs.node_binders left.now item.now right.now whole.now (node_sort whole.now)) }
{
    match whole.node_item()? {
        Some(sort) => {
            let mut binders = Items::new(alloc);
            binders.push(binder_of(left, whole)?)?;
            binders.push(binder_of(item, &sort)?)?;
            binders.push(binder_of(right, whole)?)?;
            Ok(binders)
        }
        None => Ok(Items::new(alloc)),
    }
}

fn binders_of(alloc: Global, whole: &Sort, pattern: &Pattern) -> Result<BinderList, AllocError>
    ensures { IfOk result (λ bs. bs ≡ specs.binders_of whole.now pattern.now) }
{
    match pattern {
        Pattern::Nil => Ok(Items::new(alloc)),
        Pattern::Cons(item, rest) => cons_binders(alloc, item, rest, whole),
        Pattern::Leaf => Ok(Items::new(alloc)),
        Pattern::Node(left, item, right) => node_binders(alloc, left, item, right, whole),
    }
}

/// The variables of a pattern with their sorts, by the arguments of its item. There are none where the first argument has
/// another sort than the pattern.
pub fn pattern_binders(
    alloc: Global,
    arguments: &[Binder],
    pattern: &Pattern,
) -> Result<BinderList, AllocError>
    ensures { IfOk result (λ bs. bs ≡ specs.pattern_binders arguments.now pattern.now) }
{
    match arguments {
        [] => Ok(Items::new(alloc)),
        [first, ..] => binders_of(alloc, &first.sort, pattern),
    }
}
