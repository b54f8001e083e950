//! Sorts that are written.
ghost use Rattle.std.specs.Prelude.{◌≡◌, IfOk, OnOk, reverse};
ghost use Rattle.floyd_termread_scope.specs.WrittenSorts.{only, with_only, after_word, after_item, written_sort};

use floyd_termread_trees::{SortItem, SortWord};
use floyd_tree::Sort;
use sqlite_items::Items;
use std::alloc::{AllocError, Global};

/// The sort that is written by a row of words, each before the sorts that it takes. None where the row is cut off.
#[cycle(written_sorts)]
pub fn sort_in(alloc: Global, row: &[SortItem]) -> Result<Option<Sort>, AllocError>
    ensures { IfOk result (λ s. s ≡ written_sort row.now) }
{
    let mut stack = Items::new(alloc);
    'items: for i in (0..row.len()).rev() {
        put_item(alloc, &row[i], &mut stack)?;
    }
    Ok(the_only(stack))
}

/// Takes from the end of the stack what an item takes, and puts there what it gives.
#[cycle(written_sorts)]
fn put_item(alloc: Global, item: &SortItem, stack: &mut Items<Sort>) -> Result<(), AllocError>
    ensures { OnOk result (reverse stack.new ≡ after_item item.now (reverse stack.old)) }
{
    match item {
        SortItem::Word(word, _) => put_word(alloc, *word, stack),
        SortItem::Parenthesised(_, items) => {
            let sort = sort_in(alloc, items.as_slice())?;
            put_only(alloc, sort, stack)
        }
    }
}

/// Puts a sort at the end. Nothing is left where there is none.
fn put_only(alloc: Global, sort: Option<Sort>, stack: &mut Items<Sort>) -> Result<(), AllocError>
    ensures { OnOk result (reverse stack.new ≡ with_only sort (reverse stack.old)) }
{
    match sort {
        Some(sort) => stack.push(sort),
        None => {
            *stack = Items::new(alloc);
            Ok(())
        }
    }
}

fn put_word(alloc: Global, word: SortWord, stack: &mut Items<Sort>) -> Result<(), AllocError>
    ensures { OnOk result (reverse stack.new ≡ after_word word (reverse stack.old)) }
{
    match word {
        SortWord::Z => stack.push(Sort::Z),
        SortWord::Val => stack.push(Sort::Val),
        SortWord::List => match stack.pop() {
            Some(item) => stack.push(Sort::list_of(alloc, item)?),
            None => Ok(()),
        },
        SortWord::Tree => match stack.pop() {
            Some(item) => stack.push(Sort::tree_of(alloc, item)?),
            None => Ok(()),
        },
        SortWord::Prod => put_pair(alloc, stack),
    }
}

fn put_pair(alloc: Global, stack: &mut Items<Sort>) -> Result<(), AllocError>
    ensures { OnOk result (reverse stack.new ≡ after_word SortWord.Prod (reverse stack.old)) }
{
    let Some(first) = stack.pop() else {
        return Ok(());
    };
    match stack.pop() {
        Some(second) => stack.push(Sort::pair(alloc, first, second)?),
        None => Ok(()),
    }
}

/// The only sort that is there.
fn the_only(mut stack: Items<Sort>) -> Option<Sort>
    ensures { result ≡ only (reverse stack) }
{
    let last = stack.pop()?;
    if stack.is_empty() { Some(last) } else { None }
}
