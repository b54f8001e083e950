//! Sorts and binders from their texts.
use floyd_assert_trees::{Binder, BinderList};
use floyd_lex::{FileKind, tokens};
use floyd_termread_scope::sort_in;
use floyd_termread_sorts::read_quantified;
use floyd_termread_tokens::Reader;
use floyd_termread_trees as written;
use floyd_tree::Sort;
use sqlite_items::Items;
use std::alloc::{AllocError, Global};

fn binder_of(alloc: Global, binder: &written::Binder) -> Result<Binder, AllocError> {
    let sort = sort_in(alloc, binder.sort.as_slice())?;
    Ok(Binder {
        name: binder.name.name.share()?,
        sort: sort.unwrap_or(Sort::Z),
    })
}

fn all_of(alloc: Global, written: &[written::Binder]) -> Result<BinderList, AllocError> {
    let mut all = Items::new(alloc);
    'each: for binder in written {
        all.push(binder_of(alloc, binder)?)?;
    }
    Ok(all)
}

/// The binders of a text that ends with a dot, and none of one that does not read.
pub(crate) fn binders_of(alloc: Global, text: &str) -> Result<BinderList, AllocError> {
    let bytes = text.as_bytes();
    if bytes.len() >= 1 << 32 {
        return Ok(Items::new(alloc));
    }
    let Ok(list) = tokens(alloc, FileKind::Spec, 0, bytes) else {
        return Ok(Items::new(alloc));
    };
    let mut reader = Reader::new(bytes, &list, 0);
    match read_quantified(alloc, &mut reader, 200, 0, 0) {
        Ok(written) => all_of(alloc, written.as_slice()),
        Err(_) => Ok(Items::new(alloc)),
    }
}

/// The sort of a text.
pub(crate) fn sort_of(alloc: Global, text: &str) -> Result<Option<Sort>, AllocError> {
    let binder = format!(in alloc; "a: {text} .")?;
    let all = binders_of(alloc, binder.as_str())?;
    match all.as_slice().first() {
        Some(binder) => Ok(Some(binder.sort.share()?)),
        None => Ok(None),
    }
}
