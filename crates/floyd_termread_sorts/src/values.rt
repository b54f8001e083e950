//! What is read of sorts and binders, beside their trees.

use floyd_cparse_tokens::TypeNames;
use floyd_termread_trees::{Binder, SortItem, SortWord};
use floyd_text::Place;
use sqlite_items::Items;

#[derive(Clone, Copy)]
pub enum SortStart {
    Word(SortWord, Place),
    Open(Place),
}

/// The row of a sort so far.
#[derive(Drop)]
pub struct SortParts {
    pub items: Items<SortItem>,
    /// How many sorts it still wants.
    pub wanted: u64,
    /// The operators at its end.
    pub run: u32,
}

/// Binders with their names.
#[derive(Drop)]
pub struct Binders {
    pub items: Items<Binder>,
    pub names: TypeNames,
}
