//! What is read of initial data and of declarations, beside their trees: how they end.

use floyd_cparse_trees::{Declarator, Identifier, InitDeclarator, Initialiser, Literal};
use floyd_cparse_types::DeclaratorEnd;
use floyd_text::Place;
use sqlite_items::Items;

/// How initial data ends: with the operators before what follows, and whether `[` may.
#[derive(Clone, Copy)]
pub struct ValueEnd {
    pub count: u32,
    pub address: bool,
}

#[derive(Drop)]
pub struct ReadInitialiser {
    pub tree: Initialiser,
    pub end: ValueEnd,
}

#[derive(Drop)]
pub struct Initialisers {
    pub items: Items<Initialiser>,
    pub end: ValueEnd,
}

#[derive(Drop)]
pub enum InitialiserStart {
    List(Place),
    Minus,
    Address,
    Literal(Literal),
    Name(Identifier),
}

/// How a declarator with or without initial data ends.
#[derive(Clone, Copy)]
pub enum GlobalEnd {
    Declarator(DeclaratorEnd),
    Value(ValueEnd),
}

#[derive(Drop)]
pub struct ReadGlobal {
    pub item: InitDeclarator,
    pub end: GlobalEnd,
}

#[derive(Drop)]
pub struct Globals {
    pub items: Items<InitDeclarator>,
    pub end: GlobalEnd,
}
