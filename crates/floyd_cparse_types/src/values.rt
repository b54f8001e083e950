//! What is read of specifiers and declarators, beside their trees: their words so far, and how they end.

use floyd_cparse_trees::{Base, Declarator, Identifier, Literal, Parameter, Specifiers};
use floyd_text::{Name, Place};
use sqlite_items::Items;

/// What a declarator declares.
#[derive(Clone, Copy)]
pub enum Declared {
    /// A variable or a function.
    Object,
    /// A name of a type.
    Type,
    Field,
    /// A parameter, which may have no name.
    Parameter,
    /// Nothing: a type name's has no name.
    Nothing,
}

#[derive(Clone, Copy)]
pub enum Sign {
    Default,
    Signed,
    Unsigned,
}

#[derive(Clone, Copy)]
pub enum Size {
    Default,
    Char,
    Short,
    Long,
    LongLong,
}

/// The words of an integer type so far.
#[derive(Clone, Copy)]
pub struct IntWords {
    pub sign: Sign,
    pub size: Size,
    pub int: bool,
}

#[derive(Drop)]
pub enum BaseStart {
    Void,
    Word(IntWords),
    Struct,
    Typedef(Identifier),
}

#[derive(Drop)]
pub enum Tag {
    Alone(Identifier),
    WithFields(Identifier),
}

/// A base, with its words where more of them may follow.
#[derive(Drop)]
pub struct ReadBase {
    pub tree: Base,
    pub words: Option<IntWords>,
}

/// Specifiers, with the words of their base where more of them may follow.
#[derive(Drop)]
pub struct ReadSpecifiers {
    pub tree: Specifiers,
    pub words: Option<IntWords>,
}

/// How a declarator ends.
#[derive(Clone, Copy)]
pub struct DeclaratorEnd {
    /// The binary and postfix operators so far in the full declarator or expression.
    pub count: u32,
    /// The stars directly before what follows.
    pub stars: u32,
    /// Nothing stands behind its stars.
    pub bare: bool,
}

#[derive(Drop)]
pub struct ReadDeclarator {
    pub tree: Declarator,
    pub name: Option<Name>,
    pub end: DeclaratorEnd,
}

#[derive(Drop)]
pub enum CoreStart {
    Name(Identifier),
    Open(Place),
}

#[derive(Clone, Copy)]
pub enum SuffixStart {
    Array(Place),
    Function(Place),
}

#[derive(Clone, Copy)]
pub enum SizeStart {
    Size(Literal),
    End,
}

/// Parameters, and how the last of them ends.
#[derive(Drop)]
pub struct Parameters {
    pub items: Items<Parameter>,
    pub end: DeclaratorEnd,
}

/// Declarators, and how the last of them ends.
#[derive(Drop)]
pub struct Declarators {
    pub items: Items<Declarator>,
    pub end: DeclaratorEnd,
}
