//! What is wanted somewhere, what was read, and what an operand or an operator begins with.

use floyd_cparse_trees::Identifier;
use floyd_termread_trees::{Infix, Opening, Word, Written};
use floyd_text::Place;

/// What is wanted somewhere.
#[derive(Clone, Copy)]
pub enum Want {
    Term,
    Formula,
    /// A term or a formula.
    Either,
    Type,
    /// A path.
    Path,
    /// What follows the `[` at this place in a path.
    Steps(Place),
    /// A name of the source.
    Given,
    /// A name that is no word.
    Free,
}

/// What was read: of a chain of operands, what it is so far.
#[derive(Clone, Copy)]
pub enum Kind {
    /// A term, and no side of a relation.
    Term,
    /// A term that may be a side of a relation.
    Open,
    /// A term that must be a side of a relation.
    Side,
    /// A formula that ends with a relation, whose right side may go on.
    Related,
    /// Another formula.
    Formula,
    /// Neither a term nor a formula.
    Other,
}

/// What an operand is by itself.
#[derive(Clone, Copy)]
pub enum Class {
    Term,
    Formula,
    Other,
}

/// What may stand in a bracket.
#[derive(Clone, Copy)]
pub enum Form {
    /// Any number of terms.
    Terms,
    /// A term, a formula, or two terms.
    Parenthesis,
    /// A term, or two terms.
    TermParenthesis,
    /// Some terms, in `[` and `]`.
    List,
    /// A term, in `[` and `]`.
    Subscript,
    OneTerm,
    OneType,
    OneGiven,
    TypeTerm,
    TypePathTerm,
    FreeTerm,
    /// Some types with `;` between them.
    Types,
}

/// How something ends.
#[derive(Clone, Copy)]
pub struct End {
    pub kind: Kind,
    /// It ends with a name that may be called.
    pub bare: bool,
    /// The operators so far in the full term or formula.
    pub count: u32,
}

/// What an operand begins with.
#[derive(Drop)]
pub enum Start {
    /// It stands alone.
    Alone(Written, Class),
    /// A name, which may be called.
    Name(Identifier),
    /// A bracket at this place.
    Open(Opening, Form, Class, Place),
    /// A word at this place, behind which a bracket must stand.
    Word(Word, Form, Class, Place),
    /// The `[` of a path.
    Path(Place),
    /// `struct`
    Struct(Place),
}

#[derive(Clone, Copy)]
pub enum PrefixStart {
    Minus(Place),
    Not(Place),
    Forall(Place),
    Exists(Place),
}

#[derive(Clone, Copy)]
pub struct LinkStart {
    pub op: Infix,
    pub place: Place,
}
