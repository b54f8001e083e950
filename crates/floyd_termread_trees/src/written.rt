use crate::words::{SortWord, Word};
use floyd_cparse_trees::Identifier;
use floyd_text::Place;
use sqlite_items::{Boxed, Items};

/// An operator between two operands.
#[derive(Clone, Copy, PartialEq, Eq, Debug)]
pub enum Infix {
    /// `::`
    Cons,
    /// `++`
    Append,
    Add,
    Sub,
    Mul,
    Equal,
    /// `<>`
    Unequal,
    AtMost,
    Less,
    AtLeast,
    Greater,
    Implies,
    Or,
    And,
}

/// What stands before the items of a bracket.
pub enum Opening {
    /// A name, whose arguments the items are.
    Call(Identifier),
    /// A word of the grammar with its place.
    Word(Word, Place),
    Parenthesis,
    /// `[`, as a term.
    List,
    /// `[`, as a step of a path.
    Subscript,
    /// `[`, as a path.
    Path,
}

impl Drop for Opening {
    fn drop(self) {
        match self {
            Opening::Call(identifier) => drop(identifier),
            Opening::Word(_, _) => {}
            Opening::Parenthesis => {}
            Opening::List => {}
            Opening::Subscript => {}
            Opening::Path => {}
        }
    }
}

/// A sort in the order of its words: an operator before the sorts that it takes.
#[cycle(sorts)]
pub enum SortItem {
    Word(SortWord, Place),
    Parenthesised(Place, Items<SortItem>),
}

impl Drop for SortItem {
    #[cycle(drop)]
    fn drop(self) {
        match self {
            SortItem::Word(_, _) => {}
            SortItem::Parenthesised(_, items) => drop(items),
        }
    }
}

pub struct Binder {
    pub name: Identifier,
    pub sort: Items<SortItem>,
}

impl Drop for Binder {
    fn drop(self) {
        let Binder { name, sort } = self;
        drop(name);
        drop(sort);
    }
}

/// An operator before an operand.
pub enum Prefix {
    Minus(Place),
    Not(Place),
    Forall(Place, Items<Binder>),
    Exists(Place, Items<Binder>),
}

impl Drop for Prefix {
    fn drop(self) {
        match self {
            Prefix::Minus(_) => {}
            Prefix::Not(_) => {}
            Prefix::Forall(_, binders) => drop(binders),
            Prefix::Exists(_, binders) => drop(binders),
        }
    }
}

/// A term, a formula, a type, a path, a step of a path or a name as it is written. It is nested no deeper than a small
/// multiple of the limit on depth.
#[cycle(written)]
pub enum Written {
    /// Nothing, where the text is cut off.
    Missing,
    Literal {
        value: u128,
        place: Place,
    },
    Name(Identifier),
    /// A word that stands alone.
    Word(Word, Place),
    /// `struct` and its tag.
    Struct(Place, Identifier),
    /// `.` and a field, as a step of a path.
    Field(Place, Identifier),
    Bracket {
        opening: Opening,
        /// The place of the bracket.
        place: Place,
        items: Items<Written>,
        /// None where the text is cut off before it.
        close: Option<Place>,
    },
    /// Operators before an operand, at least one, in their order.
    Prefixed {
        prefixes: Items<Prefix>,
        operand: Boxed<Written>,
    },
    /// Operands with operators between them, at least one, in their order. How strongly each operator binds is not
    /// looked at.
    Chain {
        first: Boxed<Written>,
        links: Items<Link>,
    },
}

impl Drop for Written {
    #[cycle(drop)]
    fn drop(self) {
        match self {
            Written::Missing => {}
            Written::Literal { value: _, place: _ } => {}
            Written::Name(identifier) => drop(identifier),
            Written::Word(_, _) => {}
            Written::Struct(_, identifier) => drop(identifier),
            Written::Field(_, identifier) => drop(identifier),
            Written::Bracket {
                opening,
                place: _,
                items,
                close: _,
            } => {
                drop(opening);
                drop(items);
            }
            Written::Prefixed { prefixes, operand } => {
                drop(prefixes);
                drop(operand);
            }
            Written::Chain { first, links } => {
                drop(first);
                drop(links);
            }
        }
    }
}

/// An operator with the operand behind it.
#[cycle(written)]
pub struct Link {
    pub infix: Infix,
    pub place: Place,
    pub operand: Written,
}

impl Drop for Link {
    #[cycle(drop)]
    fn drop(self) {
        let Link {
            infix: _,
            place: _,
            operand,
        } = self;
        drop(operand);
    }
}
