use floyd_cparse_trees::Identifier;
use floyd_termread_trees::{Infix, Opening, Prefix, Word};
use floyd_text::Place;
use sqlite_items::{Boxed, Items};

/// How strongly an operator between operands binds, the weakest first. `not`, `forall` and `exists` before a formula stand
/// between `And` and `Relation`, and `-` before a term is stronger than all.
#[derive(Clone, Copy, PartialEq, Eq, Debug)]
pub enum Strength {
    /// `->`, to the right.
    Implies,
    /// `or`, to the right.
    Or,
    /// `and`, to the right.
    And,
    /// `=`, `<>`, `<=`, `<`, `>=`, `>`: one alone.
    Relation,
    /// `::`, to the right.
    Cons,
    /// `++`, to the left.
    Append,
    /// `+` and `-`, to the left.
    Sum,
    /// `*`, to the left.
    Product,
}

/// A term, a formula, a type, a path, a step of a path or a name, grouped by the strengths of its operators.
#[cycle(grouped)]
pub enum Grouped {
    /// Nothing, where the text is cut off.
    Missing,
    /// A number. A `-` directly before it, at its place, is part of it.
    Literal {
        minus: Option<Place>,
        value: u128,
        place: Place,
    },
    Name(Identifier),
    /// A word that stands alone.
    Word(Word, Place),
    /// `struct` and its tag.
    Struct(Place, Identifier),
    /// `.` and a field, as a step of a path.
    Field(Place, Identifier),
    Bracket {
        opening: Opening,
        /// The place of the bracket.
        place: Place,
        items: Items<Grouped>,
        /// None where the text is cut off before it.
        close: Option<Place>,
    },
    /// Operators before an operand, at least one, in their order: `-` alone before a term, or `not`, `forall` and `exists`
    /// alone before a formula. The last binds first.
    Prefixed {
        prefixes: Items<Prefix>,
        operand: Boxed<Grouped>,
    },
    /// Operands with operators of one strength between them, at least one, in their order. What the operands are rows of
    /// is stronger.
    Row {
        strength: Strength,
        first: Boxed<Grouped>,
        links: Items<GroupedLink>,
    },
}

impl Drop for Grouped {
    #[cycle(drop)]
    fn drop(self) {
        match self {
            Grouped::Missing => {}
            Grouped::Literal {
                minus: _,
                value: _,
                place: _,
            } => {}
            Grouped::Name(identifier) => drop(identifier),
            Grouped::Word(_, _) => {}
            Grouped::Struct(_, identifier) => drop(identifier),
            Grouped::Field(_, identifier) => drop(identifier),
            Grouped::Bracket {
                opening,
                place: _,
                items,
                close: _,
            } => {
                drop(opening);
                drop(items);
            }
            Grouped::Prefixed { prefixes, operand } => {
                drop(prefixes);
                drop(operand);
            }
            Grouped::Row {
                strength: _,
                first,
                links,
            } => {
                drop(first);
                drop(links);
            }
        }
    }
}

/// An operator with the operand behind it.
#[cycle(grouped)]
pub struct GroupedLink {
    pub infix: Infix,
    pub place: Place,
    pub operand: Grouped,
}

impl Drop for GroupedLink {
    #[cycle(drop)]
    fn drop(self) {
        let GroupedLink {
            infix: _,
            place: _,
            operand,
        } = self;
        drop(operand);
    }
}
