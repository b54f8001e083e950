use crate::statements::BlockItem;
use crate::types::{Declarator, Identifier, Literal, Specifiers};
use floyd_text::Place;
use sqlite_items::Items;

/// A constant of initial data.
pub enum Constant {
    Literal {
        negative: bool,
        literal: Literal,
    },
    Name(Identifier),
    Address(Identifier),
    /// The address of an element of an array, with the place of the bracket.
    Element {
        array: Identifier,
        place: Place,
        index: Literal,
    },
}

impl Drop for Constant {
    fn drop(self) {
        match self {
            Constant::Literal {
                negative: _,
                literal,
            } => drop(literal),
            Constant::Name(identifier) => drop(identifier),
            Constant::Address(identifier) => drop(identifier),
            Constant::Element {
                array,
                place: _,
                index,
            } => {
                drop(array);
                drop(index);
            }
        }
    }
}

/// Initial data. `place` is that of the opening brace.
pub enum Initialiser {
    Constant(Constant),
    List {
        place: Place,
        items: Items<Initialiser>,
    },
}

impl Drop for Initialiser {
    fn drop(self) {
        match self {
            Initialiser::Constant(constant) => drop(constant),
            Initialiser::List { place: _, items } => drop(items),
        }
    }
}

/// A declared variable or function, with the place of its `=` and its initial data.
pub struct InitDeclarator {
    pub declarator: Declarator,
    pub initialiser: Option<(Place, Initialiser)>,
}

impl Drop for InitDeclarator {
    fn drop(self) {
        let InitDeclarator {
            declarator,
            initialiser,
        } = self;
        drop(declarator);
        drop(initialiser);
    }
}

pub struct Declaration {
    pub external: bool,
    pub specifiers: Specifiers,
    pub declarators: Items<InitDeclarator>,
}

impl Drop for Declaration {
    fn drop(self) {
        let Declaration {
            external: _,
            specifiers,
            declarators,
        } = self;
        drop(specifiers);
        drop(declarators);
    }
}

pub struct Typedef {
    pub specifiers: Specifiers,
    pub declarators: Items<Declarator>,
}

impl Drop for Typedef {
    fn drop(self) {
        let Typedef {
            specifiers,
            declarators,
        } = self;
        drop(specifiers);
        drop(declarators);
    }
}

pub struct FunctionDefinition {
    pub specifiers: Specifiers,
    pub declarator: Declarator,
    pub body: Items<BlockItem>,
}

impl Drop for FunctionDefinition {
    fn drop(self) {
        let FunctionDefinition {
            specifiers,
            declarator,
            body,
        } = self;
        drop(specifiers);
        drop(declarator);
        drop(body);
    }
}

pub enum External {
    Declaration(Declaration),
    Typedef(Typedef),
    Function(FunctionDefinition),
}

impl Drop for External {
    fn drop(self) {
        match self {
            External::Declaration(declaration) => drop(declaration),
            External::Typedef(typedef) => drop(typedef),
            External::Function(function_definition) => drop(function_definition),
        }
    }
}

/// A source: its declarations in order.
pub struct CUnit {
    pub externals: Items<External>,
}

impl Drop for CUnit {
    fn drop(self) {
        let CUnit { externals } = self;
        drop(externals);
    }
}
