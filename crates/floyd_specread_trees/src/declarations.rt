use floyd_assert_trees::{Assertion, Funspec, SepList, Table};
use floyd_text::{Name, Place, Shared};
use floyd_tree::TermList;
use sqlite_items::Items;

/// SPEC items by name and in order. Each carries its own name.
pub type SpecItems = Table<Shared<Funspec>>;

/// Terms for the WITH variables of a function's own specification, and the parts of memory beside it. They speak of the
/// WITH variables of the import.
pub struct By {
    pub terms: TermList,
    pub frame: SepList,
}

impl Drop for By {
    fn drop(self) {
        let By { terms, frame } = self;
        drop(terms);
        drop(frame);
    }
}

/// How a declaration stands to its function.
pub enum DeclarationKind {
    /// The function has a body in the module.
    Plain,
    /// Another module has the function.
    Import,
    /// Another module has the function, and this one gives it a specification of its own.
    ImportBy(By),
    /// No module has the function.
    Extern,
}

impl Drop for DeclarationKind {
    fn drop(self) {
        match self {
            DeclarationKind::Plain => {}
            DeclarationKind::Import => {}
            DeclarationKind::ImportBy(by) => drop(by),
            DeclarationKind::Extern => {}
        }
    }
}

/// The declaration of a function with its specification. `place` is that of its name.
pub struct Declaration {
    pub kind: DeclarationKind,
    pub name: Name,
    pub place: Place,
    pub spec: Shared<Funspec>,
    /// Its precondition is MAIN_PRE. That of `spec` is empty then.
    pub main_pre: bool,
}

impl Drop for Declaration {
    fn drop(self) {
        let Declaration {
            kind,
            name,
            place: _,
            spec,
            main_pre: _,
        } = self;
        drop(kind);
        drop(name);
        drop(spec);
    }
}

/// Declarations in order.
pub type DeclarationList = Items<Declaration>;

/// What a lock guards. It is the global variable of that name, and `place` is that of the name. The body has no
/// temporaries and no free variables.
pub struct Lock {
    pub name: Name,
    pub place: Place,
    pub body: Assertion,
}

impl Drop for Lock {
    fn drop(self) {
        let Lock {
            name,
            place: _,
            body,
        } = self;
        drop(name);
        drop(body);
    }
}

/// Locks in order.
pub type LockList = Items<Lock>;
