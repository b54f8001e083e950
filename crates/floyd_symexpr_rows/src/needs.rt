ghost use Rattle.std.specs.Prelude.{◌≡◌, IfOk};
ghost use Rattle.floyd_symexpr_rows.specs.Rows.{nothing_needed};

use floyd_assert_trees::Sep;
use floyd_ctypes::{CType, StructTable};
use floyd_int::IntKind;
use floyd_tree::{FormulaList, Term, TermList};
use std::alloc::{AllocError, Global};

/// What an expression needs, in order: formulas that must be true, and terms that must be valid addresses.
pub struct Needs {
    pub sides: FormulaList,
    pub valid: TermList,
}

impl Drop for Needs {
    fn drop(self) {
        let Needs { sides, valid } = self;
        drop(sides);
        drop(valid);
    }
}

impl Needs {
    pub fn new(alloc: Global) -> Needs
        ensures { result ≡ nothing_needed }
    {
        Needs {
            sides: FormulaList::new(alloc),
            valid: TermList::new(alloc),
        }
    }

    /// The formulas, and the terms.
    pub fn into_parts(self) -> (FormulaList, TermList)
        ensures { result ≡ (self.sides, self.valid) }
    {
        let Needs { sides, valid } = self;
        (sides, valid)
    }
}

/// The number of an integer of this kind: its term is `Vint` of it, or `Vlong` where the kind has 64 bits.
pub struct Number {
    pub kind: IntKind,
    pub term: Term,
}

impl Drop for Number {
    fn drop(self) {
        let Number { kind: _, term } = self;
        drop(term);
    }
}

/// An operand.
pub enum Operand {
    OfKind(Number),
    /// A pointer, an array or a function, with the type that it leads to.
    Address(CType, Term),
}

impl Drop for Operand {
    fn drop(self) {
        match self {
            Operand::OfKind(number) => drop(number),
            Operand::Address(ctype, term) => {
                drop(ctype);
                drop(term);
            }
        }
    }
}

/// Where terms are made, the structs, and the parts of memory in which objects are found.
#[derive(Clone, Copy)]
pub struct Objects<'a> {
    pub alloc: Global,
    pub structs: &'a StructTable,
    pub parts: &'a [Sep],
}
