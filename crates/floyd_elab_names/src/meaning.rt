use floyd_ctypes::CType;
use floyd_text::Name;

/// Where a variable is kept: with all the program's variables, in a block of its function's own, or in no memory. A
/// parameter has no address.
#[derive(Clone, Copy, PartialEq, Eq, Debug)]
pub enum Storage {
    Global,
    Block,
    Temporary,
    Parameter,
}

/// What a name stands for.
pub enum Meaning {
    /// A type, and whether it is `const` at its top.
    Type {
        ctype: CType,
        constant: bool,
    },
    /// A variable, and what it is called in Clight.
    Variable {
        called: Name,
        ctype: CType,
        storage: Storage,
    },
    Function(CType),
}

impl Drop for Meaning {
    fn drop(self) {
        match self {
            Meaning::Type { ctype, constant: _ } => drop(ctype),
            Meaning::Variable {
                called,
                ctype,
                storage,
            } => {
                drop(called);
                drop(ctype);
                drop(storage);
            }
            Meaning::Function(ctype) => drop(ctype),
        }
    }
}
