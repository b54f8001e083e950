ghost use Rattle.std.specs.Prelude.{◌≡◌};

use crate::formula::FormulaList;
use crate::locals::Locals;
use sqlite_items::Items;

/// A part of memory.
#[derive(Clone, Copy, PartialEq, Eq, Debug)]
pub enum Sep {
    /// Any memory.
    TT,
}

pub type SepList = Items<Sep>;

/// What a proof claims of a state: its formulas, its temporaries and its memory.
pub struct Assertion {
    pub prop: FormulaList,
    pub local: Locals,
    pub sep: SepList,
}

impl Assertion {
    pub fn into_prop(self) -> FormulaList
        ensures { result ≡ self.prop }
    {
        let Assertion {
            prop,
            local: _,
            sep: _,
        } = self;
        prop
    }
}

impl Drop for Assertion {
    fn drop(self) {
        let Assertion { prop, local, sep } = self;
        drop(prop);
        drop(local);
        drop(sep);
    }
}
