ghost use Rattle.std.specs.Prelude.{◌≡◌, IfOk};

use crate::binder::BinderList;
use crate::sep::SepList;
use crate::share::{share_binders, share_formulas, share_locals, share_parts};
use floyd_text::Name;
use floyd_tree::{FormulaList, Term};
use sqlite_items::Items;
use std::alloc::{AllocError, Global};

/// The value of a temporary.
pub struct Local {
    pub name: Name,
    pub term: Term,
}

/// Temporaries with their values, in order.
pub type LocalList = Items<Local>;

impl Drop for Local {
    fn drop(self) {
        let Local { name, term } = self;
        drop(name);
        drop(term);
    }
}

impl Local {
    /// The same, whose parts are not copied.
    pub fn share(&self) -> Result<Local, AllocError>
        ensures { IfOk result (λ l. l ≡ self.now) }
    {
        let name = self.name.share()?;
        let term = self.term.share()?;
        Ok(Local { name, term })
    }
}

/// An assertion: for some data for its existentials each formula of PROP is true, each temporary of LOCAL has its value,
/// and memory is the sum of the parts of SEP.
pub struct Assertion {
    pub existentials: BinderList,
    pub props: FormulaList,
    pub locals: LocalList,
    pub parts: SepList,
}

/// Assertions in order.
pub type AssertionList = Items<Assertion>;

impl Drop for Assertion {
    fn drop(self) {
        let Assertion {
            existentials,
            props,
            locals,
            parts,
        } = self;
        drop(existentials);
        drop(props);
        drop(locals);
        drop(parts);
    }
}

impl Assertion {
    /// The same assertion, whose terms and formulas are not copied.
    pub fn share(&self, alloc: Global) -> Result<Assertion, AllocError>
        ensures { IfOk result (λ a. a ≡ self.now) }
    {
        let existentials = share_binders(alloc, self.existentials.as_slice())?;
        let props = share_formulas(alloc, self.props.as_slice())?;
        let locals = share_locals(alloc, self.locals.as_slice())?;
        let parts = share_parts(alloc, self.parts.as_slice())?;
        Ok(Assertion {
            existentials,
            props,
            locals,
            parts,
        })
    }
}
