ghost use Rattle.std.specs.Prelude.{◌≡◌, IfOk};

use crate::term::Term;
use floyd_ctypes::CType;
use floyd_text::Shared;
use sqlite_items::Items;
use std::alloc::{AllocError, Global};

/// A formula about terms.
pub enum Formula {
    True,
    False,
    Equal(Term, Term),
    /// The value is one of that scalar type.
    Hasty(CType, Term),
    And(Shared<Formula>, Shared<Formula>),
}

impl Drop for Formula {
    fn drop(self) {
        match self {
            Formula::True => {}
            Formula::False => {}
            Formula::Equal(first, second) => {
                drop(first);
                drop(second);
            }
            Formula::Hasty(ctype, term) => {
                drop(ctype);
                drop(term);
            }
            Formula::And(first, second) => {
                drop(first);
                drop(second);
            }
        }
    }
}

pub type FormulaList = Items<Formula>;

impl Formula {
    /// Another owner of the same formula.
    pub fn share(&self, alloc: Global) -> Result<Formula, AllocError>
        ensures { IfOk result (λ f. f ≡ self.now) }
    {
        match self {
            Formula::True => Ok(Formula::True),
            Formula::False => Ok(Formula::False),
            Formula::Equal(a, b) => Ok(Formula::Equal(a.share()?, b.share()?)),
            Formula::Hasty(t, a) => Ok(Formula::Hasty(t.share(alloc)?, a.share()?)),
            Formula::And(f, g) => Ok(Formula::And(f.share()?, g.share()?)),
        }
    }
}

/// The same formulas.
pub fn share_formulas(alloc: Global, formulas: &FormulaList) -> Result<FormulaList, AllocError>
    ensures { IfOk result (λ fs. fs ≡ formulas.now) }
{
    let mut copy = Items::new(alloc);
    'formulas: for f in formulas.as_slice() {
        copy.push(f.share(alloc)?)?;
    }
    Ok(copy)
}
