//! Terms, formulas, assertions and specifications of functions.
#![tactic(auto)]

mod assertion;
mod formula;
mod funspec;
mod locals;
mod term;

pub use assertion::{Assertion, Sep, SepList};
pub use formula::{Formula, FormulaList, share_formulas};
pub use funspec::{Funspec, Precondition};
pub use locals::Locals;
pub use term::Term;
