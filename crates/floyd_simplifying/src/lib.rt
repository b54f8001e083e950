//! Terms, formulas and assertions, simplified from their leaves up.
#![tactic(auto)]

mod assertions;
mod changes;
mod defaults;
mod formulas;
mod laws;
mod lists;
mod stepping;
mod sums;
mod terms;

pub use assertions::simplify_assertion;
pub use formulas::simplify_formula;
pub use laws::{simplifying_keeps, simplifying_keeps_value};
