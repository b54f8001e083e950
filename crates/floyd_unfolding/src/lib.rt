//! Calls of functions of the specification files, replaced by what they mean: in terms, formulas and assertions.
#![tactic(auto)]

mod assertions;
mod calls;
mod changes;
mod formulas;
mod terms;

pub use assertions::unfold_assertion;
pub use calls::meaning;
pub use formulas::unfold_formula;
