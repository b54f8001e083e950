//! Predicates: what they stand for, and whether items are well formed.
#![tactic(auto)]

mod cases;
mod fun_calls;
mod judging;
mod pred_calls;
mod recursion;
mod refusals;

pub use cases::are_of;
pub use floyd_clauses::{clause, unfold};
pub use judging::well_formed;
pub use pred_calls::unhidden;
pub use recursion::parts_of;
pub use refusals::{is_before, not_structural};
