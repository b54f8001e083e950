//! What assertions mean where other variables change, where local variables of a function lie elsewhere, and after terms are
//! put in place of variables. Only definitions and laws: there is nothing to run.
#![tactic(auto)]

mod laws;

pub use laws::{hold_in_changed, look_at_free, look_at_no_local};
