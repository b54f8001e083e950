//! The row of `cancel`.
#![tactic(auto)]

mod cancel;

pub use cancel::do_cancel;
