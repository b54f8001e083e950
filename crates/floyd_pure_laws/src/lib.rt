//! The commands that use what is known of numbers and lists: a goal that is closed by a certificate, and a law that is used.
#![tactic(auto)]

mod law;
mod lia;

pub use law::{do_law, law_adds, law_holds};
pub use lia::{do_lia, lia_holds};
