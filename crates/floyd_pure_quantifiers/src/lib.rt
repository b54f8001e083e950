//! The commands on quantified formulas, conjunctions and constructors: the goals that each makes, and that a goal is true
//! where these are.
#![tactic(auto)]

mod equations;
mod exists;
mod inject;
mod instances;
mod intro;
mod specialize;
mod split;

pub use exists::{do_exists, exists_holds};
pub use inject::{do_inject, inject_adds, inject_holds};
pub use intro::{do_intro, intro_holds};
pub use specialize::{do_specialize, specialize_adds, specialize_holds};
pub use split::{do_split, split_holds};
