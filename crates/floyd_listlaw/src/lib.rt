//! The laws of lists, sums and comparisons that a proof may cite.
#![tactic(auto)]

mod fitting;
mod heads;
mod instance;
mod list_law;
mod making;
mod postfix;
mod truth;

pub use heads::{LawForm, LawHead};
pub use instance::{Law, law_instance};
pub use list_law::ListLaw;
pub use truth::laws_hold;
