//! What a place of a written term wants, and the terms that are made there or refused.
#![tactic(auto)]

mod making;
mod stop;
mod wants;

pub use making::{ill_sorted, place_term, take_term, too_large, unknown};
pub use stop::JudgeStop;
pub use wants::{Known, Wanted, list_wanted, width_of};
