//! The row of `forward`.
#![tactic(auto)]

mod discarding;
mod evaluation;
mod forward;
mod returning;
mod setting;
mod turn;

pub use forward::do_forward;
