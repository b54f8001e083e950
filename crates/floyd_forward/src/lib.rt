//! The rule that does the next statement: a set, an assignment, a return, break and continue, and the end of a function.
#![tactic(auto)]

mod assigning;
mod blocks;
mod forward;
mod leaving;
mod locals;
mod objects;
mod posts;
mod reading;
mod returning;
mod running;
mod setting;
mod types;

pub use forward::do_forward;
