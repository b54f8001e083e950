//! The rule that closes an entailment whose target's parts are those of its source.
#![tactic(auto)]

mod closing;
mod locals;
mod parts;

pub use closing::do_cancel;
