//! The command that proves a lemma by induction over a list or a tree.
#![tactic(auto)]

mod induction;

pub use induction::do_induction;
