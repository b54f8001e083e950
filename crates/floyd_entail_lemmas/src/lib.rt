//! The commands that use a lemma: one that is proved, or the one whose proof by induction is going on.
#![tactic(auto)]

mod applying;
mod hypotheses;

pub use applying::do_apply;
pub use hypotheses::do_apply_ih;
