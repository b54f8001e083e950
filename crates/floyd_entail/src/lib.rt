//! The rules of entailments: what becomes of a part of a goal's source.
#![tactic(auto)]

mod exists;
mod facts;
mod intros;
mod reroot;
mod valid;
mod weaken;

pub use exists::do_exists;
pub use facts::do_facts;
pub use floyd_entail_cancel::do_cancel;
pub use intros::do_intros;
pub use reroot::do_reroot;
pub use valid::do_valid;
pub use weaken::do_weaken;
