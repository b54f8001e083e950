//! FUNs, PREDs, lemmas and locks, read from the tokens behind their names.
#![tactic(auto)]

mod bodies;
mod functions;
mod heads;
mod lemmas;
mod predicates;
mod variables;

pub use bodies::plain_body_at;
pub use functions::fun_body_at;
pub use heads::{FunHead, fun_head_at, pred_head_at};
pub use lemmas::{LemmaText, lemma_at};
pub use predicates::pred_body_at;
