//! What the readers of token lists share: phrases of a grammar, with what they read, how they begin and what they
//! refuse, in `specs/`; the law that a reader is exact, with one lemma for each way of building, in `proofs/`; and here
//! the answers of a reader that does not read.
#![tactic(auto)]

mod stop;

pub use stop::{Fault, Stop};
