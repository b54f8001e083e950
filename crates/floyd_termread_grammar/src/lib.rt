//! Terms, formulas, types and paths of specifications and scripts read into the trees of what is written.
#![tactic(auto)]

mod build_terms;
mod laws;
mod read_prefixes;
mod read_terms;
mod reading;
mod take_terms;
mod values;

pub use laws::has_one_reading;
pub use read_terms::read_nested;
pub use reading::{read_written, refusal_before, refused_number};
pub use values::{Operand, Passage};
