//! What may stand where in terms, formulas, types and paths: which operator follows what, what an operand begins with,
//! and what stands in a bracket.
#![tactic(auto)]

mod infixes;
mod starts;
mod values;
mod wants;

pub use infixes::{goes_on, is_infix, kind_behind, kind_of, link_start, want_behind};
pub use starts::{prefix_of, start_of};
pub use values::{Class, End, Form, Kind, LinkStart, PrefixStart, Start, Want};
