//! Sources of C turned into Clight.
#![tactic(auto)]

mod bodies;
mod declarations;
mod file;
mod functions;
mod headings;
mod parameters;
mod scope;
mod sites;
mod source;
mod tables;
mod typedefs;
mod units;
mod variables;

pub use source::elaborate;
