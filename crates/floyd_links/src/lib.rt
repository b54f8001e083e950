//! What a linked program is: the definition `Links`, the precondition of main written out, and the goals with which the
//! proof of an import with a specification of its own starts. Only definitions and laws: there is nothing to run.
#![tactic(auto)]

mod laws;

pub use laws::{a_program_links, links_are_bare, links_have};
