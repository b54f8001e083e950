//! What is in sight at a place of a specification file: the items before it, and those of imported modules.
#![tactic(auto)]

mod bare;
mod importing;
mod modules;
mod putting;
mod sharing;
mod state;

pub use bare::Origin;
pub use importing::import_module;
pub use modules::{is_taken, module_of};
pub use putting::{put_fun, put_lemma, put_pred, put_spec, show_fun, show_pred, show_spec};
pub use sharing::{share_fun, share_lemma, share_pred};
pub use state::State;
