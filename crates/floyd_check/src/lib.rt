//! The verdict on a project.
#![tactic(auto)]

mod check;
mod files;
mod laws;
mod modules;
mod reading;

pub use check::{check_bytes, check_files};
pub use files::FileList;
pub use laws::{has_cut, has_verdict, one_verdict, refusals_have_files};
pub use modules::{first_place, modules_of};
