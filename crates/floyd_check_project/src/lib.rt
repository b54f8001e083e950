//! The project file: the modules of a project, each with its three files.
#![tactic(auto)]

mod draft;
mod line;
mod module;
mod reading;

pub use module::{FileName, Module, ModuleList};
pub use reading::read_project;
