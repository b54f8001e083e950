//! What specification files stand for: the specification of a module, and those of the modules before it.
#![tactic(auto)]

mod declarations;
mod modules;

pub use declarations::{
    By, Declaration, DeclarationKind, DeclarationList, Lock, LockList, SpecItems,
};
pub use modules::{ModuleDefs, ModuleSpec, ProjectDefs};
