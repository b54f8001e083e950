//! Linked programs, what it means that one is sound, and when a goal of a proof holds. Definitions and laws, which no code
//! runs.
#![tactic(auto)]

mod laws;
mod linked;

pub use laws::{false_does_not_hold, premises_are_met, sight_is_given};
pub use linked::{
    ByList, ImportBy, Linked, LinkedFunction, LinkedFunctionList, LinkedVariable,
    LinkedVariableList, Module, ModuleList,
};
