//! Goals of a proof: their start, the stack of those that are left, and the side formulas that a row makes.
#![tactic(auto)]

mod goal;
mod rest;
mod script;
mod side;
mod stack;
mod starting;

pub use goal::{Context, Entail, Exits, Goal, GoalList, Pure, Return, Run};
pub use rest::Rest;
pub use script::{Command, CommandList, Proof};
pub use side::{is_typed, side_goals, wrong_goal};
pub use stack::{GoalStack, Numbered};
pub use starting::start_goal;
