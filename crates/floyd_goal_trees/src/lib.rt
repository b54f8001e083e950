//! Goals of a proof and arguments of commands as trees whose parts are shared, and the sizes of goals.
#![tactic(auto)]

mod args;
mod context;
mod exits;
mod goal;
mod rest;
mod sizes;

pub use args::{Args, Target};
pub use context::{Context, Mark};
pub use exits::{Exit, Exits, Return};
pub use goal::{Entail, Goal, GoalList, Pure, Run};
pub use rest::Rest;
pub use sizes::goal_size;
