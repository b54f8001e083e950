//! The rules of branches and loops.
#![tactic(auto)]

mod branching;
mod choosing;
mod exits;
mod labels;
mod looping;
mod parts;
mod running;
mod switching;
mod tests;
mod turning;

pub use branching::do_forward_if;
pub use looping::do_forward_loop;
pub use switching::do_forward_switch;
pub use turning::do_forward_while;
