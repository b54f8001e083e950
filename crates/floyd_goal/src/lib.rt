//! The goals that are left of a proof, and the side formulas that a rule makes.
#![tactic(auto)]

mod goals;
mod side_goals;
mod stack;

pub use floyd_goal_formulas::{Said, both, drops, is_absurd, says, too_large};
pub use floyd_goal_trees::{
    Args, Context, Entail, Exit, Exits, Goal, GoalList, Mark, Pure, Rest, Return, Run, Target,
    goal_size,
};
pub use goals::{
    enriched, hypothesis_at, in_context, intros_first, is_pending, no_hypothesis, number_of,
    pure_goal, wrong_goal,
};
pub use side_goals::{Sides, context_of, side, side_in};
pub use stack::{GoalStack, MAX_GOALS};
