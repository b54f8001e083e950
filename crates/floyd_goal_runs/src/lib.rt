//! What the rules on statements share: the goals that what is left to run meets its exits, and those of what an expression
//! needs.
#![tactic(auto)]

mod contexts;
mod needs;
mod runs;
mod saying;

pub use contexts::{share_context, with_hypotheses};
pub use floyd_goal_parts::{
    Args, Context, Entail, Exit, Exits, Goal, GoalList, Mark, Pure, Run, Sides, Target, after_side,
    context_of, enriched, equation, in_place, intros_first, one_goal, part_at, side_in, too_large,
    with_parts, written_formula, wrong_goal,
};
pub use floyd_goal_trees::{Rest, Return};
pub use needs::{needed, under_sides};
pub use runs::run_goal;
pub use saying::say;
