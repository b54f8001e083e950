//! What the rules on a goal's memory share: the parts of its source by their numbers, the goal with other parts in their
//! place, and the formulas that a rule writes.
#![tactic(auto)]

mod placing;
mod sources;
mod writing;

pub use floyd_goal::{
    Args, Context, Entail, Exit, Exits, Goal, GoalList, Mark, Pure, Run, Sides, Target, context_of,
    enriched, hypothesis_at, in_context, intros_first, no_hypothesis, side_in, too_large,
    wrong_goal,
};
pub use placing::{Plan, after_side, one_from, one_goal, put_in_place, put_under};
pub use sources::{from_source, in_place, part_at, part_number, part_of, source_of, with_parts};
pub use writing::{at_most, equation, is_pointer, written_formula};
