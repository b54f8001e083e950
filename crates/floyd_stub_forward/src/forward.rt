ghost use Rattle.floyd_text.specs.Gives.{RuleGives};
ghost use Rattle.floyd_stub_forward.specs.Forward.{forward_row, forward as forward_lem};

use crate::discarding::discard;
use crate::turn::turn_of;
use floyd_stub_goal::{Goal, GoalList, Run, wrong_goal};
use floyd_text::RuleStop;
use std::alloc::Global;

/// The next statement runs: a set or a return. No other is built yet.
pub fn do_forward(alloc: Global, goal: Goal) -> Result<GoalList, RuleStop>
    ensures { RuleGives (λ goals. goals) result (forward_row goal) }
{
    match goal.into_run() {
        Some(run) => forward(alloc, run),
        None => Err(RuleStop::No(wrong_goal())),
    }
}

fn forward(alloc: Global, run: Run) -> Result<GoalList, RuleStop>
    ensures { RuleGives (λ goals. goals) result (forward_lem run.context run.source run.exits run.rest) }
{
    match turn_of(alloc, &run) {
        Ok(turn) => turn.goals(alloc, run),
        Err(stop) => {
            discard(run);
            Err(stop)
        }
    }
}
