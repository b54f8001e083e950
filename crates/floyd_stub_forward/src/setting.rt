ghost use Rattle.std.specs.Prelude.{◌≡◌, [], ◌∷◌, drop, IfOk};
ghost use Rattle.floyd_stub_forward.specs.Forward.{forward_set as forward_set_lem};
ghost use Rattle.floyd_stub_goal.specs.Sides.{run_goal as run_goal_lem};

use crate::discarding::discard;
use floyd_stub_assert::Term;
use floyd_stub_goal::{Goal, GoalList, Run};
use floyd_text::Name;
use sqlite_items::Items;
use std::alloc::{AllocError, Global};

/// What is left runs with the temporary set.
pub fn forward_set(alloc: Global, run: Run, name: Name, term: Term) -> Result<GoalList, AllocError>
    ensures { IfOk result (λ goals. goals ≡ forward_set_lem run.context run.source run.exits (drop 1 run.rest) name term) }
{
    let goal = set_goal(run, name, term)?;
    let mut goals = Items::new(alloc);
    goals.push(goal)?;
    Ok(goals)
}

fn set_goal(mut run: Run, name: Name, term: Term) -> Result<Goal, AllocError>
    ensures { IfOk result (λ goal. goal ∷ [] ≡ forward_set_lem run.context run.source run.exits (drop 1 run.rest) name term) }
{
    match run.source.local.set(name, term) {
        Ok(()) => {
            run.rest.advance();
            Ok(run_goal(run))
        }
        Err(stop) => {
            discard(run);
            Err(stop)
        }
    }
}

/// The goal of what is left to run. Where nothing is left, the normal exit must hold.
fn run_goal(run: Run) -> Goal
    ensures { result ≡ run_goal_lem run.context run.source run.rest run.exits }
{
    if run.rest.is_empty() {
        Goal::Entail(run.into_normal())
    } else {
        Goal::Run(run)
    }
}
