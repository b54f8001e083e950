//! What is shown of a play.
ghost use Rattle.std.specs.Prelude.{◌≡◌, IfOk};
ghost use Rattle.floyd_play_steps.specs.Plays.{shot_of as shot_of_lem};

use crate::sharing::share_goal;
use crate::state::PlayState;
use floyd_goal_trees::Goal;
use std::alloc::{AllocError, Global};

/// The first goal, its number and how many are left. Where none is left, both numbers are 0.
pub struct Shot {
    pub goal: Option<Goal>,
    pub number: u32,
    pub left: u32,
}

impl Drop for Shot {
    fn drop(self) {
        let Shot {
            goal,
            number: _,
            left: _,
        } = self;
        drop(goal);
    }
}

/// What is shown of the state.
pub(crate) fn shot_of(alloc: Global, state: &PlayState) -> Result<Shot, AllocError>
    ensures { IfOk result (λ shot. shot ≡ shot_of_lem state.now.numbers state.now.stack) }
{
    match state.stack.first() {
        None => Ok(Shot {
            goal: None,
            number: 0,
            left: 0,
        }),
        Some(goal) => {
            let goal = share_goal(alloc, goal)?;
            Ok(Shot {
                goal: Some(goal),
                number: state.numbers.first(),
                left: state.stack.left(),
            })
        }
    }
}
