ghost use Rattle.std.specs.Prelude.{◌≡◌};
ghost use Rattle.floyd_forward.specs.Forward.{Named};
ghost use Rattle.floyd_forward.specs.Leave.{Leaves, left_by as left_by_lem, no_exit as no_exit_lem};
ghost use Rattle.floyd_goal.specs.Answers.{IsAnswer};
ghost use Rattle.floyd_text.specs.Gives.{RuleGives};

use crate::running::Running;
use floyd_goal_runs::{Entail, Exit, Goal, GoalList, intros_first, one_goal};
use floyd_text::{Code, No, RuleStop, Shown};

/// The refusal of statements that may not be left so.
fn no_exit() -> No
    ensures { result ≡ no_exit_lem }
{
    No {
        code: Code::NoExit,
        shown: Shown::Nothing,
    }
}

/// The goal that the source gives the exit.
fn left_by(at: Running<'_>, exit: &Exit) -> Result<GoalList, RuleStop>
    ensures exact { RuleGives (λ gs. gs) result (left_by_lem at.entry.run.now exit.now) }
{
    match exit {
        Exit::To(target) => {
            let goal = Goal::Entail(Entail {
                context: at.run.context.after_command(at.alloc)?,
                source: at.run.source.share()?,
                target: target.share()?,
            });
            Ok(one_goal(at.alloc, goal)?)
        }
        Exit::None => Err(RuleStop::No(no_exit())),
        Exit::End => Err(RuleStop::No(no_exit())),
    }
}

/// Break or continue, which is left by that exit, once the existentials have names.
#[tactic(auto, using(crate::proofs::RowAnswers::as_answer))]
pub(crate) fn leaves(at: Running<'_>, exit: &Exit) -> Result<GoalList, RuleStop>
    ensures exact { IsAnswer (Named at.entry.run.now (Leaves at.entry.run.now exit.now)) result }
{
    if at.is_pending() {
        Err(RuleStop::No(intros_first()))
    } else {
        left_by(at, exit)
    }
}
