ghost use Rattle.std.specs.Prelude.{◌≡◌, IfOk};
ghost use Rattle.floyd_goal_forms.specs.Starts.{run_goal as run_goal_lem};

use floyd_assert::Assertion;
use floyd_goal_parts::{Context, Entail, Exit, Exits, Goal, Run};
use floyd_goal_trees::Rest;
use floyd_text::Shared;
use std::alloc::AllocError;

/// The goal of what is left to run. Where no statement is left it is that the normal exit is met, but the function's end
/// stays as it is.
#[tactic(auto, using(crate::proofs::RunLemmas::ended, crate::proofs::RunLemmas::goes_on, crate::proofs::RunLemmas::left_open, crate::proofs::RunLemmas::at_end))]
pub fn run_goal(
    context: Context,
    source: Shared<Assertion>,
    rest: Rest,
    exits: Shared<Exits>,
) -> Result<Goal, AllocError>
    ensures { IfOk result (λ g. g ≡ run_goal_lem (record { context = context; source = source; rest = rest; exits = exits })) }
{
    if !rest.is_empty() {
        return Ok(Goal::Run(Run {
            context,
            source,
            rest,
            exits,
        }));
    }
    match &exits.get().normal {
        Exit::To(target) => {
            let target = target.share()?;
            Ok(Goal::Entail(Entail {
                context,
                source,
                target,
            }))
        }
        Exit::None => Ok(Goal::Run(Run {
            context,
            source,
            rest,
            exits,
        })),
        Exit::End => Ok(Goal::Run(Run {
            context,
            source,
            rest,
            exits,
        })),
    }
}
