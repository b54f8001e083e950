ghost use Rattle.std.specs.Prelude.{◌≡◌, ◌∷◌, [], IfOk, Ok, Some};
ghost use Rattle.std.specs.Option.{unwrap_or};
ghost use Rattle.floyd_goal_trees.specs.Contexts.{after_command};
ghost use Rattle.floyd_goal_trees.specs.declared.goal.Goal.TheVariants.{Entail as EntailGoal};
ghost use Rattle.floyd_pure_rewriting.specs.Changing.{entail_by, no_occurrence as no_occurrence_lem, pure_by, run_by};
ghost use Rattle.floyd_text.specs.Gives.{RuleGives};

use floyd_assert_trees::Assertion;
use floyd_goal::{Entail, Goal, GoalList, Pure, Run};
use floyd_text::{Code, No, RuleStop, Shared, Shown};
use floyd_tree::Formula;
use std::alloc::{AllocError, Global};

/// The refusal where nothing changes: 725.
pub fn no_occurrence() -> No
    ensures { result ≡ no_occurrence_lem }
{
    No {
        code: Code::NoOccurrence,
        shown: Shown::Nothing,
    }
}

/// The goal, alone.
fn only(alloc: Global, goal: Goal) -> Result<GoalList, AllocError>
    ensures { IfOk result (λ gs. gs ≡ goal ∷ []) }
{
    let mut goals = GoalList::new(alloc);
    goals.push(goal)?;
    Ok(goals)
}

/// The goal of the same statements behind a command, from this source.
pub fn run_with(alloc: Global, run: &Run, source: Assertion) -> Result<GoalList, AllocError>
    ensures { IfOk result (λ gs. Ok gs ≡ run_by run.now (Ok (Some source))) }
{
    let context = run.context.after_command(alloc)?;
    let source = Shared::new(alloc, source)?;
    let rest = run.rest.share()?;
    let exits = run.exits.share()?;
    only(
        alloc,
        Goal::Run(Run {
            context,
            source,
            rest,
            exits,
        }),
    )
}

/// The new assertion, or the old one where there is none.
fn or_old(
    alloc: Global,
    new: Option<Assertion>,
    old: &Shared<Assertion>,
) -> Result<Shared<Assertion>, AllocError>
    ensures { IfOk result (λ a. a ≡ unwrap_or new old.now) }
{
    match new {
        Some(new) => Shared::new(alloc, new),
        None => old.share(),
    }
}

/// The goal behind a command that the second assertion follows from the first, alone.
fn entailed(
    alloc: Global,
    entail: &Entail,
    source: Shared<Assertion>,
    target: Shared<Assertion>,
) -> Result<GoalList, AllocError>
    ensures { IfOk result (λ gs. gs ≡ EntailGoal (record { context = after_command entail.now.context; source = source; target = target }) ∷ []) }
{
    let context = entail.context.after_command(alloc)?;
    only(
        alloc,
        Goal::Entail(Entail {
            context,
            source,
            target,
        }),
    )
}

/// The goal behind a command with these assertions in place of its own, or the refusal where there is none of them.
pub fn entail_with(
    alloc: Global,
    entail: &Entail,
    source: Option<Assertion>,
    target: Option<Assertion>,
) -> Result<GoalList, RuleStop>
    ensures exact { RuleGives (λ gs. gs) result (entail_by entail.now (Ok source) (Ok target)) }
{
    match source {
        Some(source) => {
            let source = Shared::new(alloc, source)?;
            let target = or_old(alloc, target, &entail.target)?;
            Ok(entailed(alloc, entail, source, target)?)
        }
        None => match target {
            Some(target) => {
                let source = entail.source.share()?;
                let target = Shared::new(alloc, target)?;
                Ok(entailed(alloc, entail, source, target)?)
            }
            None => Err(RuleStop::No(no_occurrence())),
        },
    }
}

/// The goal of that target behind a command.
pub fn pure_with(alloc: Global, pure: &Pure, target: Formula) -> Result<GoalList, AllocError>
    ensures { IfOk result (λ gs. Ok gs ≡ pure_by pure.now (Ok (Some target))) }
{
    let context = pure.context.after_command(alloc)?;
    only(alloc, Goal::Pure(Pure { context, target }))
}
