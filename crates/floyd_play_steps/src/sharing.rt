//! Goals that have another owner.
ghost use Rattle.std.specs.Prelude.{◌≡◌, IfOk};

use floyd_assert_trees::NameList;
use floyd_goal::{context_of, in_context};
use floyd_goal_trees::{Context, Goal, GoalList, Mark};
use floyd_text::Name;
use sqlite_items::Items;
use std::alloc::{AllocError, Global};

fn share_names(alloc: Global, names: &[Name]) -> Result<NameList, AllocError>
    ensures { IfOk result (λ all. all ≡ names.now) }
{
    let mut all = Vec::with_capacity(alloc, names.len())?;
    'names: for name in names {
        all.push(name.share()?)?;
    }
    Ok(Items::from_vec(all))
}

fn share_mark(alloc: Global, mark: &Mark) -> Result<Mark, AllocError>
    ensures { IfOk result (λ m. m ≡ mark.now) }
{
    match mark {
        Mark::Plain => Ok(Mark::Plain),
        Mark::Start(name) => Ok(Mark::Start(name.share()?)),
        Mark::Induction(name, place, names) => {
            let name = name.share()?;
            let names = share_names(alloc, names.as_slice())?;
            Ok(Mark::Induction(name, *place, names))
        }
    }
}

fn share_context(alloc: Global, context: &Context) -> Result<Context, AllocError>
    ensures { IfOk result (λ c. c ≡ context.now) }
{
    let variables = context.variables.share()?;
    let hypotheses = context.hypotheses.share()?;
    let mark = share_mark(alloc, &context.mark)?;
    Ok(Context {
        variables,
        hypotheses,
        mark,
    })
}

/// The same goal. Its formulas, terms and statements are not copied.
pub(crate) fn share_goal(alloc: Global, goal: &Goal) -> Result<Goal, AllocError>
    ensures { IfOk result (λ g. g ≡ goal.now) }
{
    let context = share_context(alloc, context_of(goal))?;
    in_context(goal, context)
}

/// The same goals, which have another owner.
pub fn share_goals(alloc: Global, goals: &[Goal]) -> Result<GoalList, AllocError>
    ensures { IfOk result (λ all. all ≡ goals.now) }
{
    let mut all = Vec::with_capacity(alloc, goals.len())?;
    'goals: for goal in goals {
        all.push(share_goal(alloc, goal)?)?;
    }
    Ok(Items::from_vec(all))
}
