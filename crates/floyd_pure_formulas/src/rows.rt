ghost use Rattle.std.specs.Prelude.{◌≡◌, ◌∷◌, [], IfOk, Ok};
ghost use Rattle.std.specs.Option.{option_copied};
ghost use Rattle.floyd_goal.specs.Answers.{IsAnswer};
ghost use Rattle.floyd_goal.specs.Goals.{pure_goal as pure_goal_lem};
ghost use Rattle.floyd_pure_formulas.specs.Rows.{Concludes, concluded as concluded_lem, extended as extended_lem, named_by as named_by_lem, no_such as no_such_lem, with_more as with_more_lem};

use floyd_assert_trees::{BinderList, share_binders};
use floyd_goal::{
    Args, Context, Goal, GoalList, Sides, context_of, enriched, hypothesis_at, in_context,
    no_hypothesis, number_of, pure_goal, side_in,
};
use floyd_text::{No, RuleStop, Shared, Steps};
use floyd_tree::{Formula, FormulaList};
use std::alloc::{AllocError, Global};
use std::sync::ledger::Ledger;

/// The refusal where the hypothesis that a command names is absent, or of another form.
pub fn no_such(args: &Args) -> No
    ensures { result ≡ no_such_lem args.now }
{
    no_hypothesis(number_of(args.target))
}

/// The hypothesis that a command names.
pub fn named_by<'a>(goal: &'a Goal, args: &Args) -> Option<&'a Formula>
    ensures { option_copied result ≡ named_by_lem goal.now args.now }
{
    hypothesis_at(context_of(goal), number_of(args.target))
}

/// The goal with these hypotheses more.
pub fn with_more(alloc: Global, goal: &Goal, more: FormulaList) -> Result<Goal, AllocError>
    ensures { IfOk result (λ g. g ≡ with_more_lem goal.now more) }
{
    in_context(goal, enriched(alloc, context_of(goal), more)?)
}

/// The same goal, alone.
pub fn with_these(alloc: Global, goal: &Goal, more: FormulaList) -> Result<GoalList, AllocError>
    ensures { IfOk result (λ gs. gs ≡ with_more_lem goal.now more ∷ []) }
{
    let mut goals = GoalList::new(alloc);
    goals.push(with_more(alloc, goal, more)?)?;
    Ok(goals)
}

/// The goal of premises, and behind it the goal with those that are kept and the conclusion as hypotheses.
fn concluded(
    alloc: Global,
    goal: &Goal,
    conclusion: &Formula,
    sides: Sides,
) -> Result<GoalList, AllocError>
    ensures { IfOk result (λ gs. concluded_lem goal.now conclusion.now (Ok sides) ≡ Ok gs) }
{
    let (kept, side) = sides.into_parts();
    let mut more = kept;
    more.push(conclusion.share()?)?;
    let mut goals = GoalList::new(alloc);
    if let Some(pure) = side {
        goals.push(Goal::Pure(pure))?;
    }
    goals.push(with_more(alloc, goal, more)?)?;
    Ok(goals)
}

/// The goals of a command that uses what follows from these premises.
pub fn concluding<L: Ledger>(
    alloc: Global,
    goal: &Goal,
    premises: &[Formula],
    conclusion: &Formula,
    steps: &mut Steps<L>,
) -> Result<GoalList, RuleStop>
    ensures exact { IsAnswer (Concludes goal.now premises.now conclusion.now) result }
{
    match side_in(alloc, context_of(goal), premises, steps) {
        Err(stop) => Err(stop),
        Ok(sides) => Ok(concluded(alloc, goal, conclusion, sides)?),
    }
}

/// The goal that the formula is true, behind a command, alone.
pub fn alone(alloc: Global, context: &Context, target: &Formula) -> Result<GoalList, AllocError>
    ensures { IfOk result (λ gs. gs ≡ pure_goal_lem context.now target.now ∷ []) }
{
    let mut goals = GoalList::new(alloc);
    goals.push(pure_goal(alloc, context, target.share()?)?)?;
    Ok(goals)
}

/// The context behind a command, with these variables more.
pub fn extended(alloc: Global, context: &Context, more: BinderList) -> Result<Context, AllocError>
    ensures { IfOk result (λ c. c ≡ extended_lem context.now more) }
{
    let mut all = share_binders(alloc, context.variables.get().as_slice())?;
    all.append(more)?;
    let variables = Shared::new(alloc, all)?;
    let hypotheses = context.hypotheses.share()?;
    let mark = context.mark.after_command(alloc)?;
    Ok(Context {
        variables,
        hypotheses,
        mark,
    })
}
