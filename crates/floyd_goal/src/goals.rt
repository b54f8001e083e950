ghost use Rattle.std.specs.Prelude.{◌≡◌, ◌++◌, IfOk};
ghost use Rattle.std.specs.Option.{option_copied};
ghost use Rattle.floyd_goal.specs.Goals.{enriched as enriched_lem, hypothesis_at as hypothesis_at_lem, in_context as in_context_lem, intros_first as intros_first_lem, is_pending as is_pending_lem, no_hypothesis as no_hypothesis_lem, number_of as number_of_lem, pure_goal as pure_goal_lem, some_left, wrong_goal as wrong_goal_lem};

use floyd_assert_trees::{Binder, share_formulas};
use floyd_goal_trees::{Context, Entail, Goal, Pure, Run, Target};
use floyd_text::{Code, No, Shared, Shown};
use floyd_tree::{Formula, FormulaList};
use std::alloc::{AllocError, Global};

/// The refusal of a goal, or of a target, of another kind.
pub fn wrong_goal() -> No
    ensures { result ≡ wrong_goal_lem }
{
    No {
        code: Code::WrongGoal,
        shown: Shown::Nothing,
    }
}

/// The refusal of a goal whose source has existentials that have no names yet.
pub fn intros_first() -> No
    ensures { result ≡ intros_first_lem }
{
    No {
        code: Code::IntrosFirst,
        shown: Shown::Nothing,
    }
}

/// The refusal of a hypothesis that is absent or of another form.
pub fn no_hypothesis(number: u32) -> No
    ensures { result ≡ no_hypothesis_lem number }
{
    No {
        code: Code::NoHypothesis,
        shown: Shown::Hypothesis(number),
    }
}

fn some_left(binders: &[Binder]) -> bool
    ensures { result ≡ some_left binders.now }
{
    !binders.is_empty()
}

/// Whether the source has existentials.
pub fn is_pending(goal: &Goal) -> bool
    ensures { result ≡ is_pending_lem goal.now }
{
    match goal {
        Goal::Run(run) => some_left(run.source.get().existentials.as_slice()),
        Goal::Entail(entail) => some_left(entail.source.get().existentials.as_slice()),
        Goal::Pure(_) => false,
    }
}

/// The number of the hypothesis that a command is tried on; 0 is none.
pub fn number_of(target: Target) -> u32
    ensures { result ≡ number_of_lem target }
{
    match target {
        Target::Nothing => 0,
        Target::Part(_) => 0,
        Target::Hypothesis(number) => number,
    }
}

/// The hypothesis of that number, from 1.
pub fn hypothesis_at(context: &Context, number: u32) -> Option<&Formula>
    ensures { option_copied result ≡ hypothesis_at_lem context.now.hypotheses number }
{
    if number == 0 {
        return None;
    }
    context.hypotheses.get().get(number as usize - 1)
}

/// The goal in that context. What it has besides is shared.
pub fn in_context(goal: &Goal, context: Context) -> Result<Goal, AllocError>
    ensures { IfOk result (λ g. g ≡ in_context_lem goal.now context) }
{
    match goal {
        Goal::Run(run) => {
            let source = run.source.share()?;
            let rest = run.rest.share()?;
            let exits = run.exits.share()?;
            Ok(Goal::Run(Run {
                context,
                source,
                rest,
                exits,
            }))
        }
        Goal::Entail(entail) => {
            let source = entail.source.share()?;
            let target = entail.target.share()?;
            Ok(Goal::Entail(Entail {
                context,
                source,
                target,
            }))
        }
        Goal::Pure(pure) => {
            let target = pure.target.share()?;
            Ok(Goal::Pure(Pure { context, target }))
        }
    }
}

/// The context behind a command, with these hypotheses more.
pub fn enriched(alloc: Global, context: &Context, more: FormulaList) -> Result<Context, AllocError>
    ensures { IfOk result (λ c. c ≡ enriched_lem context.now more) }
{
    let mut all = share_formulas(alloc, context.hypotheses.get().as_slice())?;
    all.append(more)?;
    let variables = context.variables.share()?;
    let hypotheses = Shared::new(alloc, all)?;
    let mark = context.mark.after_command(alloc)?;
    Ok(Context {
        variables,
        hypotheses,
        mark,
    })
}

/// The goal that the formula is true, behind a command.
pub fn pure_goal(alloc: Global, context: &Context, target: Formula) -> Result<Goal, AllocError>
    ensures { IfOk result (λ g. g ≡ pure_goal_lem context.now target) }
{
    let context = context.after_command(alloc)?;
    Ok(Goal::Pure(Pure { context, target }))
}
