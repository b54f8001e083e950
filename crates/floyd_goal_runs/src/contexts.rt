ghost use Rattle.std.specs.Prelude.{◌≡◌, IfOk};
ghost use Rattle.floyd_goal_trees.specs.Contexts.{with_hypotheses as with_hypotheses_lem};

use floyd_assert::share_formulas;
use floyd_goal_parts::{Context, Mark};
use floyd_text::Shared;
use floyd_tree::FormulaList;
use std::alloc::{AllocError, Global};

fn share_mark(alloc: Global, mark: &Mark) -> Result<Mark, AllocError>
    ensures { IfOk result (λ m. m ≡ mark.now) }
{
    match mark {
        Mark::Plain => Ok(Mark::Plain),
        Mark::Start(name) => Ok(Mark::Start(name.share()?)),
        Mark::Induction(_, _, _) => mark.after_command(alloc),
    }
}

/// The same context, whose parts are not copied.
pub fn share_context(alloc: Global, context: &Context) -> Result<Context, AllocError>
    ensures { IfOk result (λ c. c ≡ context.now) }
{
    let variables = context.variables.share()?;
    let hypotheses = context.hypotheses.share()?;
    let mark = share_mark(alloc, &context.mark)?;
    Ok(Context {
        variables,
        hypotheses,
        mark,
    })
}

/// The context with these hypotheses behind the others.
pub fn with_hypotheses(
    alloc: Global,
    context: &Context,
    more: FormulaList,
) -> Result<Context, AllocError>
    ensures { IfOk result (λ c. c ≡ with_hypotheses_lem context.now more) }
{
    let mut all = share_formulas(alloc, context.hypotheses.get().as_slice())?;
    all.append(more)?;
    let variables = context.variables.share()?;
    let mark = share_mark(alloc, &context.mark)?;
    Ok(Context {
        variables,
        hypotheses: Shared::new(alloc, all)?,
        mark,
    })
}
