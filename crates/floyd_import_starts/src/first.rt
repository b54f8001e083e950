ghost use Rattle.std.specs.Prelude.{◌≡◌, IfOk};
ghost use Rattle.floyd_goal_trees.specs.declared.context.Mark.TheVariants.{Plain};
ghost use Rattle.floyd_import_starts.specs.StartClauses.{first_by};

use crate::instances::{equations_of, plain_assertion};
use floyd_assert_instances::Instance;
use floyd_assert_trees::{Funspec, Sep, share_binders, share_formulas, share_parts};
use floyd_goal_trees::{Context, Entail, Mark};
use floyd_text::{Shared, Steps};
use floyd_tree::FormulaList;
use std::alloc::{AllocError, Global};
use std::sync::ledger::Ledger;

fn context_of(alloc: Global, import: &Funspec) -> Result<Context, AllocError>
    ensures { IfOk result (λ c. c ≡ record { variables = import.now.with; hypotheses = import.now.pre.props; mark = Plain }) }
{
    let variables = share_binders(alloc, import.with.as_slice())?;
    let hypotheses = share_formulas(alloc, import.pre.props.as_slice())?;
    Ok(Context {
        variables: Shared::new(alloc, variables)?,
        hypotheses: Shared::new(alloc, hypotheses)?,
        mark: Mark::Plain,
    })
}

/// That the precondition of the import gives that of the function, at these terms, and the parts beside it.
pub(crate) fn first_goal<L: Ledger>(
    alloc: Global,
    import: &Funspec,
    own: &Instance,
    frame: &[Sep],
    steps: &mut Steps<L>,
) -> Result<Entail, AllocError>
    ensures { IfOk result (λ g. g ≡ first_by import.now own.now frame.now) }
{
    let left = import.pre.params.as_slice();
    let mut props = equations_of(alloc, left, own.params.as_slice(), steps)?;
    props.append(share_formulas(alloc, own.pre.props.as_slice())?)?;
    let mut parts = share_parts(alloc, own.pre.parts.as_slice())?;
    parts.append(share_parts(alloc, frame)?)?;
    let held = share_parts(alloc, import.pre.parts.as_slice())?;
    let source = plain_assertion(alloc, FormulaList::new(alloc), held);
    let target = plain_assertion(alloc, props, parts);
    Ok(Entail {
        context: context_of(alloc, import)?,
        source: Shared::new(alloc, source)?,
        target: Shared::new(alloc, target)?,
    })
}
