ghost use Rattle.std.specs.Prelude.{◌≡◌, ◌++◌, IfOk};
ghost use Rattle.floyd_entail_predicates.specs.Settling.{settled as settled_lem, without_props as without_props_lem};
ghost use Rattle.floyd_goal.specs.Goals.{enriched as enriched_lem};
ghost use Rattle.floyd_goal.specs.Sides.{context_of as context_of_lem};
ghost use Rattle.floyd_goal_parts.specs.Sources.{from_source as from_source_lem};

use floyd_assert::{Assertion, share_binders, share_formulas, share_locals, share_parts};
use floyd_goal_parts::{Goal, context_of, enriched, from_source};
use floyd_text::Shared;
use floyd_tree::FormulaList;
use std::alloc::{AllocError, Global};

fn without_props(alloc: Global, source: &Assertion) -> Result<Assertion, AllocError>
    ensures { IfOk result (λ a. a ≡ without_props_lem source.now) }
{
    let existentials = share_binders(alloc, source.existentials.as_slice())?;
    let locals = share_locals(alloc, source.locals.as_slice())?;
    let parts = share_parts(alloc, source.parts.as_slice())?;
    Ok(Assertion {
        existentials,
        props: FormulaList::new(alloc),
        locals,
        parts,
    })
}

/// The goal from a source whose PROP is among the hypotheses.
fn named(
    alloc: Global,
    goal: &Goal,
    kept: FormulaList,
    source: &Assertion,
) -> Result<Goal, AllocError>
    ensures { IfOk result (λ g. g ≡ from_source_lem goal.now (enriched_lem (context_of_lem goal.now) (kept ++ source.now.props)) (without_props_lem source.now)) }
{
    let mut more = kept;
    more.append(share_formulas(alloc, source.props.as_slice())?)?;
    let context = enriched(alloc, context_of(goal), more)?;
    let source = without_props(alloc, source)?;
    from_source(goal, context, Shared::new(alloc, source)?)
}

/// The goal from a source that a command has written, with hypotheses more. Where the source has no existentials, its PROP
/// is among the hypotheses at once.
pub fn settled(
    alloc: Global,
    goal: &Goal,
    kept: FormulaList,
    source: Assertion,
) -> Result<Goal, AllocError>
    ensures { IfOk result (λ g. g ≡ settled_lem goal.now kept source) }
{
    if source.existentials.is_empty() {
        return named(alloc, goal, kept, &source);
    }
    let context = enriched(alloc, context_of(goal), kept)?;
    from_source(goal, context, Shared::new(alloc, source)?)
}
