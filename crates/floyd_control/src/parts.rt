ghost use Rattle.std.specs.Prelude.{◌≡◌, [], IfOk};
ghost use Rattle.floyd_clight.specs.Flat.{flat as flat_lem};
ghost use Rattle.floyd_control.specs.Parts.{context_from as context_from_lem, part_goal as part_goal_lem, runs_from as runs_from_lem, source_from as source_from_lem};
ghost use Rattle.floyd_goal.specs.Goals.{some_left};

use floyd_assert::{Assertion, share_binders, share_formulas, share_locals, share_parts};
use floyd_clight::{Stmt, flat};
use floyd_goal_runs::{Context, Exits, Goal, Rest, run_goal, share_context, with_hypotheses};
use floyd_text::Shared;
use floyd_tree::{Formula, FormulaList};
use std::alloc::{AllocError, Global};

/// The statements of a statement.
pub(crate) fn all_of(alloc: Global, s: &Stmt) -> Result<Rest, AllocError>
    ensures { IfOk result (λ r. r ≡ flat_lem s.now) }
{
    let all = flat(alloc, s)?;
    Ok(Rest::new(Shared::new(alloc, all)?))
}

/// The statements run from the source, under one hypothesis more.
pub(crate) fn part_goal(
    alloc: Global,
    context: &Context,
    source: &Shared<Assertion>,
    exits: &Shared<Exits>,
    f: &Formula,
    rest: Rest,
) -> Result<Goal, AllocError>
    ensures { IfOk result (λ g. g ≡ part_goal_lem context.now source.now exits.now f.now rest) }
{
    let mut more = FormulaList::new(alloc);
    more.push(f.share()?)?;
    let context = with_hypotheses(alloc, context, more)?;
    let source = source.share()?;
    let exits = exits.share()?;
    run_goal(context, source, rest, exits)
}

fn context_from(
    alloc: Global,
    pending: bool,
    context: &Context,
    a: &Assertion,
) -> Result<Context, AllocError>
    ensures { IfOk result (λ c. c ≡ context_from_lem pending context.now a.now) }
{
    if pending {
        share_context(alloc, context)
    } else {
        with_hypotheses(alloc, context, share_formulas(alloc, a.props.as_slice())?)
    }
}

/// The assertion without its PROP.
fn without_props(alloc: Global, a: &Assertion) -> Result<Assertion, AllocError>
    ensures { IfOk result (λ b. b ≡ record a.now { props = [] }) }
{
    let existentials = share_binders(alloc, a.existentials.as_slice())?;
    let props = FormulaList::new(alloc);
    let locals = share_locals(alloc, a.locals.as_slice())?;
    let parts = share_parts(alloc, a.parts.as_slice())?;
    Ok(Assertion {
        existentials,
        props,
        locals,
        parts,
    })
}

fn source_from(alloc: Global, pending: bool, a: &Assertion) -> Result<Assertion, AllocError>
    ensures { IfOk result (λ b. b ≡ source_from_lem pending a.now) }
{
    if pending {
        a.share(alloc)
    } else {
        without_props(alloc, a)
    }
}

fn has_existentials(a: &Assertion) -> bool
    ensures { result ≡ some_left a.now.existentials }
{
    !a.existentials.as_slice().is_empty()
}

/// The statements run from the assertion, whose PROP are hypotheses where it has no existentials.
pub(crate) fn runs_from(
    alloc: Global,
    context: &Context,
    a: &Assertion,
    rest: Rest,
    exits: Shared<Exits>,
) -> Result<Goal, AllocError>
    ensures { IfOk result (λ g. g ≡ runs_from_lem context.now a.now rest exits) }
{
    let pending = has_existentials(a);
    let context = context_from(alloc, pending, context, a)?;
    let source = Shared::new(alloc, source_from(alloc, pending, a)?)?;
    run_goal(context, source, rest, exits)
}
