ghost use Rattle.std.specs.Prelude.{◌≡◌, ◌++◌, IfOk, OnOk};
ghost use Rattle.std.specs.Option.{option_copied};
ghost use Rattle.floyd_symexpr_paths.specs.Locating.{is_first as is_first_lem, with_first as with_first_lem, without_first as without_first_lem};

use crate::lvalue::{Taken, TakenList};
use floyd_fieldpath::{literal, literal_in};
use floyd_text::Steps;
use floyd_tree::{AType, PathStep};
use std::alloc::{AllocError, Global};
use std::sync::ledger::Ledger;

fn share_type(alloc: Global, ty: &Option<AType>) -> Result<Option<AType>, AllocError>
    ensures { IfOk result (λ t. t ≡ ty.now) }
{
    match ty {
        Some(t) => Ok(Some(t.share(alloc)?)),
        None => Ok(None),
    }
}

/// The same step, whose parts are not copied.
fn share_taken(alloc: Global, taken: &Taken) -> Result<Taken, AllocError>
    ensures { IfOk result (λ t. t ≡ taken.now) }
{
    let step = taken.step.share()?;
    let ty = share_type(alloc, &taken.ty)?;
    Ok(Taken { step, ty })
}

/// Puts the same steps behind others.
fn put_steps(alloc: Global, form: &[Taken], all: &mut TakenList) -> Result<(), AllocError>
    ensures { OnOk result (all.new ≡ all.old ++ form.now) }
{
    'steps: for taken in form {
        all.push(share_taken(alloc, taken)?)?;
    }
    Ok(())
}

/// The same form, whose steps are not copied.
pub(crate) fn share_form(alloc: Global, form: &[Taken]) -> Result<TakenList, AllocError>
    ensures { IfOk result (λ all. all ≡ form.now) }
{
    let mut all = TakenList::new(alloc);
    put_steps(alloc, form, &mut all)?;
    Ok(all)
}

/// The form with a leading `[0]` added.
pub(crate) fn with_first<L: Ledger>(
    alloc: Global,
    form: &[Taken],
    steps: &mut Steps<L>,
) -> Result<TakenList, AllocError>
    ensures { IfOk result (λ all. all ≡ with_first_lem form.now) }
{
    let mut all = TakenList::new(alloc);
    let step = PathStep::Subscript(literal(alloc, 0, steps)?);
    all.push(Taken { step, ty: None })?;
    put_steps(alloc, form, &mut all)?;
    Ok(all)
}

fn is_first(step: &PathStep) -> bool
    ensures { result ≡ is_first_lem step.now }
{
    match step {
        PathStep::Subscript(i) => match literal_in(i) {
            Some(z) => z == 0,
            None => false,
        },
        PathStep::Field(_) => false,
    }
}

/// The form without a leading `[0]`, if it has one.
pub(crate) fn without_first(form: &[Taken]) -> Option<&[Taken]>
    ensures { option_copied result ≡ without_first_lem form.now }
{
    match form {
        [] => None,
        [taken, rest @ ..] => if is_first(&taken.step) {
            Some(rest)
        } else {
            None
        },
    }
}
