ghost use Rattle.std.specs.Prelude.{◌≡◌, ◌++◌, [], IfOk};
ghost use Rattle.std.specs.Option.{option_copied};
ghost use Rattle.floyd_assert_changes.specs.Apart.{apart};
ghost use Rattle.floyd_assert_changes.specs.Changed.{has_name};
ghost use Rattle.floyd_assert_instances.specs.Specifications.{given as given_lem};
ghost use Rattle.floyd_goal_trees.specs.declared.context.Mark.TheVariants.{Plain};
ghost use Rattle.floyd_links.specs.Imports.{import_post as import_post_lem, value_equation as value_equation_lem, value_in as value_in_lem};
ghost use Rattle.floyd_import_starts.specs.StartClauses.{own_post as own_post_lem, second_by as second_by_lem, second_of, whole_post as whole_post_lem};

use crate::instances::{equation, plain_assertion, returned};
use floyd_assert_changes::{rename_apart, rename_apart_from};
use floyd_assert_instances::Instance;
use floyd_assert_trees::{
    Assertion, Binder, Funspec, Local, LocalList, Postcondition, Sep, share_binders,
    share_formulas, share_parts,
};
use floyd_goal_trees::{Context, Entail, Mark};
use floyd_text::{Shared, Steps};
use floyd_tree::{FormulaList, Term};
use std::alloc::{AllocError, Global};
use std::sync::ledger::Ledger;

/// The own postcondition with the term of RETURN below its existentials.
fn whole_post(alloc: Global, own: &Instance) -> Result<Assertion, AllocError>
    ensures { IfOk result (λ a. a ≡ whole_post_lem own.now) }
{
    let existentials = share_binders(alloc, own.post.existentials.as_slice())?;
    let props = share_formulas(alloc, own.post.props.as_slice())?;
    let locals = returned(alloc, &own.value)?;
    let parts = share_parts(alloc, own.post.parts.as_slice())?;
    Ok(Assertion {
        existentials,
        props,
        locals,
        parts,
    })
}

fn given(alloc: Global, post: &Postcondition) -> Result<Assertion, AllocError>
    ensures { IfOk result (λ a. a ≡ given_lem post.now) }
{
    let existentials = share_binders(alloc, post.existentials.as_slice())?;
    let props = share_formulas(alloc, post.props.as_slice())?;
    let locals = returned(alloc, &post.value)?;
    let parts = share_parts(alloc, post.parts.as_slice())?;
    Ok(Assertion {
        existentials,
        props,
        locals,
        parts,
    })
}

#[tactic(auto, using(crate::proofs::ImportLemmas::apart_is))]
fn apart_of<L: Ledger>(
    alloc: Global,
    a: &Assertion,
    variables: &[Binder],
    steps: &mut Steps<L>,
) -> Result<Assertion, AllocError>
    ensures { IfOk result (λ made. made ≡ apart (λ x. has_name x variables.now) a.now) }
{
    match rename_apart(alloc, a, variables, steps) {
        Ok(made) => Ok(made),
        Err(_) => Err(AllocError),
    }
}

/// The function's own postcondition, whose existentials are no names of the import.
pub(crate) fn own_post<L: Ledger>(
    alloc: Global,
    import: &Funspec,
    own: &Instance,
    steps: &mut Steps<L>,
) -> Result<Assertion, AllocError>
    ensures { IfOk result (λ a. a ≡ own_post_lem import.now own.now) }
{
    let whole = whole_post(alloc, own)?;
    let mut variables = share_binders(alloc, import.with.as_slice())?;
    variables.append(share_binders(alloc, import.post.existentials.as_slice())?)?;
    apart_of(alloc, &whole, variables.as_slice(), steps)
}

/// The term of the first temporary.
fn value_in(locals: &[Local]) -> Option<&Term>
    ensures { option_copied result ≡ value_in_lem locals.now }
{
    match locals {
        [] => None,
        [local, ..] => Some(&local.term),
    }
}

/// The import's postcondition, whose existentials are not free in the own term of RETURN.
#[tactic(auto, using(crate::proofs::ImportLemmas::import_with, crate::proofs::ImportLemmas::import_without))]
pub(crate) fn import_post<L: Ledger>(
    alloc: Global,
    import: &Funspec,
    value: Option<&Term>,
    steps: &mut Steps<L>,
) -> Result<Assertion, AllocError>
    ensures { IfOk result (λ a. a ≡ import_post_lem import.now (option_copied value.entry)) }
{
    let whole = given(alloc, &import.post)?;
    match value {
        None => apart_of(alloc, &whole, &[], steps),
        Some(term) => match rename_apart_from(alloc, &whole, term, steps) {
            Ok(made) => Ok(made),
            Err(_) => Err(AllocError),
        },
    }
}

/// The equation of the two terms of RETURN, where there are two.
fn value_equation<L: Ledger>(
    alloc: Global,
    a: Option<&Term>,
    b: Option<&Term>,
    steps: &mut Steps<L>,
) -> Result<FormulaList, AllocError>
    ensures { IfOk result (λ all. all ≡ value_equation_lem (option_copied a.entry) (option_copied b.entry)) }
{
    let mut all = FormulaList::new(alloc);
    match (a, b) {
        (Some(t), Some(u)) => {
            all.push(equation(alloc, t, u, steps)?)?;
            Ok(all)
        }
        (None, _) => Ok(all),
        (Some(_), None) => Ok(all),
    }
}

fn second_context(alloc: Global, import: &Funspec, post: &Assertion) -> Result<Context, AllocError>
    ensures { IfOk result (λ c. c ≡ record { variables = import.now.with ++ post.now.existentials; hypotheses = import.now.pre.props ++ post.now.props; mark = Plain }) }
{
    let mut variables = share_binders(alloc, import.with.as_slice())?;
    variables.append(share_binders(alloc, post.existentials.as_slice())?)?;
    let mut hypotheses = share_formulas(alloc, import.pre.props.as_slice())?;
    hypotheses.append(share_formulas(alloc, post.props.as_slice())?)?;
    Ok(Context {
        variables: Shared::new(alloc, variables)?,
        hypotheses: Shared::new(alloc, hypotheses)?,
        mark: Mark::Plain,
    })
}

/// The import's postcondition, with the equation of the two terms of RETURN.
fn second_target<L: Ledger>(
    alloc: Global,
    post: &Assertion,
    target: &Assertion,
    steps: &mut Steps<L>,
) -> Result<Assertion, AllocError>
    ensures { IfOk result (λ a. a ≡ record { existentials = target.now.existentials; props = target.now.props ++ value_equation_lem (value_in_lem post.now.locals) (value_in_lem target.now.locals); locals = []; parts = target.now.parts }) }
{
    let a = value_in(post.locals.as_slice());
    let b = value_in(target.locals.as_slice());
    let mut props = share_formulas(alloc, target.props.as_slice())?;
    props.append(value_equation(alloc, a, b, steps)?)?;
    let existentials = share_binders(alloc, target.existentials.as_slice())?;
    let parts = share_parts(alloc, target.parts.as_slice())?;
    Ok(Assertion {
        existentials,
        props,
        locals: LocalList::new(alloc),
        parts,
    })
}

fn second_by<L: Ledger>(
    alloc: Global,
    import: &Funspec,
    post: &Assertion,
    target: &Assertion,
    frame: &[Sep],
    steps: &mut Steps<L>,
) -> Result<Entail, AllocError>
    ensures { IfOk result (λ g. g ≡ second_by_lem import.now post.now target.now frame.now) }
{
    let context = second_context(alloc, import, post)?;
    let mut held = share_parts(alloc, post.parts.as_slice())?;
    held.append(share_parts(alloc, frame)?)?;
    let source = plain_assertion(alloc, FormulaList::new(alloc), held);
    let target = second_target(alloc, post, target, steps)?;
    Ok(Entail {
        context,
        source: Shared::new(alloc, source)?,
        target: Shared::new(alloc, target)?,
    })
}

/// That the own postcondition at these terms, and the parts beside it, give the import's.
pub(crate) fn second_goal<L: Ledger>(
    alloc: Global,
    import: &Funspec,
    own: &Instance,
    frame: &[Sep],
    steps: &mut Steps<L>,
) -> Result<Entail, AllocError>
    ensures { IfOk result (λ g. g ≡ second_of import.now own.now frame.now) }
{
    let post = own_post(alloc, import, own, steps)?;
    let target = import_post(alloc, import, value_in(post.locals.as_slice()), steps)?;
    second_by(alloc, import, &post, &target, frame, steps)
}
