//! Arguments made of what was read.
ghost use Rattle.std.specs.Prelude.{◌≡◌, [], ◌∷◌, IfOk};
ghost use Rattle.floyd_play_reading.specs.Arguments as specs;
ghost use Rattle.floyd_play_reading.specs.Assertions as assertions;

use floyd_assert_trees::{Assertion, AssertionList};
use floyd_goal_trees::Args;
use floyd_play_arguments::no_args;
use floyd_text::Name;
use floyd_tree::{Formula, Term, TermList};
use sqlite_items::Items;
use std::alloc::{AllocError, Global};

pub(crate) fn with_terms(
    alloc: Global,
    name: Name,
    terms: TermList,
    more: TermList,
) -> Result<Args, AllocError>
    ensures { IfOk result (λ a. a ≡ specs.with_terms name terms more) }
{
    let mut args = no_args(alloc)?;
    args.name = name;
    args.terms = terms;
    args.more = more;
    Ok(args)
}

pub(crate) fn with_term(alloc: Global, on: Args, term: Term) -> Result<Args, AllocError>
    ensures { IfOk result (λ a. a ≡ specs.with_term on term) }
{
    let mut terms = Items::new(alloc);
    terms.push(term)?;
    let mut args = on;
    args.terms = terms;
    Ok(args)
}

pub(crate) fn with_formula(alloc: Global, formula: Formula) -> Result<Args, AllocError>
    ensures { IfOk result (λ a. a ≡ specs.with_formula formula) }
{
    let mut args = no_args(alloc)?;
    args.formula = Some(formula);
    Ok(args)
}

pub(crate) fn with_assertions(alloc: Global, all: AssertionList) -> Result<Args, AllocError>
    ensures { IfOk result (λ a. a ≡ assertions.with_assertions all) }
{
    let mut args = no_args(alloc)?;
    args.assertions = all;
    Ok(args)
}

pub(crate) fn with_assertion(alloc: Global, only: Assertion) -> Result<Args, AllocError>
    ensures { IfOk result (λ a. a ≡ assertions.with_assertions (only ∷ [])) }
{
    let mut all = Items::new(alloc);
    all.push(only)?;
    with_assertions(alloc, all)
}

/// The assertions of a loop, in order.
pub(crate) fn around(
    alloc: Global,
    invariant: Assertion,
    between: Option<Assertion>,
    left: Assertion,
) -> Result<AssertionList, AllocError>
    ensures { IfOk result (λ all. all ≡ assertions.around invariant between left) }
{
    let mut all = Items::new(alloc);
    all.push(invariant)?;
    if let Some(between) = between {
        all.push(between)?;
    }
    all.push(left)?;
    Ok(all)
}
