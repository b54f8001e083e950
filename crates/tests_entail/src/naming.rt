//! What the commands on existentials answer, of goals that are such as they ask for.
ghost use Rattle.std.specs.Prelude.{◌≡◌, IfOk};
ghost use Rattle.std.specs.Option.{option_copied};
ghost use Rattle.floyd_tree.specs.WellSorted.{sort_of};
ghost use Rattle.tests_entail.specs.Suits.{assertion_suits as assertion_suits_lem, first_suits as first_suits_lem, put_suits as put_suits_lem, source_suits as source_suits_lem, target_suits as target_suits_lem};

use crate::commands::Answer;
use crate::suits::assertion_suits;
use floyd_assert::{Assertion, Binder, Defs};
use floyd_entail::{do_exists, do_intros};
use floyd_goal::{Args, Goal};
use floyd_text::{Name, Steps};
use floyd_tree::{Term, TermList, sort};
use std::alloc::{AllocError, Global};
use std::sync::ledger::Ledger;
use tests_goals::no_specs;
use tests_terms::Stop;

fn existentials_suit(alloc: Global, a: &Assertion) -> Result<bool, AllocError>
    ensures { IfOk result (λ b. b ≡ assertion_suits_lem a.now.existentials a.now) }
{
    assertion_suits(alloc, a, a.existentials.as_slice())
}

/// Whether the variables of the source have the sorts of its existentials of their names.
fn source_suits(alloc: Global, goal: &Goal) -> Result<bool, AllocError>
    ensures { IfOk result (λ b. b ≡ source_suits_lem goal.now) }
{
    match goal {
        Goal::Run(run) => existentials_suit(alloc, run.source.get()),
        Goal::Entail(entail) => existentials_suit(alloc, entail.source.get()),
        Goal::Pure(_) => Ok(true),
    }
}

/// What `Intros` answers.
pub fn opened<L: Ledger>(
    alloc: Global,
    goal: &Goal,
    args: &Args,
    defs: &Defs,
    steps: &mut Steps<L>,
) -> Result<Answer, Stop> {
    let specs = &no_specs(alloc);
    let suits = source_suits(alloc, goal)?;
    if suits {
        Ok(do_intros(alloc, goal, args, defs, specs, steps))
    } else {
        Err(Stop::Unreadable)
    }
}

/// Whether the variables of that name have the sort of the term.
fn put_suits(alloc: Global, a: &Assertion, name: &Name, t: &Term) -> Result<bool, AllocError>
    ensures { IfOk result (λ b. b ≡ put_suits_lem a.now name.now (sort_of t.now)) }
{
    let name = name.share()?;
    let sort = sort(t).share()?;
    let binders = [Binder { name, sort }];
    assertion_suits(alloc, a, &binders)
}

fn first_suits(
    alloc: Global,
    a: &Assertion,
    binder: Option<&Binder>,
    term: Option<&Term>,
) -> Result<bool, AllocError>
    ensures { IfOk result (λ b. b ≡ first_suits_lem a.now (option_copied binder.entry) (option_copied term.entry)) }
{
    match (binder, term) {
        (Some(binder), Some(term)) => put_suits(alloc, a, &binder.name, term),
        _ => Ok(true),
    }
}

/// Whether the variables of the name of the target's first existential have the sort of the first term.
fn target_suits(alloc: Global, goal: &Goal, terms: &TermList) -> Result<bool, AllocError>
    ensures { IfOk result (λ b. b ≡ target_suits_lem goal.now terms.now) }
{
    match goal {
        Goal::Entail(entail) => {
            let target = entail.target.get();
            first_suits(alloc, target, target.existentials.get(0), terms.get(0))
        }
        Goal::Run(_) => Ok(true),
        Goal::Pure(_) => Ok(true),
    }
}

/// What `Exists` answers.
pub fn put<L: Ledger>(
    alloc: Global,
    goal: &Goal,
    args: &Args,
    defs: &Defs,
    steps: &mut Steps<L>,
) -> Result<Answer, Stop> {
    let specs = &no_specs(alloc);
    let suits = target_suits(alloc, goal, &args.terms)?;
    if suits {
        Ok(do_exists(alloc, goal, args, defs, specs, steps))
    } else {
        Err(Stop::Unreadable)
    }
}
