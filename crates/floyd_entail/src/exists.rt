ghost use Rattle.std.specs.Prelude.{◌≡◌, IfOk, Ok};
ghost use Rattle.floyd_entail.specs.Exists.{FirstSortsAgree, ForFirst, HeadSortAgrees, IsToward, Puts, PutsTerm, Row, SortsAgree, TermSortAgrees, under as under_lem};
ghost use Rattle.floyd_goal.specs.Answers.{IsAnswer};

use floyd_assert::{
    Assertion, Binder, Defs, SpecTable, share_binders, share_formulas, share_locals, share_parts,
};
use floyd_assert_changes::subst_assertion;
use floyd_goal_parts::{Args, Entail, Goal, GoalList, intros_first, one_goal, wrong_goal};
use floyd_text::{RuleStop, Shared, Steps};
use floyd_tree::Term;
use std::alloc::{AllocError, Global};
use std::sync::ledger::Ledger;

/// The assertion under these existentials.
fn under(alloc: Global, target: &Assertion, more: &[Binder]) -> Result<Assertion, AllocError>
    ensures { IfOk result (λ a. a ≡ under_lem target.now more.now) }
{
    let existentials = share_binders(alloc, more)?;
    let props = share_formulas(alloc, target.props.as_slice())?;
    let locals = share_locals(alloc, target.locals.as_slice())?;
    let parts = share_parts(alloc, target.parts.as_slice())?;
    Ok(Assertion {
        existentials,
        props,
        locals,
        parts,
    })
}

/// The goal behind the command, to that target.
fn toward(alloc: Global, entail: &Entail, target: Assertion) -> Result<GoalList, AllocError>
    ensures { IfOk result (λ gs. IsToward entail.now target (Ok gs)) }
{
    let context = entail.context.after_command(alloc)?;
    let source = entail.source.share()?;
    let target = Shared::new(alloc, target)?;
    one_goal(
        alloc,
        Goal::Entail(Entail {
            context,
            source,
            target,
        }),
    )
}

/// The goal with the term in the place of the binder's variable, where the target has these existentials behind it.
fn puts_term<L: Ledger>(
    alloc: Global,
    entail: &Entail,
    binder: &Binder,
    more: &[Binder],
    term: &Term,
    steps: &mut Steps<L>,
) -> Result<GoalList, RuleStop>
    requires { TermSortAgrees entail.now.target binder.now more.now term.now }
    ensures exact { IsAnswer (PutsTerm entail.now binder.now more.now term.now) result }
{
    let target = under(alloc, entail.target.get(), more)?;
    let changed = subst_assertion(alloc, &target, &binder.name, term, steps)?;
    Ok(toward(alloc, entail, changed)?)
}

/// The same of the first term, which the command always has.
#[tactic(auto, using(crate::proofs::ExistsLemmas::puts_first))]
fn puts<L: Ledger>(
    alloc: Global,
    entail: &Entail,
    binder: &Binder,
    more: &[Binder],
    terms: &[Term],
    steps: &mut Steps<L>,
) -> Result<GoalList, RuleStop>
    requires { HeadSortAgrees entail.now.target binder.now more.now terms.now }
    ensures exact { IsAnswer (Puts entail.now binder.now more.now terms.now) result }
{
    match terms {
        [term, ..] => puts_term(alloc, entail, binder, more, term, steps),
        [] => Err(RuleStop::No(wrong_goal())),
    }
}

/// The goal with the term in the place of the target's first existential.
fn for_first<L: Ledger>(
    alloc: Global,
    entail: &Entail,
    existentials: &[Binder],
    terms: &[Term],
    steps: &mut Steps<L>,
) -> Result<GoalList, RuleStop>
    requires { FirstSortsAgree entail.now.target existentials.now terms.now }
    ensures exact { IsAnswer (ForFirst entail.now existentials.now terms.now) result }
{
    match existentials {
        [binder, more @ ..] => {
            if entail.source.get().existentials.is_empty() {
                puts(alloc, entail, binder, more, terms, steps)
            } else {
                Err(RuleStop::No(intros_first()))
            }
        }
        [] => Err(RuleStop::No(wrong_goal())),
    }
}

/// Puts a term in the place of the first existential of an Entail goal's target.
///
/// In the target each free occurrence of the existential's name has the sort of the term. Of a goal that is well formed, and
/// a term of the existential's sort, this is so: below an existential its name has the existential's sort.
pub fn do_exists<L: Ledger>(
    alloc: Global,
    goal: &Goal,
    args: &Args,
    _defs: &Defs,
    _specs: &SpecTable,
    steps: &mut Steps<L>,
) -> Result<GoalList, RuleStop>
    requires sorts { SortsAgree goal.now args.now.terms }
    ensures exact { IsAnswer (Row goal.now args.now) result }
{
    match goal {
        Goal::Entail(entail) => {
            let existentials = entail.target.get().existentials.as_slice();
            for_first(alloc, entail, existentials, args.terms.as_slice(), steps)
        }
        Goal::Run(_) => Err(RuleStop::No(wrong_goal())),
        Goal::Pure(_) => Err(RuleStop::No(wrong_goal())),
    }
}
