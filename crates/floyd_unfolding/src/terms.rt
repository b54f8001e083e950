ghost use Rattle.floyd_text.specs.Gives.{RuleGives};
ghost use Rattle.floyd_tree.specs.Plain.{plains};
ghost use Rattle.floyd_unfolding.specs.Calls.{TakesTerms};
ghost use Rattle.floyd_unfolding.specs.Unfolded.{node_over as node_over_lem, step as step_lem, unfolded};
ghost use Rattle.floyd_unfolding.specs.UnfoldedClauses.{terms_unfolded};

use crate::calls::meaning;
use crate::changes::push_term;
use floyd_assert_trees::Fun;
use floyd_folding::written;
use floyd_text::{Name, RuleStop, Steps};
use floyd_tree::{Head, Term, TermList, head, kids};
use sqlite_items::Items;
use std::alloc::Global;
use std::sync::ledger::Ledger;

/// What a call of the FUN means whose arguments are looked at already, if it means anything.
fn step<L: Ledger>(
    alloc: Global,
    name: &Name,
    own: &Fun,
    head: &Head,
    kids: &[Term],
    steps: &mut Steps<L>,
) -> Result<Option<Term>, RuleStop>
    requires takes { TakesTerms own.now }
    ensures exact { RuleGives (λ o. o) result (step_lem name.now own.now head.now kids.now) }
{
    match head {
        Head::Fun(called, _, _) => {
            if called == name {
                meaning(alloc, own, kids, steps)
            } else {
                Ok(None)
            }
        }
        _ => Ok(None),
    }
}

/// The term with what each call of the FUN means in its place, from its leaves up, if anything changes.
#[cycle(terms)]
#[tactic(auto, using(crate::proofs::Joining::term_none, crate::proofs::Joining::term_some, crate::proofs::Joining::term_stops, floyd_assert_changes::proofs::Heights::heights_below))]
fn unfold_term<L: Ledger>(
    alloc: Global,
    name: &Name,
    own: &Fun,
    t: &Term,
    steps: &mut Steps<L>,
) -> Result<Option<Term>, RuleStop>
    requires takes { TakesTerms own.now }
    ensures exact { RuleGives (λ o. o) result (unfolded name.now own.now t.now) }
{
    match unfold_terms(alloc, name, own, kids(t).as_slice(), steps)? {
        None => step(alloc, name, own, head(t), kids(t).as_slice(), steps),
        Some(kids) => node_over(alloc, name, own, head(t), kids.as_slice(), steps),
    }
}

/// The node over other kids, or what it means.
#[tactic(auto, using(crate::proofs::Joining::node_meant, crate::proofs::Joining::node_kept, crate::proofs::Joining::node_stops, crate::proofs::Joining::node_large))]
fn node_over<L: Ledger>(
    alloc: Global,
    name: &Name,
    own: &Fun,
    head: &Head,
    kids: &[Term],
    steps: &mut Steps<L>,
) -> Result<Option<Term>, RuleStop>
    requires takes { TakesTerms own.now }
    ensures exact { RuleGives (λ o. o) result (node_over_lem name.now own.now head.now (plains kids.now)) }
{
    match step(alloc, name, own, head, kids, steps)? {
        Some(made) => Ok(Some(made)),
        None => Ok(Some(written(alloc, head.share()?, kids, steps)?)),
    }
}

/// The terms with what each call of the FUN means in its place, if anything changes in some of them.
#[cycle(terms)]
#[tactic(auto, using(crate::proofs::Joining::terms_start, crate::proofs::Joining::terms_stop, crate::proofs::Joining::terms_end, floyd_assert_changes::proofs::Heights::height_at))]
pub fn unfold_terms<L: Ledger>(
    alloc: Global,
    name: &Name,
    own: &Fun,
    terms: &[Term],
    steps: &mut Steps<L>,
) -> Result<Option<TermList>, RuleStop>
    requires takes { TakesTerms own.now }
    ensures exact { RuleGives (λ o. o) result (terms_unfolded name.now own.now terms.now) }
{
    let mut all = Vec::with_capacity(alloc, terms.len())?;
    let mut changed = false;
    'terms: for term in terms {
        let new = unfold_term(alloc, name, own, term, steps)?;
        let made = push_term(&mut all, new, term)?;
        changed = changed || made;
    }
    if changed {
        Ok(Some(Items::from_vec(all)))
    } else {
        Ok(None)
    }
}
