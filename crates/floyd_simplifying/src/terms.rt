ghost use Rattle.floyd_simplifying.specs.Simplified.{node_over as node_over_lem, simplified};
ghost use Rattle.floyd_simplifying.specs.SimplifiedClauses.{terms_simplified};
ghost use Rattle.floyd_text.specs.Gives.{RuleGives};
ghost use Rattle.floyd_tree.specs.Plain.{plains};

use crate::changes::push_term;
use crate::stepping::step;
use floyd_folding::written;
use floyd_text::{RuleStop, Steps};
use floyd_tree::{Head, Term, TermList, head, kids};
use sqlite_items::Items;
use std::alloc::Global;
use std::sync::ledger::Ledger;

/// The term, simplified from its leaves up, if anything changes.
#[cycle(terms)]
#[tactic(auto, using(crate::proofs::Joining::term_none, crate::proofs::Joining::term_some, crate::proofs::Joining::term_stops, floyd_assert_changes::proofs::Heights::heights_below))]
fn simplify_term<L: Ledger>(
    alloc: Global,
    t: &Term,
    steps: &mut Steps<L>,
) -> Result<Option<Term>, RuleStop>
    ensures exact { RuleGives (λ o. o) result (simplified t.now) }
{
    match simplify_terms(alloc, kids(t).as_slice(), steps)? {
        None => step(alloc, t, steps),
        Some(kids) => node_over(alloc, head(t), kids.as_slice(), steps),
    }
}

/// The node over other kids, or what takes its place.
fn node_over<L: Ledger>(
    alloc: Global,
    head: &Head,
    kids: &[Term],
    steps: &mut Steps<L>,
) -> Result<Option<Term>, RuleStop>
    ensures exact { RuleGives (λ o. o) result (node_over_lem head.now (plains kids.now)) }
{
    let node = written(alloc, head.share()?, kids, steps)?;
    match step(alloc, &node, steps)? {
        None => Ok(Some(node)),
        Some(made) => Ok(Some(made)),
    }
}

/// The terms, simplified, if anything changes in some of them.
#[cycle(terms)]
#[tactic(auto, using(crate::proofs::Joining::terms_start, crate::proofs::Joining::terms_stop, crate::proofs::Joining::terms_end, floyd_assert_changes::proofs::Heights::height_at))]
pub fn simplify_terms<L: Ledger>(
    alloc: Global,
    terms: &[Term],
    steps: &mut Steps<L>,
) -> Result<Option<TermList>, RuleStop>
    ensures exact { RuleGives (λ o. o) result (terms_simplified terms.now) }
{
    let mut all = Vec::with_capacity(alloc, terms.len())?;
    let mut changed = false;
    'terms: for term in terms {
        let new = simplify_term(alloc, term, steps)?;
        let made = push_term(&mut all, new, term)?;
        changed = changed || made;
    }
    if changed {
        Ok(Some(Items::from_vec(all)))
    } else {
        Ok(None)
    }
}
