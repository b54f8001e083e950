ghost use Rattle.std.specs.Prelude.{◌≡◌, ◌++◌, IfOk, option_map, reverse};
ghost use Rattle.std.specs.Map.Iter.{deref_pair};
ghost use Rattle.floyd_goal_formulas.specs.Said.{pair_of};
ghost use Rattle.floyd_simplifying.specs.ListClauses.{is_nil as is_nil_lem, no_terms, parts, pushed};
ghost use Rattle.floyd_simplifying.specs.WrittenLists.{chained as chained_lem, end_of as end_of_lem, items_of as items_of_lem};
ghost use Rattle.floyd_text.specs.Gives.{RuleGives};

use floyd_folding::written;
use floyd_text::{RuleStop, Steps};
use floyd_tree::{Head, Operator, Term, TermList, head, kids};
use sqlite_items::Items;
use std::alloc::{AllocError, Global};
use std::sync::ledger::Ledger;

fn pair(terms: &[Term]) -> Option<(&Term, &Term)>
    ensures { option_map deref_pair result ≡ pair_of terms.now }
{
    match terms {
        [a, b] => Some((a, b)),
        _ => None,
    }
}

/// The first item and the rest of a list that begins with `::`.
fn cons_parts(t: &Term) -> Option<(&Term, &Term)>
    ensures { option_map deref_pair result ≡ parts t.now }
{
    match head(t) {
        Head::Operator(Operator::Cons) => pair(kids(t).as_slice()),
        _ => None,
    }
}

fn is_empty(terms: &[Term]) -> bool
    ensures { result ≡ no_terms terms.now }
{
    match terms {
        [] => true,
        _ => false,
    }
}

fn is_nil(t: &Term) -> bool
    ensures { result ≡ is_nil_lem t.now }
{
    match head(t) {
        Head::Nil(_) => is_empty(kids(t).as_slice()),
        _ => false,
    }
}

/// Adds the items of the list, and tells whether it is written out. Where it is not, what was added is of no use.
#[tactic(auto, using(crate::proofs::WrittenOut::pushed_more, crate::proofs::WrittenOut::pushed_none, crate::proofs::WrittenOut::rest_lower))]
fn push_items(all: &mut Vec<Term>, t: &Term) -> Result<bool, AllocError>
    ensures { IfOk result (λ yes. pushed yes all.new.items ≡ option_map (λ items. all.old.items ++ items) (items_of_lem t.now)) }
{
    match cons_parts(t) {
        Some((first, rest)) => {
            all.push(first.share()?)?;
            push_items(all, rest)
        }
        None => Ok(is_nil(t)),
    }
}

/// The items of a list that is written out.
#[tactic(auto, using(crate::proofs::WrittenOut::all_pushed, crate::proofs::WrittenOut::not_pushed))]
pub fn items_of(alloc: Global, t: &Term) -> Result<Option<TermList>, AllocError>
    ensures { IfOk result (λ o. o ≡ items_of_lem t.now) }
{
    let mut all = Vec::new(alloc);
    if push_items(&mut all, t)? {
        Ok(Some(Items::from_vec(all)))
    } else {
        Ok(None)
    }
}

/// The same in the other order.
#[tactic(auto, using(crate::proofs::WrittenOut::all_pushed, crate::proofs::WrittenOut::not_pushed))]
pub fn items_back(alloc: Global, t: &Term) -> Result<Option<TermList>, AllocError>
    ensures { IfOk result (λ o. o ≡ option_map reverse (items_of_lem t.now)) }
{
    let mut all = Vec::new(alloc);
    if push_items(&mut all, t)? {
        all.reverse();
        Ok(Some(Items::from_vec(all)))
    } else {
        Ok(None)
    }
}

/// What stands behind the last `::`.
#[tactic(auto, using(crate::proofs::WrittenOut::end_more, crate::proofs::WrittenOut::end_none, crate::proofs::WrittenOut::rest_lower))]
pub fn end_of(t: &Term) -> &Term
    ensures { result.now ≡ end_of_lem t.now }
{
    match cons_parts(t) {
        Some((_, rest)) => end_of(rest),
        None => t,
    }
}

/// The items before a list. They are those of a list that is written out, so that they are not many.
pub fn chained<L: Ledger>(
    alloc: Global,
    items: &[Term],
    end: &Term,
    steps: &mut Steps<L>,
) -> Result<Term, RuleStop>
    ensures exact { RuleGives (λ t. t) result (chained_lem items.now end.now) }
{
    match items {
        [] => Ok(end.share()?),
        [first, rest @ ..] => {
            let behind = chained(alloc, rest, end, steps)?;
            let both = [first.share()?, behind];
            written(alloc, Head::Operator(Operator::Cons), &both, steps)
        }
    }
}
