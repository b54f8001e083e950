ghost use Rattle.floyd_simplifying.specs.WrittenLists.{default_in as default_in_lem, default_of_end as default_of_end_lem, item_at as item_at_lem};
ghost use Rattle.floyd_text.specs.Gives.{RuleGives};

use floyd_fieldpath::literal;
use floyd_folding::written;
use floyd_text::{RuleStop, Steps};
use floyd_tree::{Head, Operator, Sort, Term, head};
use std::alloc::Global;
use std::sync::ledger::Ledger;

/// The default term of a sort.
#[tactic(auto, using(crate::proofs::DefaultTerms::default_list, crate::proofs::DefaultTerms::default_tree, crate::proofs::DefaultTerms::prod_gives, crate::proofs::DefaultTerms::prod_stops_first, crate::proofs::DefaultTerms::prod_stops_second))]
fn default_in<L: Ledger>(alloc: Global, sort: &Sort, steps: &mut Steps<L>) -> Result<Term, RuleStop>
    ensures exact { RuleGives (λ t. t) result (default_in_lem sort.now) }
{
    match sort {
        Sort::Z => Ok(literal(alloc, 0, steps)?),
        Sort::Val => written(alloc, Head::Operator(Operator::Vundef), &[], steps),
        Sort::ListOf(item) => written(alloc, Head::Nil(item.get().share()?), &[], steps),
        Sort::TreeOf(item) => written(alloc, Head::Leaf(item.get().share()?), &[], steps),
        Sort::Prod(first, second) => {
            let x = default_in(alloc, first.get(), steps)?;
            let y = default_in(alloc, second.get(), steps)?;
            let both = [x, y];
            written(alloc, Head::Operator(Operator::Pair), &both, steps)
        }
    }
}

/// The default of the items of a list that ends so.
#[tactic(auto, using(crate::proofs::DefaultTerms::end_default_is))]
fn default_of_end<L: Ledger>(
    alloc: Global,
    end: &Term,
    steps: &mut Steps<L>,
) -> Result<Term, RuleStop>
    ensures exact { RuleGives (λ t. t) result (default_of_end_lem end.now) }
{
    match head(end) {
        Head::Nil(item) => default_in(alloc, item, steps),
        _ => Ok(end.share()?),
    }
}

/// The item at that place, from 0, and the default where there is none.
#[tactic(auto, using(crate::proofs::DefaultTerms::item_within, crate::proofs::DefaultTerms::item_outside))]
pub fn item_at<L: Ledger>(
    alloc: Global,
    z: i128,
    items: &[Term],
    end: &Term,
    steps: &mut Steps<L>,
) -> Result<Term, RuleStop>
    ensures exact { RuleGives (λ t. t) result (item_at_lem z items.now end.now) }
{
    match usize::try_from(z) {
        Ok(place) => match items.get(place) {
            Some(item) => Ok(item.share()?),
            None => default_of_end(alloc, end, steps),
        },
        Err(_) => default_of_end(alloc, end, steps),
    }
}
