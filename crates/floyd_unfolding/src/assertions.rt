ghost use Rattle.floyd_unfolding.specs.Assertions.{assertion_unfolded};
ghost use Rattle.floyd_text.specs.Gives.{RuleGives};
ghost use Rattle.floyd_unfolding.specs.Calls.{TakesTerms};

use crate::changes::{formulas_or, terms_or};
use crate::formulas::unfold_formulas;
use crate::terms::unfold_terms;
use floyd_assert_terms::{terms_in, with_terms};
use floyd_assert_trees::{Assertion, Fun};
use floyd_text::{Name, RuleStop, Steps};
use std::alloc::Global;
use std::sync::ledger::Ledger;

/// The assertion with what each call of the FUN means in its place, if anything changes: in PROP, in LOCAL and in SEP.
#[tactic(auto, using(crate::proofs::JoiningAssertions::props_stop, crate::proofs::JoiningAssertions::terms_stop, crate::proofs::JoiningAssertions::assertion_none, crate::proofs::JoiningAssertions::assertion_some))]
pub fn unfold_assertion<L: Ledger>(
    alloc: Global,
    name: &Name,
    own: &Fun,
    a: &Assertion,
    steps: &mut Steps<L>,
) -> Result<Option<Assertion>, RuleStop>
    requires takes { TakesTerms own.now }
    ensures exact { RuleGives (λ o. o) result (assertion_unfolded name.now own.now a.now) }
{
    let props = unfold_formulas(alloc, name, own, a.props.as_slice(), steps)?;
    let all = terms_in(alloc, a)?;
    let terms = unfold_terms(alloc, name, own, all.as_slice(), steps)?;
    if props.is_none() && terms.is_none() {
        return Ok(None);
    }
    let terms = terms_or(alloc, terms, all.as_slice())?;
    let props = formulas_or(alloc, props, a.props.as_slice())?;
    Ok(Some(with_terms(alloc, a, props, terms.as_slice())?))
}
