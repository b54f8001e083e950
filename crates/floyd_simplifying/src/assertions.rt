ghost use Rattle.floyd_simplifying.specs.Assertions.{assertion_simplified};
ghost use Rattle.floyd_text.specs.Gives.{RuleGives};

use crate::changes::{formulas_or, terms_or};
use crate::formulas::simplify_formulas;
use crate::terms::simplify_terms;
use floyd_assert_terms::{terms_in, with_terms};
use floyd_assert_trees::Assertion;
use floyd_text::{RuleStop, Steps};
use std::alloc::Global;
use std::sync::ledger::Ledger;

/// The assertion, whose formulas and terms are simplified, if anything changes: in PROP, in LOCAL and in SEP.
#[tactic(auto, using(crate::proofs::JoiningAssertions::props_stop, crate::proofs::JoiningAssertions::terms_stop, crate::proofs::JoiningAssertions::assertion_none, crate::proofs::JoiningAssertions::assertion_some))]
pub fn simplify_assertion<L: Ledger>(
    alloc: Global,
    a: &Assertion,
    steps: &mut Steps<L>,
) -> Result<Option<Assertion>, RuleStop>
    ensures exact { RuleGives (λ o. o) result (assertion_simplified a.now) }
{
    let props = simplify_formulas(alloc, a.props.as_slice(), steps)?;
    let all = terms_in(alloc, a)?;
    let terms = simplify_terms(alloc, all.as_slice(), steps)?;
    if props.is_none() && terms.is_none() {
        return Ok(None);
    }
    let terms = terms_or(alloc, terms, all.as_slice())?;
    let props = formulas_or(alloc, props, a.props.as_slice())?;
    Ok(Some(with_terms(alloc, a, props, terms.as_slice())?))
}
