ghost use Rattle.std.specs.Prelude.{◌≡◌};
ghost use Rattle.floyd_goal_plans.specs.Plans.{first_term as first_term_lem};
ghost use Rattle.floyd_text.specs.Gives.{RuleGives};

use floyd_goal_parts::wrong_goal;
use floyd_text::RuleStop;
use floyd_tree::{Term, TermList};

/// The first of the terms that a command is given, which it always is.
#[tactic(auto, using(crate::proofs::PlanLemmas::one_term, crate::proofs::PlanLemmas::no_term))]
pub fn first_term(terms: &TermList) -> Result<&Term, RuleStop>
    ensures exact { RuleGives (λ t. t.now) result (first_term_lem terms.now) }
{
    match terms.get(0) {
        Some(term) => Ok(term),
        None => Err(RuleStop::No(wrong_goal())),
    }
}
