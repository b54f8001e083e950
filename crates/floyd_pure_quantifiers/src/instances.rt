ghost use Rattle.std.specs.Prelude.{◌≡◌, ◌∷◌, []};
ghost use Rattle.floyd_assert_changes.specs.Substituted.{formula_with};
ghost use Rattle.floyd_pure_formulas.specs.Instances.{instance as instance_lem, instance_at as instance_at_lem, is_sort, wrong_count as wrong_count_lem};
ghost use Rattle.floyd_pure_formulas.specs.InstancesClauses.{Takes};
ghost use Rattle.floyd_text.specs.Gives.{RuleGives};
ghost use Rattle.floyd_tree.specs.WellSorted.{sort_of};
ghost use Rattle.floyd_truth.specs.Replace.{FormulaSortsAgree, puts};

use floyd_assert_changes::subst_formula;
use floyd_text::{Code, Name, No, RuleStop, Shown, Steps};
use floyd_tree::{Formula, Sort, Term, sort};
use std::alloc::Global;
use std::sync::ledger::Ledger;

/// Whether the term has that sort.
pub fn has_sort(t: &Term, s: &Sort) -> bool
    ensures { result ≡ is_sort s.now (sort_of t.now) }
{
    sort(t).same(s)
}

fn wrong_count(count: usize) -> No
    ensures { result ≡ wrong_count_lem count }
{
    No {
        code: Code::WithMismatch,
        shown: Shown::Count(count as u64),
    }
}

/// The body with a term for x.
pub fn put<L: Ledger>(
    alloc: Global,
    x: &Name,
    body: &Formula,
    t: &Term,
    steps: &mut Steps<L>,
) -> Result<Formula, RuleStop>
    requires { FormulaSortsAgree (puts ((x.now, t.now) ∷ [])) body.now }
    ensures { RuleGives (λ f. f) result (formula_with ((x.now, t.now) ∷ []) body.now) }
{
    let by = [(x.share()?, t.share()?)];
    subst_formula(alloc, body, &by, steps)
}

/// The body with a term for x, which has sort s.
#[tactic(auto, using(crate::proofs::Taking::taken_at))]
fn instance_at<L: Ledger>(
    alloc: Global,
    x: &Name,
    s: &Sort,
    body: &Formula,
    t: &Term,
    steps: &mut Steps<L>,
) -> Result<Formula, RuleStop>
    requires { Takes x.now s.now body.now }
    ensures { RuleGives (λ f. f) result (instance_at_lem x.now s.now body.now t.now) }
{
    if has_sort(t, s) {
        put(alloc, x, body, t, steps)
    } else {
        Err(RuleStop::No(No {
            code: Code::IllSorted,
            shown: Shown::Nothing,
        }))
    }
}

/// The instance at the one term that a command is given.
#[tactic(auto, using(crate::proofs::Taking::instance_other))]
pub fn instance<L: Ledger>(
    alloc: Global,
    x: &Name,
    s: &Sort,
    body: &Formula,
    terms: &[Term],
    steps: &mut Steps<L>,
) -> Result<Formula, RuleStop>
    requires { Takes x.now s.now body.now }
    ensures { RuleGives (λ f. f) result (instance_lem x.now s.now body.now terms.now) }
{
    match terms {
        [t] => instance_at(alloc, x, s, body, t, steps),
        _ => Err(RuleStop::No(wrong_count(terms.len()))),
    }
}
