ghost use Rattle.std.specs.Prelude.{◌≡◌};
ghost use Rattle.floyd_text.specs.Gives.{RuleGives};
ghost use Rattle.floyd_tree.specs.Plain.{At, plains};
ghost use Rattle.floyd_fieldpath.specs.Nested.{literal as literal_lem};
ghost use Rattle.floyd_fieldpath.specs.Written.{ill_sorted as ill_sorted_lem, too_large as too_large_lem, written as written_lem};

use crate::literals::literal;
use floyd_text::{Code, No, RuleStop, Shown, Steps};
use floyd_tree::{Head, MakeStop, Term, make};
use std::alloc::Global;
use std::sync::ledger::Ledger;

/// The refusal of a term that is beyond the limits.
pub(crate) fn too_large() -> No
    ensures { result ≡ too_large_lem }
{
    No {
        code: Code::TermTooLarge,
        shown: Shown::Nothing,
    }
}

/// The refusal of a term that is ill sorted.
pub(crate) fn ill_sorted() -> No
    ensures { result ≡ ill_sorted_lem }
{
    No {
        code: Code::IllSorted,
        shown: Shown::Nothing,
    }
}

/// The term of this head and these kids, unless it cannot be made.
#[tactic(auto, using(crate::proofs::WrittenLemmas::made_is, crate::proofs::WrittenLemmas::ill_is, crate::proofs::WrittenLemmas::large_is))]
pub(crate) fn written<L: Ledger>(
    alloc: Global,
    head: Head,
    kids: &[Term],
    steps: &mut Steps<L>,
) -> Result<Term, RuleStop>
    ensures exact { RuleGives (λ t. t) result (written_lem (At head (plains kids.now))) }
{
    match make(alloc, head, kids, steps) {
        Ok(t) => Ok(t),
        Err(MakeStop::Memory) => Err(RuleStop::Memory),
        Err(MakeStop::IllSorted) => Err(RuleStop::No(ill_sorted())),
        Err(MakeStop::TooLarge) => Err(RuleStop::No(too_large())),
    }
}
