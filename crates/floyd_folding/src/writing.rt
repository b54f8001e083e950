ghost use Rattle.std.specs.Prelude.{◌≡◌};
ghost use Rattle.floyd_text.specs.Gives.{RuleGives};
ghost use Rattle.floyd_tree.specs.Plain.{At, plains};
ghost use Rattle.floyd_fieldpath.specs.Sums.{literal_or as literal_or_lem};
ghost use Rattle.floyd_fieldpath.specs.Written.{ill_sorted as ill_sorted_lem, too_large as too_large_lem, written as written_lem};

use floyd_fieldpath::literal;
use floyd_text::{Code, No, RuleStop, Shown, Steps};
use floyd_tree::{Head, MakeStop, Term, make};
use std::alloc::Global;
use std::sync::ledger::Ledger;

/// The refusal of a term that is beyond the limits.
pub fn too_large() -> No
    ensures { result ≡ too_large_lem }
{
    No {
        code: Code::TermTooLarge,
        shown: Shown::Nothing,
    }
}

/// The refusal of a term of a wrong sort.
fn ill_sorted() -> No
    ensures { result ≡ ill_sorted_lem }
{
    No {
        code: Code::IllSorted,
        shown: Shown::Nothing,
    }
}

/// The term of this head and these kids, unless it cannot be made.
#[tactic(auto, using(floyd_fieldpath::proofs::WrittenLemmas::made_is, floyd_fieldpath::proofs::WrittenLemmas::ill_is, floyd_fieldpath::proofs::WrittenLemmas::large_is))]
pub fn written<L: Ledger>(
    alloc: Global,
    head: Head,
    kids: &[Term],
    steps: &mut Steps<L>,
) -> Result<Term, RuleStop>
    ensures exact { RuleGives (λ t. t) result (written_lem (At head (plains kids.now))) }
{
    match make(alloc, head, kids, steps) {
        Ok(t) => Ok(t),
        Err(MakeStop::Memory) => Err(RuleStop::Memory),
        Err(MakeStop::IllSorted) => Err(RuleStop::No(ill_sorted())),
        Err(MakeStop::TooLarge) => Err(RuleStop::No(too_large())),
    }
}

/// The literal of a number, or else the term of the head and the kids.
pub(crate) fn literal_or<L: Ledger>(
    alloc: Global,
    z: Option<i128>,
    head: Head,
    kids: &[Term],
    steps: &mut Steps<L>,
) -> Result<Term, RuleStop>
    ensures exact { RuleGives (λ t. t) result (literal_or_lem z (At head (plains kids.now))) }
{
    match z {
        Some(z) => Ok(literal(alloc, z, steps)?),
        None => written(alloc, head, kids, steps),
    }
}
