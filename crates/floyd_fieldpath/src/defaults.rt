ghost use Rattle.floyd_tree.specs.Made.{Gives};
ghost use Rattle.floyd_fieldpath.specs.DefaultTerms.{default_term as default_term_lem, made_term};

use floyd_text::Steps;
use floyd_tree::{AType, Head, MakeStop, Operator, Sort, Term, make};
use std::alloc::Global;
use std::sync::ledger::Ledger;

/// The default term of a type, of which this is the value sort. That of a scalar is `Vundef`. A size that is no number
/// makes it ill sorted.
pub fn default_term<L: Ledger>(
    alloc: Global,
    t: &AType,
    sort: &Sort,
    steps: &mut Steps<L>,
) -> Result<Term, MakeStop>
    ensures exact { Gives result (made_term (default_term_lem t.now sort.now)) }
{
    if t.shape().get().is_scalar() {
        return make(alloc, Head::Operator(Operator::Vundef), &[], steps);
    }
    let head = Head::Default(t.shape().share()?, sort.share()?);
    make(alloc, head, t.sizes().as_slice(), steps)
}
