ghost use Rattle.std.specs.Prelude.{◌≡◌, IfOk};
ghost use Rattle.floyd_clauses.specs.Clauses.{TakesTerms, Unfolds, clause_of, hidden as hidden_lem, is_hidden as is_hidden_lem, no_predicate as no_predicate_lem, unfolded};
ghost use Rattle.floyd_text.specs.Gives.{RuleGives};

use crate::opening::clause_in;
use floyd_assert_trees::{Assertion, Defs, Pred, Sep};
use floyd_text::{Code, Name, No, RuleStop, Shown, Steps};
use floyd_tree::TermList;
use std::alloc::{AllocError, Global};
use std::sync::ledger::Ledger;

/// The refusal of what is no predicate.
fn no_predicate() -> No
    ensures { result ≡ no_predicate_lem }
{
    No {
        code: Code::WrongGoal,
        shown: Shown::Nothing,
    }
}

/// The refusal of an opaque predicate of another module.
fn hidden(name: &Name) -> Result<No, AllocError>
    ensures { IfOk result (λ no. no ≡ hidden_lem name.now) }
{
    Ok(No {
        code: Code::Opaque,
        shown: Shown::Name(name.share()?),
    })
}

fn is_hidden(home: u32, pred: &Pred) -> bool
    ensures { result ≡ is_hidden_lem home pred.now }
{
    pred.opaque && pred.module != home
}

/// The clause of a predicate at terms: its body, or the body of the case for the constructor of the first term, with the
/// terms in place of its arguments and of the names of the case's pattern. Existentials are renamed where they would
/// capture.
///
/// Where there is no predicate of that name it is 701; an opaque one of another module is 723; terms of another number or
/// sort than the arguments are 521 and 503; where the predicate has cases, and the first term no constructor at its head, it
/// is 722; and what is beyond the limits is 802. Of items that are well formed, each free variable in the body has the sort
/// of its term.
pub fn clause<L: Ledger>(
    alloc: Global,
    defs: &Defs,
    name: &Name,
    terms: &TermList,
    steps: &mut Steps<L>,
) -> Result<Assertion, RuleStop>
    requires sorts { TakesTerms defs.now name.now terms.now }
    ensures exact { RuleGives (λ a. a) result (clause_of defs.now name.now terms.now) }
{
    match defs.preds.get(name) {
        None => Err(RuleStop::No(no_predicate())),
        Some(pred) => {
            if is_hidden(defs.home, pred) {
                return Err(RuleStop::No(hidden(name)?));
            }
            clause_in(alloc, pred, terms, steps)
        }
    }
}

/// The clause of a part, which is 701 where it is no predicate.
pub fn unfold<L: Ledger>(
    alloc: Global,
    defs: &Defs,
    part: &Sep,
    steps: &mut Steps<L>,
) -> Result<Assertion, RuleStop>
    requires sorts { Unfolds defs.now part.now }
    ensures exact { RuleGives (λ a. a) result (unfolded defs.now part.now) }
{
    match part {
        Sep::FieldAt(_, _) => Err(RuleStop::No(no_predicate())),
        Sep::Padding(_) => Err(RuleStop::No(no_predicate())),
        Sep::Valid(_) => Err(RuleStop::No(no_predicate())),
        Sep::Anything => Err(RuleStop::No(no_predicate())),
        Sep::Predicate(name, terms) => clause(alloc, defs, name, terms, steps),
    }
}
