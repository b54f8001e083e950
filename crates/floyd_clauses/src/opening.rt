ghost use Rattle.std.specs.Prelude.{◌≡◌, ◌++◌, IfOk, Ok};
ghost use Rattle.std.specs.Option.{option_copied};
ghost use Rattle.floyd_assert_changes.specs.Changed.{AssertionSortsAgree};
ghost use Rattle.floyd_assert_trees.specs.declared.items.PredBody.TheVariants.{Cases};
ghost use Rattle.floyd_clauses.specs.Clauses.{OpensWell, Opening, case_for as case_for_lem, clause_in as clause_in_lem, no_constructor as no_constructor_lem, opened_by, opened_terms, with_terms};
ghost use Rattle.floyd_fieldpath.specs.Written.{on_ok};
ghost use Rattle.floyd_text.specs.Gives.{RuleGives};
ghost use Rattle.floyd_truth.specs.Replace.{puts};

use crate::patterns::{is_of, named_parts};
use floyd_assert_changes::change_assertion;
use floyd_assert_instances::pairs;
use floyd_assert_trees::{Assertion, Pred, PredBody, PredCase};
use floyd_text::{Code, Name, No, RuleStop, Shown, Steps};
use floyd_tree::{Term, TermList, head, kids};
use std::alloc::{AllocError, Global};
use std::sync::ledger::Ledger;

/// The refusal of a first argument without a constructor at its head.
fn no_constructor() -> No
    ensures { result ≡ no_constructor_lem }
{
    No {
        code: Code::NoConstructor,
        shown: Shown::Nothing,
    }
}

/// The case for the constructor at the head of the term.
fn case_for<'a>(cases: &'a [PredCase], t: &Term) -> Option<&'a PredCase>
    ensures { option_copied result ≡ case_for_lem cases.now t.now }
{
    'cases: for case in cases {
        if is_of(&case.pattern, head(t)) {
            return Some(case);
        }
    }
    None
}

/// Terms by name, and behind them others.
fn before(
    own: Vec<(Name, Term)>,
    arguments: &[(Name, Term)],
) -> Result<Vec<(Name, Term)>, AllocError>
    ensures { IfOk result (λ all. all.items ≡ own.items ++ arguments.now) }
{
    let mut all = own;
    'arguments: for argument in arguments {
        all.push((argument.0.share()?, argument.1.share()?))?;
    }
    Ok(all)
}

/// A case with terms for its names and for the arguments.
fn clause_at<L: Ledger>(
    alloc: Global,
    case: &PredCase,
    t: &Term,
    arguments: &[(Name, Term)],
    steps: &mut Steps<L>,
) -> Result<Assertion, RuleStop>
    requires { AssertionSortsAgree (puts (opened_terms case.now t.now arguments.now)) case.now.body }
    ensures exact { RuleGives (λ a. a) result (with_terms (opened_terms case.now t.now arguments.now, case.now.body)) }
{
    let own = named_parts(alloc, &case.pattern, kids(t).as_slice())?;
    let by = before(own, arguments)?;
    change_assertion(alloc, &case.body, by.as_slice(), steps)
}

/// The case for the constructor of the first term.
fn by_cases<L: Ledger>(
    alloc: Global,
    cases: &[PredCase],
    terms: &[Term],
    arguments: &[(Name, Term)],
    steps: &mut Steps<L>,
) -> Result<Assertion, RuleStop>
    requires { (o : Opening) → opened_by (Cases cases.now) terms.now arguments.now ≡ Ok o → AssertionSortsAgree (puts o.0) o.1 }
    ensures exact { RuleGives (λ a. a) result (on_ok (opened_by (Cases cases.now) terms.now arguments.now) with_terms) }
{
    match terms {
        [] => Err(RuleStop::No(no_constructor())),
        [first, ..] => match case_for(cases, first) {
            None => Err(RuleStop::No(no_constructor())),
            Some(case) => clause_at(alloc, case, first, arguments, steps),
        },
    }
}

/// What the body stands for, with these terms for the arguments.
fn by_body<L: Ledger>(
    alloc: Global,
    body: &PredBody,
    terms: &[Term],
    arguments: &[(Name, Term)],
    steps: &mut Steps<L>,
) -> Result<Assertion, RuleStop>
    requires { (o : Opening) → opened_by body.now terms.now arguments.now ≡ Ok o → AssertionSortsAgree (puts o.0) o.1 }
    ensures exact { RuleGives (λ a. a) result (on_ok (opened_by body.now terms.now arguments.now) with_terms) }
{
    match body {
        PredBody::Whole(whole) => change_assertion(alloc, whole, arguments, steps),
        PredBody::Cases(cases) => by_cases(alloc, cases.as_slice(), terms, arguments, steps),
    }
}

/// The clause of this predicate.
pub fn clause_in<L: Ledger>(
    alloc: Global,
    pred: &Pred,
    terms: &TermList,
    steps: &mut Steps<L>,
) -> Result<Assertion, RuleStop>
    requires { OpensWell pred.now terms.now }
    ensures exact { RuleGives (λ a. a) result (clause_in_lem pred.now terms.now) }
{
    let arguments = pairs(alloc, pred.arguments.as_slice(), terms.as_slice())?;
    by_body(
        alloc,
        &pred.body,
        terms.as_slice(),
        arguments.as_slice(),
        steps,
    )
}
