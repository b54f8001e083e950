ghost use Rattle.std.specs.Prelude.{◌≡◌, ◌++◌, IfOk, Some};
ghost use Rattle.std.specs.Option.{option_copied};
ghost use Rattle.floyd_assert_trees.specs.declared.items.FunBody.TheVariants.{Cases};
ghost use Rattle.floyd_text.specs.Gives.{RuleGives};
ghost use Rattle.floyd_truth.specs.Replace.{SortsAgree, puts};
ghost use Rattle.floyd_unfolding.specs.Calls.{OpensWell, TakesTerms, case_for as case_for_lem, meaning as meaning_lem, meaning_by, opened_terms, term_with as term_with_lem};

use floyd_assert_changes::subst_terms;
use floyd_assert_instances::pairs;
use floyd_assert_trees::{Fun, FunBody, FunCase};
use floyd_clauses::{is_of, named_parts};
use floyd_text::{Name, RuleStop, Steps};
use floyd_tree::{Term, head, kids};
use std::alloc::{AllocError, Global};
use std::sync::ledger::Ledger;

/// The case for the constructor at the head of the term.
fn case_for<'a>(cases: &'a [FunCase], t: &Term) -> Option<&'a FunCase>
    ensures { option_copied result ≡ case_for_lem cases.now t.now }
{
    'cases: for case in cases {
        if is_of(&case.pattern, head(t)) {
            return Some(case);
        }
    }
    None
}

/// Terms by name, and behind them others.
fn before(
    own: Vec<(Name, Term)>,
    arguments: &[(Name, Term)],
) -> Result<Vec<(Name, Term)>, AllocError>
    ensures { IfOk result (λ all. all.items ≡ own.items ++ arguments.now) }
{
    let mut all = own;
    'arguments: for argument in arguments {
        all.push((argument.0.share()?, argument.1.share()?))?;
    }
    Ok(all)
}

/// The term with terms in place of variables.
#[tactic(auto, using(crate::proofs::CallLemmas::one_stops))]
fn term_with<L: Ledger>(
    alloc: Global,
    t: &Term,
    by: &[(Name, Term)],
    steps: &mut Steps<L>,
) -> Result<Term, RuleStop>
    requires { SortsAgree (puts by.now) t.now }
    ensures exact { RuleGives (λ x. x) result (term_with_lem by.now t.now) }
{
    let mut all = Vec::new(alloc);
    all.push(t.share()?)?;
    let made = subst_terms(alloc, all.as_slice(), by, steps)?;
    match made.as_slice() {
        [] => unreachable!(),
        [one, ..] => Ok(one.share()?),
    }
}

/// A case with terms for its names and for the arguments.
fn at_case<L: Ledger>(
    alloc: Global,
    case: &FunCase,
    t: &Term,
    arguments: &[(Name, Term)],
    steps: &mut Steps<L>,
) -> Result<Term, RuleStop>
    requires { SortsAgree (puts (opened_terms case.now t.now arguments.now)) case.now.term }
    ensures exact { RuleGives (λ x. x) result (term_with_lem (opened_terms case.now t.now arguments.now) case.now.term) }
{
    let own = named_parts(alloc, &case.pattern, kids(t).as_slice())?;
    let by = before(own, arguments)?;
    term_with(alloc, &case.term, by.as_slice(), steps)
}

/// The case for the constructor of the first term.
fn by_cases<L: Ledger>(
    alloc: Global,
    cases: &[FunCase],
    terms: &[Term],
    arguments: &[(Name, Term)],
    steps: &mut Steps<L>,
) -> Result<Option<Term>, RuleStop>
    requires { OpensWell (Cases cases.now) terms.now arguments.now }
    ensures exact { RuleGives (λ o. o) result (meaning_by (Cases cases.now) terms.now arguments.now) }
{
    match terms {
        [] => Ok(None),
        [first, ..] => match case_for(cases, first) {
            None => Ok(None),
            Some(case) => Ok(Some(at_case(alloc, case, first, arguments, steps)?)),
        },
    }
}

fn by_body<L: Ledger>(
    alloc: Global,
    body: &FunBody,
    terms: &[Term],
    arguments: &[(Name, Term)],
    steps: &mut Steps<L>,
) -> Result<Option<Term>, RuleStop>
    requires { OpensWell body.now terms.now arguments.now }
    ensures exact { RuleGives (λ o. o) result (meaning_by body.now terms.now arguments.now) }
{
    match body {
        FunBody::Whole(whole) => Ok(Some(term_with(alloc, whole, arguments, steps)?)),
        FunBody::Cases(cases) => by_cases(alloc, cases.as_slice(), terms, arguments, steps),
    }
}

/// What a call of the FUN at these terms means, if it means anything: its term, or the term of the case for the constructor of
/// the first of them, with the terms in place of its arguments and of the names of the case's pattern.
///
/// Terms of another number or sort than the arguments are refused, as in `pairs`, and what is beyond the limits.
pub fn meaning<L: Ledger>(
    alloc: Global,
    own: &Fun,
    terms: &[Term],
    steps: &mut Steps<L>,
) -> Result<Option<Term>, RuleStop>
    requires { TakesTerms own.now }
    ensures exact { RuleGives (λ o. o) result (meaning_lem own.now terms.now) }
{
    let arguments = pairs(alloc, own.arguments.as_slice(), terms)?;
    by_body(alloc, &own.body, terms, arguments.as_slice(), steps)
}
