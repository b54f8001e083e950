//! The sorts that are expected of a command's terms.
ghost use Rattle.std.specs.Prelude.{◌≡◌, IfOk};
ghost use Rattle.std.specs.Option.{option_copied};
ghost use Rattle.floyd_clauses.specs.Clauses.{case_for as case_for_lem};
ghost use Rattle.floyd_play_reading.specs.Expected as expecting;
ghost use Rattle.floyd_play_terms.specs.Expected.{expected as sort_by};

use crate::laws::law_named;
use floyd_assert_trees::{Binder, Defs, Pred, PredBody, PredCase, SpecTable};
use floyd_clauses::is_of;
use floyd_goal::{Said, context_of, hypothesis_at, says};
use floyd_goal_trees::Goal;
use floyd_play_expected::expected_binders;
use floyd_play_terms::Expected;
use floyd_text::{Name, Rule};
use floyd_tree::{Formula, Sort, Term, head};
use std::alloc::AllocError;

/// What is expected of the arguments of the law of that name.
fn forms_of(name: &Name) -> Expected<'static>
    ensures { sort_by result ≡ expecting.of_law name.now }
{
    match law_named(name) {
        Some(law) => Expected::Forms(law.arguments()),
        None => Expected::Forms(&[]),
    }
}

/// What is expected of the first list of terms of a command that names this.
pub(crate) fn expected_terms<'a>(
    rule: Rule,
    goal: &Goal,
    name: &Name,
    defs: &'a Defs,
    specs: &'a SpecTable,
) -> Expected<'a>
    ensures { sort_by result ≡ expecting.expected defs.now specs.now rule goal.now name.now }
{
    match rule {
        Rule::Law => forms_of(name),
        _ => Expected::Binders(expected_binders(rule, goal, name, defs, specs)),
    }
}

/// The case for the constructor at the head of a term.
fn case_for<'a>(cases: &'a [PredCase], t: &Term) -> Option<&'a PredCase>
    ensures { option_copied result ≡ case_for_lem cases.now t.now }
{
    'cases: for case in cases {
        if is_of(&case.pattern, head(t)) {
            return Some(case);
        }
    }
    None
}

fn of_case(case: Option<&PredCase>) -> &[Binder]
    ensures { result.now ≡ expecting.of_case (option_copied case.entry) }
{
    match case {
        Some(case) => case.body.existentials.as_slice(),
        None => &[],
    }
}

fn existentials_by<'a>(body: &'a PredBody, terms: &[Term]) -> &'a [Binder]
    ensures { result.now ≡ expecting.existentials_by body.now terms.now }
{
    match body {
        PredBody::Whole(whole) => whole.existentials.as_slice(),
        PredBody::Cases(cases) => match terms {
            [] => &[],
            [term, ..] => of_case(case_for(cases.as_slice(), term)),
        },
    }
}

fn existentials_of<'a>(home: u32, pred: Option<&'a Pred>, terms: &[Term]) -> &'a [Binder]
    ensures { result.now ≡ expecting.existentials_of home (option_copied pred.entry) terms.now }
{
    match pred {
        Some(pred) => {
            if pred.opaque && pred.module != home {
                &[]
            } else {
                existentials_by(&pred.body, terms)
            }
        }
        None => &[],
    }
}

/// What is expected of the second list of `fold`.
pub(crate) fn expected_more<'a>(name: &Name, terms: &[Term], defs: &'a Defs) -> Expected<'a>
    ensures { sort_by result ≡ expecting.expected_more defs.now name.now terms.now }
{
    Expected::Binders(existentials_of(defs.home, defs.preds.get(name), terms))
}

fn first_sort(binders: &[Binder]) -> Result<Option<Sort>, AllocError>
    ensures { IfOk result (λ s. s ≡ expecting.first_sort binders.now) }
{
    match binders {
        [first, ..] => Ok(Some(first.sort.share()?)),
        [] => Ok(None),
    }
}

/// The sort of what there is by a formula.
fn witness_in(target: &Formula) -> Result<Option<Sort>, AllocError>
    ensures { IfOk result (λ s. s ≡ expecting.witness_in target.now) }
{
    match says(target) {
        Said::ThereIs(_, sort, _) => Ok(Some(sort.share()?)),
        _ => Ok(None),
    }
}

/// The sort that is expected of the term of `Exists`.
pub(crate) fn witness_sort(goal: &Goal) -> Result<Option<Sort>, AllocError>
    ensures { IfOk result (λ s. s ≡ expecting.witness_sort goal.now) }
{
    match goal {
        Goal::Run(_) => Ok(None),
        Goal::Entail(entail) => first_sort(entail.target.get().existentials.as_slice()),
        Goal::Pure(pure) => witness_in(&pure.target),
    }
}

/// The sort of what a formula speaks of.
fn instance_in(hypothesis: &Formula) -> Result<Option<Sort>, AllocError>
    ensures { IfOk result (λ s. s ≡ expecting.instance_in hypothesis.now) }
{
    match says(hypothesis) {
        Said::ForAll(_, sort, _) => Ok(Some(sort.share()?)),
        _ => Ok(None),
    }
}

/// The sort that is expected of the term of `specialize`.
pub(crate) fn instance_sort(goal: &Goal, number: u32) -> Result<Option<Sort>, AllocError>
    ensures { IfOk result (λ s. s ≡ expecting.instance_sort goal.now number) }
{
    match hypothesis_at(context_of(goal), number) {
        Some(hypothesis) => instance_in(hypothesis),
        None => Ok(None),
    }
}
