ghost use Rattle.std.specs.Prelude.{◌≡◌, bytes_eq};
ghost use Rattle.std.specs.List.{list_any};
ghost use Rattle.floyd_entail_lemmas.specs.Hypothesis.{AppliesHypothesis, Row, SortsAgree, bad_induction as bad_induction_lem, hypothesis as hypothesis_lem, hypothesis_by as hypothesis_by_lem, is_part as is_part_lem, part_at as part_at_lem};
ghost use Rattle.floyd_goal.specs.Answers.{IsAnswer};
ghost use Rattle.floyd_text.specs.Gives.{RuleGives};

use crate::applying::applies_lemma;
use floyd_assert_trees::{Defs, Lemma, SpecTable};
use floyd_goal::{Args, Goal, GoalList, Mark, context_of, intros_first, is_pending};
use floyd_text::{Code, Name, No, RuleStop, Shown, Steps};
use floyd_tree::{Head, Term, head};
use std::alloc::Global;
use std::sync::ledger::Ledger;

/// The refusal where there is no such hypothesis of an induction.
fn bad_induction() -> No
    ensures { result ≡ bad_induction_lem }
{
    No {
        code: Code::BadInduction,
        shown: Shown::Nothing,
    }
}

fn is_among(x: &Name, names: &[Name]) -> bool
    ensures { result ≡ list_any (bytes_eq x.now) names.now }
{
    names.iter().any(|name| x == name)
}

/// Whether it is the head of a variable that is a part.
fn is_part(parts: &[Name], head: &Head) -> bool
    ensures { result ≡ is_part_lem parts.now head.now }
{
    match head {
        Head::Variable(x, _) => is_among(x, parts),
        _ => false,
    }
}

/// Whether there is a variable at that place that is a part.
fn part_at(parts: &[Name], terms: &[Term], place: u32) -> bool
    ensures { result ≡ part_at_lem parts.now terms.now place }
{
    match terms.get(place as usize) {
        None => false,
        Some(t) => is_part(parts, head(t)),
    }
}

/// The lemma of the mark, where the term at the variable's place is a part.
fn hypothesis_by<'a>(defs: &'a Defs, mark: &Mark, terms: &[Term]) -> Result<&'a Lemma, RuleStop>
    ensures exact { RuleGives (λ l. l.now) result (hypothesis_by_lem defs.now mark.now terms.now) }
{
    match mark {
        Mark::Plain => Err(RuleStop::No(bad_induction())),
        Mark::Start(_) => Err(RuleStop::No(bad_induction())),
        Mark::Induction(name, place, parts) => {
            if !part_at(parts.as_slice(), terms, *place) {
                return Err(RuleStop::No(bad_induction()));
            }
            match defs.lemmas.get(name) {
                None => Err(RuleStop::No(bad_induction())),
                Some(lemma) => Ok(lemma),
            }
        }
    }
}

#[tactic(auto, using(floyd_goal_parts::proofs::RowLemmas::row_stops, floyd_goal_parts::proofs::RowLemmas::row_goes))]
fn applies_hypothesis<L: Ledger>(
    alloc: Global,
    goal: &Goal,
    args: &Args,
    defs: &Defs,
    steps: &mut Steps<L>,
) -> Result<GoalList, RuleStop>
    requires sorts { SortsAgree defs.now goal.now args.now }
    ensures exact { IsAnswer (AppliesHypothesis defs.now goal.now args.now) result }
{
    let lemma = hypothesis_by(defs, &context_of(goal).mark, args.terms.as_slice())?;
    applies_lemma(alloc, goal, lemma, &args.terms, steps)
}

/// Uses the lemma whose proof by induction the goal is in, as `apply` does, where the term at the place of the variable of the
/// induction is a part of what this variable stood for.
///
/// After pending existentials a goal that is in no such proof, fewer terms than that place, and another term there are 730.
/// Then all is as for `apply`.
#[tactic(auto, using(crate::proofs::ApplyLemmas::ih_stops, crate::proofs::ApplyLemmas::ih_goes))]
pub fn do_apply_ih<L: Ledger>(
    alloc: Global,
    goal: &Goal,
    args: &Args,
    defs: &Defs,
    _specs: &SpecTable,
    steps: &mut Steps<L>,
) -> Result<GoalList, RuleStop>
    requires sorts { SortsAgree defs.now goal.now args.now }
    ensures exact { IsAnswer (Row defs.now goal.now args.now) result }
{
    if is_pending(goal) {
        return Err(RuleStop::No(intros_first()));
    }
    applies_hypothesis(alloc, goal, args, defs, steps)
}
