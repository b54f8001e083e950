ghost use Rattle.std.specs.Prelude.{◌≡◌, IfOk, Ok};
ghost use Rattle.floyd_assert_changes.specs.Changed.{AssertionSortsAgree};
ghost use Rattle.floyd_entail_lemmas.specs.Apply.{Applies, AppliesAt, AppliesLemma, AppliesNamed, AppliesSides, AppliesWith, IsConcluded, Removes, Row, SidesAgree, SortsAgree, TakesTerms, is_beyond as is_beyond_lem, is_plain as is_plain_lem, not_proved as not_proved_lem, proved as proved_lem, right_at as right_at_lem, used as used_lem, used_source as used_source_lem};
ghost use Rattle.floyd_goal.specs.Answers.{IsAnswer};
ghost use Rattle.floyd_text.specs.Gives.{RuleGives};
ghost use Rattle.floyd_truth.specs.Replace.{puts};

use floyd_assert::{
    Assertion, Defs, SepList, SpecTable, remove_parts, share_binders, share_formulas, share_locals,
    share_parts,
};
use floyd_assert_changes::{change_assertion, rename_apart};
use floyd_assert_instances::pairs;
use floyd_assert_trees::Lemma;
use floyd_entail_predicates::settled;
use floyd_goal::is_pending;
use floyd_goal_parts::{
    Args, Goal, GoalList, Sides, after_side, context_of, enriched, in_context, intros_first,
    one_goal, side_in, source_of, wrong_goal,
};
use floyd_text::{Code, Name, No, RuleStop, Shown, Steps};
use floyd_tree::{Term, TermList};
use std::alloc::{AllocError, Global};
use std::sync::ledger::Ledger;

/// The refusal of a lemma that is not proved.
fn not_proved(name: &Name) -> Result<No, AllocError>
    ensures { IfOk result (λ no. no ≡ not_proved_lem name.now) }
{
    Ok(No {
        code: Code::NotYetProved,
        shown: Shown::Name(name.share()?),
    })
}

/// The lemma of that name, if it is proved.
fn proved<'a>(defs: &'a Defs, name: &Name) -> Result<&'a Lemma, RuleStop>
    ensures exact { RuleGives (λ l. l.now) result (proved_lem defs.now name.now) }
{
    match defs.proved.get(name) {
        None => Err(RuleStop::No(not_proved(name)?)),
        Some(_) => match defs.lemmas.get(name) {
            None => Err(RuleStop::No(not_proved(name)?)),
            Some(lemma) => Ok(lemma),
        },
    }
}

/// Whether it says nothing of memory and nothing of unnamed data.
fn is_plain(a: &Assertion) -> bool
    ensures { result ≡ is_plain_lem a.now }
{
    a.existentials.as_slice().len() == 0 && a.parts.as_slice().len() == 0
}

/// Whether the goal speaks of formulas alone and the lemma of more.
fn is_beyond(goal: &Goal, lemma: &Lemma) -> bool
    ensures { result ≡ is_beyond_lem goal.now lemma.now }
{
    match goal {
        Goal::Pure(_) => !(is_plain(&lemma.left) && is_plain(&lemma.right)),
        Goal::Run(_) => false,
        Goal::Entail(_) => false,
    }
}

/// The source with these parts, and behind them those of a lemma's right side.
fn used_source(
    alloc: Global,
    source: &Assertion,
    right: &Assertion,
    rest: SepList,
) -> Result<Assertion, AllocError>
    ensures { IfOk result (λ a. a ≡ used_source_lem source.now right.now rest) }
{
    let existentials = share_binders(alloc, right.existentials.as_slice())?;
    let mut props = share_formulas(alloc, source.props.as_slice())?;
    props.append(share_formulas(alloc, right.props.as_slice())?)?;
    let locals = share_locals(alloc, source.locals.as_slice())?;
    let mut parts = rest;
    parts.append(share_parts(alloc, right.parts.as_slice())?)?;
    Ok(Assertion {
        existentials,
        props,
        locals,
        parts,
    })
}

/// The goal of the side formulas, and the goal from the source with the right side.
fn used(
    alloc: Global,
    goal: &Goal,
    source: &Assertion,
    right: &Assertion,
    sides: Sides,
    rest: SepList,
) -> Result<GoalList, AllocError>
    ensures { IfOk result (λ gs. used_lem goal.now source.now right.now sides (Ok rest) ≡ Ok gs) }
{
    let (kept, side) = sides.into_parts();
    let whole = used_source(alloc, source, right, rest)?;
    let next = settled(alloc, goal, kept, whole)?;
    after_side(alloc, side, one_goal(alloc, next)?)
}

/// The same once these parts are taken out of the source's.
fn removes(
    alloc: Global,
    goal: &Goal,
    source: &Assertion,
    parts: &SepList,
    right: &Assertion,
    sides: Sides,
) -> Result<GoalList, RuleStop>
    ensures exact { IsAnswer (Removes goal.now source.now parts.now right.now sides) result }
{
    let rest = remove_parts(alloc, &source.parts, parts)?;
    Ok(used(alloc, goal, source, right, sides, rest)?)
}

/// The goal of the side formulas, and the goal with the right side's formulas as hypotheses.
fn concluded(
    alloc: Global,
    goal: &Goal,
    right: &Assertion,
    sides: Sides,
) -> Result<GoalList, AllocError>
    ensures { IfOk result (λ gs. IsConcluded goal.now right.now sides (Ok gs)) }
{
    let (kept, side) = sides.into_parts();
    let mut more = kept;
    more.append(share_formulas(alloc, right.props.as_slice())?)?;
    let next = in_context(goal, enriched(alloc, context_of(goal), more)?)?;
    after_side(alloc, side, one_goal(alloc, next)?)
}

/// The same from the source, where the goal has one.
#[tactic(auto, using(floyd_goal_parts::proofs::RowLemmas::row_stops, floyd_goal_parts::proofs::RowLemmas::row_goes))]
fn applies_sides(
    alloc: Global,
    goal: &Goal,
    left: &Assertion,
    right: &Assertion,
    sides: Sides,
) -> Result<GoalList, RuleStop>
    ensures exact { IsAnswer (AppliesSides goal.now left.now right.now sides) result }
{
    match goal {
        Goal::Pure(_) => Ok(concluded(alloc, goal, right, sides)?),
        Goal::Run(_) => removes(alloc, goal, source_of(goal)?, &left.parts, right, sides),
        Goal::Entail(_) => removes(alloc, goal, source_of(goal)?, &left.parts, right, sides),
    }
}

/// The same with the side formulas to be made.
fn applies<L: Ledger>(
    alloc: Global,
    goal: &Goal,
    left: &Assertion,
    right: &Assertion,
    steps: &mut Steps<L>,
) -> Result<GoalList, RuleStop>
    ensures exact { IsAnswer (Applies goal.now left.now right.now) result }
{
    let sides = side_in(alloc, context_of(goal), left.props.as_slice(), steps)?;
    applies_sides(alloc, goal, left, right, sides)
}

/// The right side at these terms, with existentials that are no variables of the goal.
#[tactic(auto, using(floyd_fieldpath::proofs::WrittenLemmas::stops))]
fn right_at<L: Ledger>(
    alloc: Global,
    goal: &Goal,
    lemma: &Lemma,
    by: &[(Name, Term)],
    steps: &mut Steps<L>,
) -> Result<Assertion, RuleStop>
    requires { AssertionSortsAgree (puts by.now) lemma.now.right }
    ensures exact { RuleGives (λ a. a) result (right_at_lem goal.now lemma.now by.now) }
{
    let right = change_assertion(alloc, &lemma.right, by, steps)?;
    let variables = context_of(goal).variables.get().as_slice();
    rename_apart(alloc, &right, variables, steps)
}

#[tactic(auto, using(floyd_goal_parts::proofs::RowLemmas::row_stops, floyd_goal_parts::proofs::RowLemmas::row_goes, crate::proofs::ApplyLemmas::right_stops, crate::proofs::ApplyLemmas::right_goes))]
fn applies_at<L: Ledger>(
    alloc: Global,
    goal: &Goal,
    lemma: &Lemma,
    by: &[(Name, Term)],
    steps: &mut Steps<L>,
) -> Result<GoalList, RuleStop>
    requires sorts { SidesAgree lemma.now by.now }
    ensures exact { IsAnswer (AppliesAt goal.now lemma.now by.now) result }
{
    let left = change_assertion(alloc, &lemma.left, by, steps)?;
    let right = right_at(alloc, goal, lemma, by, steps)?;
    applies(alloc, goal, &left, &right, steps)
}

/// The same, unless the goal speaks of formulas alone and the lemma of more.
#[tactic(auto, using(crate::proofs::ApplyLemmas::beyond_stops, crate::proofs::ApplyLemmas::within_goes))]
fn applies_with<L: Ledger>(
    alloc: Global,
    goal: &Goal,
    lemma: &Lemma,
    by: &[(Name, Term)],
    steps: &mut Steps<L>,
) -> Result<GoalList, RuleStop>
    requires sorts { SidesAgree lemma.now by.now }
    ensures exact { IsAnswer (AppliesWith goal.now lemma.now by.now) result }
{
    if is_beyond(goal, lemma) {
        return Err(RuleStop::No(wrong_goal()));
    }
    applies_at(alloc, goal, lemma, by, steps)
}

#[tactic(auto, using(floyd_goal_parts::proofs::RowLemmas::row_stops, floyd_goal_parts::proofs::RowLemmas::row_goes))]
pub(crate) fn applies_lemma<L: Ledger>(
    alloc: Global,
    goal: &Goal,
    lemma: &Lemma,
    terms: &TermList,
    steps: &mut Steps<L>,
) -> Result<GoalList, RuleStop>
    requires sorts { TakesTerms lemma.now terms.now }
    ensures exact { IsAnswer (AppliesLemma goal.now terms.now lemma.now) result }
{
    let by = pairs(alloc, lemma.with.as_slice(), terms.as_slice())?;
    applies_with(alloc, goal, lemma, by.as_slice(), steps)
}

#[tactic(auto, using(floyd_goal_parts::proofs::RowLemmas::row_stops, floyd_goal_parts::proofs::RowLemmas::row_goes))]
fn applies_named<L: Ledger>(
    alloc: Global,
    goal: &Goal,
    args: &Args,
    defs: &Defs,
    steps: &mut Steps<L>,
) -> Result<GoalList, RuleStop>
    requires sorts { SortsAgree defs.now args.now }
    ensures exact { IsAnswer (AppliesNamed defs.now goal.now args.now) result }
{
    let lemma = proved(defs, &args.name)?;
    applies_lemma(alloc, goal, lemma, &args.terms, steps)
}

/// Uses a lemma at these terms for its variables of WITH. The PROP of its left side are side formulas, its parts are taken out
/// of the source's, and the right side's parts stand behind the others. The right side's PROP are hypotheses, unless it has
/// existentials: these stand over the whole source then, and those that have the name of a variable of the goal get new names.
/// On a Pure goal the right side's PROP are hypotheses.
///
/// After pending existentials a lemma that is not proved is 728, with its name; terms of another number or sort than its
/// variables are 521 and 503; on a Pure goal a lemma with parts or existentials is 701; a part of the left side that the source
/// lacks is 741, with its number there. A term or formula beyond the limits is 802: the lemma at its terms is written first.
#[tactic(auto, using(crate::proofs::ApplyLemmas::pending_stops, crate::proofs::ApplyLemmas::named_goes))]
pub fn do_apply<L: Ledger>(
    alloc: Global,
    goal: &Goal,
    args: &Args,
    defs: &Defs,
    _specs: &SpecTable,
    steps: &mut Steps<L>,
) -> Result<GoalList, RuleStop>
    requires sorts { SortsAgree defs.now args.now }
    ensures exact { IsAnswer (Row defs.now goal.now args.now) result }
{
    if is_pending(goal) {
        return Err(RuleStop::No(intros_first()));
    }
    applies_named(alloc, goal, args, defs, steps)
}
