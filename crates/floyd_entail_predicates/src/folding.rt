ghost use Rattle.std.specs.Prelude.{◌≡◌, IfOk, Ok};
ghost use Rattle.floyd_assert_changes.specs.Changed.{AssertionSortsAgree, assertion_with};
ghost use Rattle.floyd_entail_predicates.specs.Fold.{ExistentialsAgree, Folds, FoldsClause, FoldsFrom, Removes, Row, SortsAgree, below as below_lem, folded as folded_lem, folded_source as folded_source_lem};
ghost use Rattle.floyd_goal.specs.Answers.{IsAnswer};
ghost use Rattle.floyd_text.specs.Gives.{RuleGives};
ghost use Rattle.floyd_truth.specs.Replace.{puts};

use floyd_assert::{
    Assertion, BinderList, Defs, Sep, SepList, SpecTable, remove_parts, share_formulas,
    share_locals, share_parts, share_terms,
};
use floyd_assert_changes::change_assertion;
use floyd_assert_instances::pairs;
use floyd_clauses::clause;
use floyd_goal_parts::{
    Args, Goal, GoalList, Sides, after_side, context_of, enriched, one_from, side_in, source_of,
    with_parts,
};
use floyd_text::{Name, RuleStop, Steps};
use floyd_tree::Term;
use std::alloc::{AllocError, Global};
use std::sync::ledger::Ledger;

/// What stands below the existentials of a clause.
fn below(alloc: Global, clause: &Assertion) -> Result<Assertion, AllocError>
    ensures { IfOk result (λ a. a ≡ below_lem clause.now) }
{
    let props = share_formulas(alloc, clause.props.as_slice())?;
    let locals = share_locals(alloc, clause.locals.as_slice())?;
    let parts = share_parts(alloc, clause.parts.as_slice())?;
    Ok(Assertion {
        existentials: BinderList::new(alloc),
        props,
        locals,
        parts,
    })
}

/// The source with these parts, and behind them the predicate.
fn folded_source(
    alloc: Global,
    args: &Args,
    source: &Assertion,
    rest: SepList,
) -> Result<Assertion, AllocError>
    ensures { IfOk result (λ a. a ≡ folded_source_lem args.now source.now rest) }
{
    let name = args.name.share()?;
    let terms = share_terms(alloc, args.terms.as_slice())?;
    let mut parts = rest;
    parts.push(Sep::Predicate(name, terms))?;
    with_parts(alloc, source, parts)
}

/// The goal of the side formulas, and the goal with the predicate.
fn folded(
    alloc: Global,
    goal: &Goal,
    args: &Args,
    source: &Assertion,
    sides: Sides,
    rest: SepList,
) -> Result<GoalList, AllocError>
    ensures { IfOk result (λ gs. folded_lem goal.now args.now source.now sides (Ok rest) ≡ Ok gs) }
{
    let (kept, side) = sides.into_parts();
    let whole = folded_source(alloc, args, source, rest)?;
    let context = enriched(alloc, context_of(goal), kept)?;
    after_side(alloc, side, one_from(alloc, goal, context, whole)?)
}

/// The same once these parts are taken out of the source's.
fn removes(
    alloc: Global,
    goal: &Goal,
    args: &Args,
    source: &Assertion,
    parts: &SepList,
    sides: Sides,
) -> Result<GoalList, RuleStop>
    ensures exact { IsAnswer (Removes goal.now args.now source.now parts.now sides) result }
{
    let rest = remove_parts(alloc, &source.parts, parts)?;
    Ok(folded(alloc, goal, args, source, sides, rest)?)
}

/// The same with a clause without existentials.
fn folds<L: Ledger>(
    alloc: Global,
    goal: &Goal,
    args: &Args,
    source: &Assertion,
    clause: &Assertion,
    steps: &mut Steps<L>,
) -> Result<GoalList, RuleStop>
    ensures exact { IsAnswer (Folds goal.now args.now source.now clause.now) result }
{
    let sides = side_in(alloc, context_of(goal), clause.props.as_slice(), steps)?;
    removes(alloc, goal, args, source, &clause.parts, sides)
}

/// What stands below the existentials of a clause, with these terms for them.
fn instance_of<L: Ledger>(
    alloc: Global,
    clause: &Assertion,
    by: &[(Name, Term)],
    steps: &mut Steps<L>,
) -> Result<Assertion, RuleStop>
    requires { AssertionSortsAgree (puts by.now) (below_lem clause.now) }
    ensures exact { RuleGives (λ a. a) result (assertion_with by.now (below_lem clause.now)) }
{
    let whole = below(alloc, clause)?;
    change_assertion(alloc, &whole, by, steps)
}

/// The same with the terms that the command is given for the existentials of a clause.
fn folds_clause<L: Ledger>(
    alloc: Global,
    goal: &Goal,
    args: &Args,
    source: &Assertion,
    clause: &Assertion,
    steps: &mut Steps<L>,
) -> Result<GoalList, RuleStop>
    requires { ExistentialsAgree clause.now args.now.more }
    ensures exact { IsAnswer (FoldsClause goal.now args.now source.now clause.now) result }
{
    let by = pairs(alloc, clause.existentials.as_slice(), args.more.as_slice())?;
    let instance = instance_of(alloc, clause, by.as_slice(), steps)?;
    folds(alloc, goal, args, source, &instance, steps)
}

#[tactic(auto, using(floyd_goal_parts::proofs::RowLemmas::row_stops, floyd_goal_parts::proofs::RowLemmas::row_goes))]
fn folds_from<L: Ledger>(
    alloc: Global,
    goal: &Goal,
    args: &Args,
    defs: &Defs,
    source: &Assertion,
    steps: &mut Steps<L>,
) -> Result<GoalList, RuleStop>
    requires sorts { SortsAgree defs.now args.now }
    ensures exact { IsAnswer (FoldsFrom defs.now goal.now args.now source.now) result }
{
    let clause = clause(alloc, defs, &args.name, &args.terms, steps)?;
    folds_clause(alloc, goal, args, source, &clause, steps)
}

/// Puts a predicate at these terms behind the other parts, in place of the parts of its clause, where the second list has
/// terms for the clause's existentials. The clause's PROP is a side formula.
///
/// After the kind of goal and pending existentials, a name that is no predicate's is 701; an opaque one of another module
/// is 723; terms of another number or sort than the arguments are 521 and 503; no clause for the first term is 722; terms
/// of another number or sort than the clause's existentials are 521 and 503; a part of the clause that the source lacks is
/// 741, with its number in the clause. A term or formula beyond the limits is 802 where it is written.
#[tactic(auto, using(floyd_goal_parts::proofs::RowLemmas::row_stops, floyd_goal_parts::proofs::RowLemmas::row_goes))]
pub fn do_fold<L: Ledger>(
    alloc: Global,
    goal: &Goal,
    args: &Args,
    defs: &Defs,
    _specs: &SpecTable,
    steps: &mut Steps<L>,
) -> Result<GoalList, RuleStop>
    requires sorts { SortsAgree defs.now args.now }
    ensures exact { IsAnswer (Row defs.now goal.now args.now) result }
{
    let source = source_of(goal)?;
    folds_from(alloc, goal, args, defs, source, steps)
}
