ghost use Rattle.std.specs.Prelude.{◌≡◌, IfOk, Ok};
ghost use Rattle.floyd_entail_predicates.specs.Unfold.{IsOpened, Opens, Row, SortsAgree, opened_source as opened_source_lem};
ghost use Rattle.floyd_goal.specs.Answers.{IsAnswer};

use crate::settling::settled;
use floyd_assert::{
    Assertion, Defs, SpecTable, share_binders, share_formulas, share_locals, share_parts,
};
use floyd_assert_changes::rename_apart;
use floyd_clauses::unfold;
use floyd_goal_parts::{
    Args, Goal, GoalList, context_of, in_place, one_goal, part_number, part_of,
};
use floyd_text::{RuleStop, Steps};
use floyd_tree::FormulaList;
use std::alloc::{AllocError, Global};
use std::sync::ledger::Ledger;

/// The source with a clause in place of the part of that number.
fn opened_source(
    alloc: Global,
    number: u32,
    source: &Assertion,
    clause: &Assertion,
) -> Result<Assertion, AllocError>
    ensures { IfOk result (λ a. a ≡ opened_source_lem number source.now clause.now) }
{
    let existentials = share_binders(alloc, clause.existentials.as_slice())?;
    let mut props = share_formulas(alloc, source.props.as_slice())?;
    props.append(share_formulas(alloc, clause.props.as_slice())?)?;
    let locals = share_locals(alloc, source.locals.as_slice())?;
    let new = share_parts(alloc, clause.parts.as_slice())?;
    let parts = in_place(alloc, number, new, source.parts.as_slice())?;
    Ok(Assertion {
        existentials,
        props,
        locals,
        parts,
    })
}

/// The goal from that source.
fn opened(
    alloc: Global,
    goal: &Goal,
    number: u32,
    source: &Assertion,
    clause: &Assertion,
) -> Result<GoalList, AllocError>
    ensures { IfOk result (λ gs. IsOpened goal.now number source.now clause.now (Ok gs)) }
{
    let whole = opened_source(alloc, number, source, clause)?;
    one_goal(alloc, settled(alloc, goal, FormulaList::new(alloc), whole)?)
}

/// The same, where the clause's existentials may have names of variables of the goal.
fn opens<L: Ledger>(
    alloc: Global,
    goal: &Goal,
    number: u32,
    source: &Assertion,
    clause: &Assertion,
    steps: &mut Steps<L>,
) -> Result<GoalList, RuleStop>
    ensures exact { IsAnswer (Opens goal.now number source.now clause.now) result }
{
    let variables = context_of(goal).variables.get().as_slice();
    let apart = rename_apart(alloc, clause, variables, steps)?;
    Ok(opened(alloc, goal, number, source, &apart)?)
}

/// Puts the clause of a predicate in its place. The clause's PROP are hypotheses, unless it has existentials: these stand
/// over the whole source then, and those that have the name of a variable of the goal get new names.
///
/// After the kind of goal, pending existentials and the part's number, a part that is no predicate is 701; an opaque one of
/// another module is 723; one with cases whose first argument has no constructor at its head is 722; and a term or formula
/// beyond the limits is 802.
#[tactic(auto, using(floyd_goal_parts::proofs::RowLemmas::row_stops, crate::proofs::UnfoldLemmas::part_stops, crate::proofs::UnfoldLemmas::part_goes))]
pub fn do_unfold<L: Ledger>(
    alloc: Global,
    goal: &Goal,
    args: &Args,
    defs: &Defs,
    _specs: &SpecTable,
    steps: &mut Steps<L>,
) -> Result<GoalList, RuleStop>
    requires sorts { SortsAgree defs.now goal.now args.now }
    ensures exact { IsAnswer (Row defs.now goal.now args.now) result }
{
    let number = part_number(args.target);
    let (source, part) = part_of(goal, number)?;
    let clause = unfold(alloc, defs, part, steps)?;
    opens(alloc, goal, number, source, &clause, steps)
}
