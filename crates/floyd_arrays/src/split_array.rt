ghost use Rattle.std.specs.Prelude.{◌≡◌, ◌∷◌, [], IfOk};
ghost use Rattle.floyd_arrays.specs.SplitArray.{Row, back as back_lem, back_at as back_at_lem, back_of as back_of_lem, front as front_lem, split as split_lem, split_at as split_at_lem, split_from as split_from_lem, split_part as split_part_lem, two_parts as two_parts_lem, within as within_lem};
ghost use Rattle.floyd_goal.specs.Answers.{IsAnswer};
ghost use Rattle.floyd_text.specs.Gives.{RuleGives};

use crate::arrays::{ArrayPart, array_of, behind, piece, slice};
use floyd_assert::{Defs, Sep, SepList, SpecTable};
use floyd_ctypes::StructTable;
use floyd_fieldpath::literal;
use floyd_folding::folded;
use floyd_goal_parts::{Args, Goal, GoalList, Plan, part_number, part_of, put_under};
use floyd_goal_plans::{first_term, two_bounds};
use floyd_text::{RuleStop, Steps};
use floyd_tree::{FormulaList, Operator, Term, TermList};
use std::alloc::{AllocError, Global};
use std::sync::ledger::Ledger;

/// The first m elements.
#[tactic(auto, using(floyd_fieldpath::proofs::WrittenLemmas::goes_on, floyd_fieldpath::proofs::WrittenLemmas::stops))]
fn front<L: Ledger>(
    alloc: Global,
    zero: &Term,
    m: &Term,
    a: &ArrayPart,
    steps: &mut Steps<L>,
) -> Result<Sep, RuleStop>
    ensures exact { RuleGives (λ p. p) result (front_lem zero.now m.now a.now) }
{
    let value = slice(alloc, zero, m, &a.value, steps)?;
    Ok(piece(alloc, a, m, &a.region.root, value)?)
}

/// The n others, from that address on.
#[tactic(auto, using(floyd_fieldpath::proofs::WrittenLemmas::goes_on, floyd_fieldpath::proofs::WrittenLemmas::stops))]
fn back_at<L: Ledger>(
    alloc: Global,
    m: &Term,
    a: &ArrayPart,
    n: &Term,
    root: &Term,
    steps: &mut Steps<L>,
) -> Result<Sep, RuleStop>
    ensures exact { RuleGives (λ p. p) result (back_at_lem m.now a.now n.now root.now) }
{
    let value = slice(alloc, m, &a.count, &a.value, steps)?;
    Ok(piece(alloc, a, n, root, value)?)
}

/// The n others.
#[tactic(auto, using(floyd_fieldpath::proofs::WrittenLemmas::goes_on, floyd_fieldpath::proofs::WrittenLemmas::stops))]
fn back_of<L: Ledger>(
    alloc: Global,
    structs: &StructTable,
    m: &Term,
    a: &ArrayPart,
    n: &Term,
    steps: &mut Steps<L>,
) -> Result<Sep, RuleStop>
    ensures exact { RuleGives (λ p. p) result (back_of_lem structs.now m.now a.now n.now) }
{
    let root = behind(alloc, structs, a, m, steps)?;
    back_at(alloc, m, a, n, &root, steps)
}

/// The others.
#[tactic(auto, using(floyd_fieldpath::proofs::WrittenLemmas::goes_on, floyd_fieldpath::proofs::WrittenLemmas::stops))]
fn back<L: Ledger>(
    alloc: Global,
    structs: &StructTable,
    m: &Term,
    a: &ArrayPart,
    steps: &mut Steps<L>,
) -> Result<Sep, RuleStop>
    ensures exact { RuleGives (λ p. p) result (back_lem structs.now m.now a.now) }
{
    let n = folded(alloc, Operator::Sub, &a.count, m, steps)?;
    back_of(alloc, structs, m, a, &n, steps)
}

fn two_parts(alloc: Global, p: Sep, q: Sep) -> Result<SepList, AllocError>
    ensures { IfOk result (λ ps. ps ≡ p ∷ q ∷ []) }
{
    let mut parts = SepList::new(alloc);
    parts.push(p)?;
    parts.push(q)?;
    Ok(parts)
}

/// The first m elements, and the others.
fn halves<L: Ledger>(
    alloc: Global,
    structs: &StructTable,
    zero: &Term,
    m: &Term,
    a: &ArrayPart,
    steps: &mut Steps<L>,
) -> Result<SepList, RuleStop>
    ensures exact { RuleGives (λ ps. ps) result (two_parts_lem (front_lem zero.now m.now a.now) (back_lem structs.now m.now a.now)) }
{
    let first = front(alloc, zero, m, a, steps)?;
    let second = back(alloc, structs, m, a, steps)?;
    Ok(two_parts(alloc, first, second)?)
}

/// That m is between 0 and the number of elements.
fn within<L: Ledger>(
    alloc: Global,
    zero: &Term,
    m: &Term,
    a: &ArrayPart,
    steps: &mut Steps<L>,
) -> Result<FormulaList, RuleStop>
    ensures exact { RuleGives (λ fs. fs) result (within_lem zero.now m.now a.now) }
{
    two_bounds(alloc, zero, m, m, &a.count, steps)
}

/// The two arrays in place of one, and their side formulas, where this is the literal 0.
fn split_from<L: Ledger>(
    alloc: Global,
    structs: &StructTable,
    zero: &Term,
    m: &Term,
    a: &ArrayPart,
    steps: &mut Steps<L>,
) -> Result<Plan, RuleStop>
    ensures exact { RuleGives (λ plan. plan) result (split_from_lem structs.now zero.now m.now a.now) }
{
    let sides = within(alloc, zero, m, a, steps)?;
    let new = halves(alloc, structs, zero, m, a, steps)?;
    Ok(Plan { sides, new })
}

fn split_at<L: Ledger>(
    alloc: Global,
    structs: &StructTable,
    m: &Term,
    a: &ArrayPart,
    steps: &mut Steps<L>,
) -> Result<Plan, RuleStop>
    ensures exact { RuleGives (λ plan. plan) result (split_at_lem structs.now m.now a.now) }
{
    let zero = literal(alloc, 0, steps)?;
    split_from(alloc, structs, &zero, m, a, steps)
}

#[tactic(auto, using(floyd_fieldpath::proofs::WrittenLemmas::goes_on, floyd_fieldpath::proofs::WrittenLemmas::stops))]
fn split_part<L: Ledger>(
    alloc: Global,
    structs: &StructTable,
    part: &Sep,
    m: &Term,
    steps: &mut Steps<L>,
) -> Result<Plan, RuleStop>
    ensures exact { RuleGives (λ plan. plan) result (split_part_lem structs.now part.now m.now) }
{
    let array = array_of(alloc, part)?;
    split_at(alloc, structs, m, &array, steps)
}

/// The two arrays in place of one, and their side formulas.
#[tactic(auto, using(floyd_fieldpath::proofs::WrittenLemmas::goes_on, floyd_fieldpath::proofs::WrittenLemmas::stops))]
fn split<L: Ledger>(
    alloc: Global,
    structs: &StructTable,
    terms: &TermList,
    part: &Sep,
    steps: &mut Steps<L>,
) -> Result<Plan, RuleStop>
    ensures exact { RuleGives (λ plan. plan) result (split_lem structs.now terms.now part.now) }
{
    let m = first_term(terms)?;
    split_part(alloc, structs, part, m, steps)
}

/// Makes two arrays of a part that is a whole array, the first with the given number of elements.
#[tactic(auto, using(floyd_goal_parts::proofs::RowLemmas::row_stops, floyd_goal_parts::proofs::RowLemmas::under_stops, floyd_goal_parts::proofs::RowLemmas::under_goes))]
pub fn do_split_array<L: Ledger>(
    alloc: Global,
    goal: &Goal,
    args: &Args,
    defs: &Defs,
    _specs: &SpecTable,
    steps: &mut Steps<L>,
) -> Result<GoalList, RuleStop>
    ensures exact { IsAnswer (Row defs.now.structs goal.now args.now) result }
{
    let number = part_number(args.target);
    let (source, part) = part_of(goal, number)?;
    let plan = split(alloc, &defs.structs, &args.terms, part, steps)?;
    put_under(alloc, goal, source, number, plan, steps)
}
