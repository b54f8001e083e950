ghost use Rattle.std.specs.Prelude.{◌≡◌, ◌++◌, ◌∷◌, [], false, map, IfErr, IfOk, OnOk};
ghost use Rattle.std.specs.List.{flat_map};
ghost use Rattle.std.specs.Option.{option_copied};
ghost use Rattle.floyd_assert_changes.specs.Changed.{step_terms};
ghost use Rattle.floyd_entail.specs.Facts.{Row, address_facts as address_facts_lem, compatible as compatible_lem, compatible_terms as compatible_terms_lem, count_facts as count_facts_lem, facts as facts_lem, facts_of as facts_of_lem, length_facts as length_facts_lem, share_bounds as share_bounds_lem, share_facts as share_facts_lem, step_shape as step_shape_lem, value_facts as value_facts_lem};
ghost use Rattle.floyd_fieldpath.specs.Nested.{nested_type as nested_type_lem};
ghost use Rattle.floyd_fieldpath.specs.Projections.{one};
ghost use Rattle.floyd_fieldpath.specs.Written.{on_ok, written as written_lem};
ghost use Rattle.floyd_goal.specs.Answers.{IsAnswer};
ghost use Rattle.floyd_goal_parts.specs.Writing.{StopsAs, is_faulty};
ghost use Rattle.floyd_text.specs.Gives.{RuleGives};
ghost use Rattle.floyd_tree_sorts.specs.declared.operators.Operator.TheVariants.{Len};

use floyd_assert::{Defs, Region, Sep, SpecTable};
use floyd_ctypes::StructTable;
use floyd_fieldpath::{literal, literal_in, nested_type};
use floyd_folding::written;
use floyd_goal_parts::{
    Args, Goal, GoalList, at_most, context_of, enriched, equation, in_context, is_pointer,
    one_goal, part_number, part_of, written_formula, wrong_goal,
};
use floyd_goal_plans::{count_of, two_bounds, two_formulas};
use floyd_text::{RuleStop, Shared, Steps};
use floyd_tree::{
    AType, Formula, FormulaHead, FormulaList, Head, Operator, Path, PathStep, StepShape,
    StepShapeList, Term,
};
use std::alloc::{AllocError, Global};
use std::sync::ledger::Ledger;

fn step_shape(step: &PathStep) -> Result<StepShape, AllocError>
    ensures { IfOk result (λ s. s ≡ step_shape_lem step.now) }
{
    match step {
        PathStep::Field(name) => Ok(StepShape::Field(name.share()?)),
        PathStep::Subscript(_) => Ok(StepShape::Subscript),
    }
}

/// The steps of a path without their subscripts.
fn step_shapes(alloc: Global, path: &Path) -> Result<StepShapeList, AllocError>
    ensures { IfOk result (λ all. all ≡ map step_shape_lem path.now) }
{
    let mut all = StepShapeList::new(alloc);
    'steps: for place in 0..path.len() {
        let shape = step_shape(path.step(place))?;
        all.push(shape)?;
    }
    Ok(all)
}

fn push_step(all: &mut Vec<Term>, step: &PathStep) -> Result<(), AllocError>
    ensures { OnOk result (all.new.items ≡ all.old.items ++ step_terms step.now) }
{
    match step {
        PathStep::Field(_) => {}
        PathStep::Subscript(term) => all.push(term.share()?)?,
    }
    Ok(())
}

/// Puts the subscripts of a path at the end.
fn push_subscripts(all: &mut Vec<Term>, path: &Path) -> Result<(), AllocError>
    ensures { OnOk result (all.new.items ≡ all.old.items ++ flat_map step_terms path.now) }
{
    'steps: for place in 0..path.len() {
        push_step(all, path.step(place))?;
    }
    Ok(())
}

fn push_terms(all: &mut Vec<Term>, terms: &[Term]) -> Result<(), AllocError>
    ensures { OnOk result (all.new.items ≡ all.old.items ++ terms.now) }
{
    'terms: for term in terms {
        all.push(term.share()?)?;
    }
    Ok(())
}

/// The sizes of a region's type, the subscripts of its path, and its root.
fn compatible_terms(alloc: Global, region: &Region) -> Result<Vec<Term>, AllocError>
    ensures { IfOk result (λ all. all.items ≡ compatible_terms_lem region.now) }
{
    let mut all = Vec::new(alloc);
    push_terms(&mut all, region.ty.sizes().as_slice())?;
    push_subscripts(&mut all, &region.path)?;
    all.push(region.root.share()?)?;
    Ok(all)
}

/// That the region's root is a pointer that fits its type and its path.
fn compatible<L: Ledger>(
    alloc: Global,
    region: &Region,
    steps: &mut Steps<L>,
) -> Result<Formula, RuleStop>
    ensures ok { IfOk result (λ f. f ≡ compatible_lem region.now) }
    ensures fine { OnOk result (is_faulty (compatible_lem region.now) ≡ false) }
    ensures err { IfErr result (λ stop. StopsAs stop (is_faulty (compatible_lem region.now))) }
{
    let shape = region.ty.shape().share()?;
    let path = Shared::new(alloc, step_shapes(alloc, &region.path)?)?;
    let terms = compatible_terms(alloc, region)?;
    written_formula(
        alloc,
        FormulaHead::Compatible(shape, path),
        terms.as_slice(),
        steps,
    )
}

/// What a region says of its address.
fn address_facts<L: Ledger>(
    alloc: Global,
    region: &Region,
    steps: &mut Steps<L>,
) -> Result<FormulaList, RuleStop>
    ensures exact { RuleGives (λ fs. fs) result (address_facts_lem region.now) }
{
    let pointer = is_pointer(alloc, &region.root, steps)?;
    let fitting = compatible(alloc, region, steps)?;
    Ok(two_formulas(alloc, pointer, fitting)?)
}

/// The length of a list.
fn length_of<L: Ledger>(alloc: Global, list: &Term, steps: &mut Steps<L>) -> Result<Term, RuleStop>
    ensures exact { RuleGives (λ t. t) result (written_lem (one Len list.now)) }
{
    let kids = [list.share()?];
    written(alloc, Head::Operator(Operator::Len), &kids, steps)
}

/// That the length is the number of elements, which is not negative.
fn count_facts<L: Ledger>(
    alloc: Global,
    n: &Term,
    length: &Term,
    steps: &mut Steps<L>,
) -> Result<FormulaList, RuleStop>
    ensures exact { RuleGives (λ fs. fs) result (count_facts_lem n.now length.now) }
{
    let zero = literal(alloc, 0, steps)?;
    let same = equation(alloc, length, n, steps)?;
    let least = at_most(alloc, &zero, n, steps)?;
    Ok(two_formulas(alloc, same, least)?)
}

/// What is known of an array's value that has so many elements.
#[tactic(auto, using(floyd_fieldpath::proofs::WrittenLemmas::goes_on, floyd_fieldpath::proofs::WrittenLemmas::stops))]
fn length_of_array<L: Ledger>(
    alloc: Global,
    value: &Term,
    n: &Term,
    steps: &mut Steps<L>,
) -> Result<FormulaList, RuleStop>
    ensures exact { RuleGives (λ fs. fs) result (on_ok (written_lem (one Len value.now)) (count_facts_lem n.now)) }
{
    let length = length_of(alloc, value, steps)?;
    count_facts(alloc, n, &length, steps)
}

/// What is known of a value, where it is that of an array of so many elements.
fn length_facts<L: Ledger>(
    alloc: Global,
    value: &Term,
    count: Option<&Term>,
    steps: &mut Steps<L>,
) -> Result<FormulaList, RuleStop>
    ensures exact { RuleGives (λ fs. fs) result (length_facts_lem value.now (option_copied count.entry)) }
{
    match count {
        None => Ok(FormulaList::new(alloc)),
        Some(n) => length_of_array(alloc, value, n, steps),
    }
}

/// That a share is one.
fn share_bounds<L: Ledger>(
    alloc: Global,
    share: &Term,
    steps: &mut Steps<L>,
) -> Result<FormulaList, RuleStop>
    ensures exact { RuleGives (λ fs. fs) result (share_bounds_lem share.now) }
{
    let one = literal(alloc, 1, steps)?;
    let sixteen = literal(alloc, 16, steps)?;
    two_bounds(alloc, &one, share, share, &sixteen, steps)
}

/// What is known of a share that is no literal.
fn share_facts<L: Ledger>(
    alloc: Global,
    share: &Term,
    steps: &mut Steps<L>,
) -> Result<FormulaList, RuleStop>
    ensures exact { RuleGives (λ fs. fs) result (share_facts_lem share.now) }
{
    match literal_in(share) {
        Some(_) => Ok(FormulaList::new(alloc)),
        None => share_bounds(alloc, share, steps),
    }
}

/// Formulas, and behind them others.
fn in_turn(front: FormulaList, back: FormulaList) -> Result<FormulaList, AllocError>
    ensures { IfOk result (λ all. all ≡ front ++ back) }
{
    let mut all = front;
    all.append(back)?;
    Ok(all)
}

/// What is known of the value at the region's path, which has that type, and of the region's share.
fn value_facts<L: Ledger>(
    alloc: Global,
    region: &Region,
    value: &Term,
    t: &AType,
    steps: &mut Steps<L>,
) -> Result<FormulaList, RuleStop>
    ensures exact { RuleGives (λ fs. fs) result (value_facts_lem region.now value.now t.now) }
{
    let front = length_facts(alloc, value, count_of(t), steps)?;
    let back = share_facts(alloc, &region.share, steps)?;
    Ok(in_turn(front, back)?)
}

/// What a part says whose region's path has that type.
fn facts<L: Ledger>(
    alloc: Global,
    region: &Region,
    value: &Term,
    t: &AType,
    steps: &mut Steps<L>,
) -> Result<FormulaList, RuleStop>
    ensures exact { RuleGives (λ fs. fs) result (facts_lem region.now value.now t.now) }
{
    let front = address_facts(alloc, region, steps)?;
    let back = value_facts(alloc, region, value, t, steps)?;
    Ok(in_turn(front, back)?)
}

#[tactic(auto, using(floyd_fieldpath::proofs::WrittenLemmas::goes_on, floyd_fieldpath::proofs::WrittenLemmas::stops))]
fn region_facts<L: Ledger>(
    alloc: Global,
    structs: &StructTable,
    region: &Region,
    value: &Term,
    steps: &mut Steps<L>,
) -> Result<FormulaList, RuleStop>
    ensures exact { RuleGives (λ fs. fs) result (on_ok (nested_type_lem structs.now region.now.ty region.now.path) (facts_lem region.now value.now)) }
{
    let t = nested_type(alloc, structs, &region.ty, &region.path)?;
    facts(alloc, region, value, &t, steps)
}

/// What a part says of its address, its value and its share.
fn facts_of<L: Ledger>(
    alloc: Global,
    structs: &StructTable,
    part: &Sep,
    steps: &mut Steps<L>,
) -> Result<FormulaList, RuleStop>
    ensures exact { RuleGives (λ fs. fs) result (facts_of_lem structs.now part.now) }
{
    match part {
        Sep::FieldAt(region, value) => region_facts(alloc, structs, region, value, steps),
        Sep::Padding(_) => Err(RuleStop::No(wrong_goal())),
        Sep::Valid(_) => Err(RuleStop::No(wrong_goal())),
        Sep::Anything => Err(RuleStop::No(wrong_goal())),
        Sep::Predicate(_, _) => Err(RuleStop::No(wrong_goal())),
    }
}

/// Adds to the hypotheses what a part of memory says: that its root is a pointer that fits its type and its path; of an
/// array that its value has as many items as it has elements, and that their number is not negative; and of a share that is
/// no literal that it is one.
#[tactic(auto, using(floyd_goal_parts::proofs::RowLemmas::row_stops, floyd_goal_parts::proofs::RowLemmas::row_goes))]
pub fn do_facts<L: Ledger>(
    alloc: Global,
    goal: &Goal,
    args: &Args,
    defs: &Defs,
    _specs: &SpecTable,
    steps: &mut Steps<L>,
) -> Result<GoalList, RuleStop>
    ensures exact { IsAnswer (Row defs.now.structs goal.now args.now) result }
{
    let (_, part) = part_of(goal, part_number(args.target))?;
    let more = facts_of(alloc, &defs.structs, part, steps)?;
    let context = enriched(alloc, context_of(goal), more)?;
    Ok(one_goal(alloc, in_context(goal, context)?)?)
}
