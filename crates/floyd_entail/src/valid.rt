ghost use Rattle.std.specs.Prelude.{◌≡◌, ◌∷◌, [], IfOk, Ok};
ghost use Rattle.std.specs.Option.{option_copied};
ghost use Rattle.floyd_entail.specs.Valid.{ByHypothesis, OfHypothesis, Row, is_null as is_null_lem, is_null_term as is_null_term_lem, null_value as null_value_lem, one_at_least as one_at_least_lem, only_valid as only_valid_lem, some_byte as some_byte_lem, valid_at as valid_at_lem, valid_in as valid_in_lem, valid_value as valid_value_lem, valid_plan as valid_plan_lem, value_by as value_by_lem, with_valid as with_valid_lem};
ghost use Rattle.floyd_fieldpath.specs.Nested.{nested_type as nested_type_lem};
ghost use Rattle.floyd_fieldpath.specs.Written.{on_ok};
ghost use Rattle.floyd_goal.specs.Answers.{IsAnswer};
ghost use Rattle.floyd_goal.specs.Goals.{hypothesis_at as hypothesis_at_lem};
ghost use Rattle.floyd_goal_parts.specs.Rows.{InPlaceUnder};
ghost use Rattle.floyd_text.specs.Gives.{RuleGives};

use floyd_assert::{Defs, Region, Sep, SepList, SpecTable, share_parts};
use floyd_ctypes::StructTable;
use floyd_fieldpath::{address, literal, nested_type, size_term};
use floyd_goal_parts::{
    Args, Context, Entail, Goal, GoalList, Plan, Target, hypothesis_at, intros_first,
    no_hypothesis, one_goal, part_of, put_under, with_parts, wrong_goal,
};
use floyd_goal_plans::one_bound;
use floyd_text::{RuleStop, Shared, Steps};
use floyd_tree::{
    AType, FormulaHead, FormulaList, Head, Operator, Term, TermList, formula_head, formula_terms,
    head,
};
use std::alloc::{AllocError, Global};
use std::sync::ledger::Ledger;

/// That there is a byte at least.
fn one_at_least<L: Ledger>(
    alloc: Global,
    bytes: &Term,
    steps: &mut Steps<L>,
) -> Result<FormulaList, RuleStop>
    ensures exact { RuleGives (λ fs. fs) result (one_at_least_lem bytes.now) }
{
    let one = literal(alloc, 1, steps)?;
    one_bound(alloc, &one, bytes, steps)
}

/// That an object of the type has a byte at least.
#[tactic(auto, using(floyd_fieldpath::proofs::WrittenLemmas::goes_on, floyd_fieldpath::proofs::WrittenLemmas::stops))]
fn some_byte<L: Ledger>(
    alloc: Global,
    structs: &StructTable,
    t: &AType,
    steps: &mut Steps<L>,
) -> Result<FormulaList, RuleStop>
    ensures exact { RuleGives (λ fs. fs) result (some_byte_lem structs.now t.now) }
{
    let bytes = size_term(alloc, structs, t.shape().get(), t.sizes().as_slice(), steps)?;
    one_at_least(alloc, &bytes, steps)
}

fn only_valid(alloc: Global, root: Term, sides: FormulaList) -> Result<Plan, AllocError>
    ensures { IfOk result (λ plan. only_valid_lem root sides ≡ Ok plan) }
{
    let mut new = SepList::new(alloc);
    new.push(Sep::Valid(root))?;
    Ok(Plan { sides, new })
}

/// What becomes of an object of that type at that address.
#[tactic(auto, using(floyd_fieldpath::proofs::WrittenLemmas::goes_on, floyd_fieldpath::proofs::WrittenLemmas::stops))]
fn valid_at<L: Ledger>(
    alloc: Global,
    structs: &StructTable,
    t: &AType,
    root: Term,
    steps: &mut Steps<L>,
) -> Result<Plan, RuleStop>
    ensures exact { RuleGives (λ plan. plan) result (valid_at_lem structs.now t.now root) }
{
    let sides = some_byte(alloc, structs, t, steps)?;
    Ok(only_valid(alloc, root, sides)?)
}

/// What becomes of an object at the region's path, which has that type.
#[tactic(auto, using(floyd_fieldpath::proofs::WrittenLemmas::goes_on, floyd_fieldpath::proofs::WrittenLemmas::stops))]
fn valid_in<L: Ledger>(
    alloc: Global,
    structs: &StructTable,
    region: &Region,
    t: &AType,
    steps: &mut Steps<L>,
) -> Result<Plan, RuleStop>
    ensures exact { RuleGives (λ plan. plan) result (valid_in_lem structs.now region.now t.now) }
{
    let root = address(
        alloc,
        structs,
        &region.ty,
        &region.path,
        &region.root,
        steps,
    )?;
    valid_at(alloc, structs, t, root, steps)
}

#[tactic(auto, using(floyd_fieldpath::proofs::WrittenLemmas::goes_on, floyd_fieldpath::proofs::WrittenLemmas::stops))]
fn region_plan<L: Ledger>(
    alloc: Global,
    structs: &StructTable,
    region: &Region,
    steps: &mut Steps<L>,
) -> Result<Plan, RuleStop>
    ensures exact { RuleGives (λ plan. plan) result (on_ok (nested_type_lem structs.now region.now.ty region.now.path) (valid_in_lem structs.now region.now)) }
{
    let t = nested_type(alloc, structs, &region.ty, &region.path)?;
    valid_in(alloc, structs, region, &t, steps)
}

/// The part that says only that its address is valid, and that it has a byte.
fn valid_plan<L: Ledger>(
    alloc: Global,
    structs: &StructTable,
    part: &Sep,
    steps: &mut Steps<L>,
) -> Result<Plan, RuleStop>
    ensures exact { RuleGives (λ plan. plan) result (valid_plan_lem structs.now part.now) }
{
    match part {
        Sep::FieldAt(region, _) => region_plan(alloc, structs, region, steps),
        Sep::Padding(_) => Err(RuleStop::No(wrong_goal())),
        Sep::Valid(_) => Err(RuleStop::No(wrong_goal())),
        Sep::Anything => Err(RuleStop::No(wrong_goal())),
        Sep::Predicate(_, _) => Err(RuleStop::No(wrong_goal())),
    }
}

fn is_null(head: &Head) -> bool
    ensures { result ≡ is_null_lem head.now }
{
    match head {
        Head::Operator(operator) => matches!(operator, Operator::Nullval),
        _ => false,
    }
}

fn is_null_term(term: Option<&Term>) -> bool
    ensures { result ≡ is_null_term_lem (option_copied term.entry) }
{
    match term {
        Some(w) => is_null(head(w)),
        None => false,
    }
}

/// The left side of an equation whose right side is null.
fn null_value(terms: &TermList) -> Option<&Term>
    ensures { option_copied result ≡ null_value_lem terms.now }
{
    if is_null_term(terms.get(1)) {
        terms.get(0)
    } else {
        None
    }
}

/// The value that is null, or a function's start, by a formula of this head on these terms.
fn valid_value<'a>(form: &FormulaHead, terms: &'a TermList) -> Option<&'a Term>
    ensures { option_copied result ≡ valid_value_lem form.now terms.now }
{
    match form {
        FormulaHead::Equal => null_value(terms),
        FormulaHead::FuncPtr(_) => terms.get(0),
        _ => None,
    }
}

/// The value that is null, or a function's start, by the hypothesis of that number.
fn value_by(context: &Context, number: u32) -> Option<&Term>
    ensures { option_copied result ≡ value_by_lem (hypothesis_at_lem context.now.hypotheses number) }
{
    match hypothesis_at(context, number) {
        Some(h) => valid_value(formula_head(h), formula_terms(h)),
        None => None,
    }
}

/// The goal with a part more, last.
fn with_valid(alloc: Global, entail: &Entail, v: &Term) -> Result<GoalList, AllocError>
    ensures { IfOk result (λ gs. gs ≡ with_valid_lem entail.now v.now ∷ []) }
{
    let source = entail.source.get();
    let mut parts = share_parts(alloc, source.parts.as_slice())?;
    parts.push(Sep::Valid(v.share()?))?;
    let source = Shared::new(alloc, with_parts(alloc, source, parts)?)?;
    let context = entail.context.after_command(alloc)?;
    let target = entail.target.share()?;
    one_goal(
        alloc,
        Goal::Entail(Entail {
            context,
            source,
            target,
        }),
    )
}

fn of_hypothesis(alloc: Global, entail: &Entail, number: u32) -> Result<GoalList, RuleStop>
    ensures exact { IsAnswer (OfHypothesis entail.now number) result }
{
    match value_by(&entail.context, number) {
        Some(v) => Ok(with_valid(alloc, entail, v)?),
        None => Err(RuleStop::No(no_hypothesis(number))),
    }
}

/// The goal with a part for the value that a hypothesis says to be valid.
fn by_hypothesis(alloc: Global, entail: &Entail, number: u32) -> Result<GoalList, RuleStop>
    ensures exact { IsAnswer (ByHypothesis entail.now number) result }
{
    if entail.source.get().existentials.is_empty() {
        of_hypothesis(alloc, entail, number)
    } else {
        Err(RuleStop::No(intros_first()))
    }
}

/// The goal with such a part in place of the one of that number.
#[tactic(auto, using(floyd_goal_parts::proofs::RowLemmas::row_stops, floyd_goal_parts::proofs::RowLemmas::under_stops, floyd_goal_parts::proofs::RowLemmas::under_goes))]
fn in_place<L: Ledger>(
    alloc: Global,
    structs: &StructTable,
    goal: &Goal,
    number: u32,
    steps: &mut Steps<L>,
) -> Result<GoalList, RuleStop>
    ensures exact { IsAnswer (InPlaceUnder goal.now number (valid_plan_lem structs.now)) result }
{
    let (source, part) = part_of(goal, number)?;
    let plan = valid_plan(alloc, structs, part, steps)?;
    put_under(alloc, goal, source, number, plan, steps)
}

/// Makes a part of an Entail goal's source say only that its address is valid, where it has a byte at least; or adds a part
/// for a value that is null or a function's start by a hypothesis.
pub fn do_valid<L: Ledger>(
    alloc: Global,
    goal: &Goal,
    args: &Args,
    defs: &Defs,
    _specs: &SpecTable,
    steps: &mut Steps<L>,
) -> Result<GoalList, RuleStop>
    ensures exact { IsAnswer (Row defs.now.structs goal.now args.now) result }
{
    let Goal::Entail(entail) = goal else {
        return Err(RuleStop::No(wrong_goal()));
    };
    match args.target {
        Target::Nothing => Err(RuleStop::No(wrong_goal())),
        Target::Part(number) => in_place(alloc, &defs.structs, goal, number, steps),
        Target::Hypothesis(number) => by_hypothesis(alloc, entail, number),
    }
}
