ghost use Rattle.std.specs.Prelude.{IfOk, Ok};
ghost use Rattle.floyd_simplifying.specs.Simplified.{folded_one as folded_one_lem, folded_two as folded_two_lem, step as step_lem, step_of_one as step_of_one_lem, step_of_operator as step_of_operator_lem, step_of_operators as step_of_operators_lem, step_of_two as step_of_two_lem};
ghost use Rattle.floyd_simplifying.specs.StepClauses.{step_over};
ghost use Rattle.floyd_text.specs.Gives.{RuleGives};
ghost use Rattle.floyd_tree_sorts.specs.declared.operators.Operator.TheVariants.{Append, Len, Nth, Rev, Sum};
ghost use Rattle.std.specs.Prelude.{◌≡◌};

use crate::defaults::item_at;
use crate::lists::{chained, end_of, items_back, items_of};
use crate::sums::sum_of;
use floyd_fieldpath::{literal, literal_in};
use floyd_folding::{number_of_literal, number_of_literals};
use floyd_text::{RuleStop, Steps};
use floyd_tree::{Head, Operator, Term, head, kids};
use std::alloc::{AllocError, Global};
use std::sync::ledger::Ledger;

/// What takes the place of a term whose kids are simplified, if anything does.
#[tactic(auto, using(crate::proofs::ByKids::step_is))]
pub fn step<L: Ledger>(
    alloc: Global,
    t: &Term,
    steps: &mut Steps<L>,
) -> Result<Option<Term>, RuleStop>
    ensures exact { RuleGives (λ o. o) result (step_lem t.now) }
{
    by_kids(alloc, head(t), kids(t).as_slice(), steps)
}

fn by_kids<L: Ledger>(
    alloc: Global,
    head: &Head,
    kids: &[Term],
    steps: &mut Steps<L>,
) -> Result<Option<Term>, RuleStop>
    ensures exact { RuleGives (λ o. o) result (step_over head.now kids.now) }
{
    match kids {
        [a] => step_of_one(alloc, head, a, steps),
        [a, b] => step_of_two(alloc, head, a, b, steps),
        _ => Ok(None),
    }
}

fn step_of_one<L: Ledger>(
    alloc: Global,
    head: &Head,
    a: &Term,
    steps: &mut Steps<L>,
) -> Result<Option<Term>, RuleStop>
    ensures exact { RuleGives (λ o. o) result (step_of_one_lem head.now a.now) }
{
    match head {
        Head::Operator(operator) => step_of_operator(alloc, *operator, a, steps),
        _ => Ok(folded_one(alloc, head, a, steps)?),
    }
}

fn step_of_operator<L: Ledger>(
    alloc: Global,
    operator: Operator,
    a: &Term,
    steps: &mut Steps<L>,
) -> Result<Option<Term>, RuleStop>
    ensures exact { RuleGives (λ o. o) result (step_of_operator_lem operator a.now) }
{
    match operator {
        Operator::Len => Ok(len_step(alloc, a, steps)?),
        Operator::Rev => rev_step(alloc, a, steps),
        Operator::Sum => Ok(sum_step(alloc, a, steps)?),
        _ => Ok(folded_one(alloc, &Head::Operator(operator), a, steps)?),
    }
}

fn len_step<L: Ledger>(
    alloc: Global,
    a: &Term,
    steps: &mut Steps<L>,
) -> Result<Option<Term>, AllocError>
    ensures { IfOk result (λ o. Ok o ≡ step_of_operator_lem Len a.now) }
{
    match items_of(alloc, a)? {
        Some(items) => Ok(Some(literal(alloc, items.len() as i128, steps)?)),
        None => Ok(None),
    }
}

#[tactic(auto, using(crate::proofs::ByKids::rev_none, crate::proofs::ByKids::rev_some, crate::proofs::ByKids::rev_stops))]
fn rev_step<L: Ledger>(
    alloc: Global,
    a: &Term,
    steps: &mut Steps<L>,
) -> Result<Option<Term>, RuleStop>
    ensures exact { RuleGives (λ o. o) result (step_of_operator_lem Rev a.now) }
{
    match items_back(alloc, a)? {
        Some(items) => Ok(Some(chained(alloc, items.as_slice(), end_of(a), steps)?)),
        None => Ok(None),
    }
}

fn sum_step<L: Ledger>(
    alloc: Global,
    a: &Term,
    steps: &mut Steps<L>,
) -> Result<Option<Term>, AllocError>
    ensures { IfOk result (λ o. Ok o ≡ step_of_operator_lem Sum a.now) }
{
    let Some(items) = items_of(alloc, a)? else {
        return Ok(None);
    };
    match sum_of(items.as_slice()) {
        Some(z) => Ok(Some(literal(alloc, z, steps)?)),
        None => Ok(None),
    }
}

/// The literal that the head gives of a literal, if it gives one that is small.
fn folded_one<L: Ledger>(
    alloc: Global,
    head: &Head,
    a: &Term,
    steps: &mut Steps<L>,
) -> Result<Option<Term>, AllocError>
    ensures { IfOk result (λ o. Ok o ≡ folded_one_lem head.now a.now) }
{
    match number_of_literal(head, a) {
        Some(z) => Ok(Some(literal(alloc, z, steps)?)),
        None => Ok(None),
    }
}

fn step_of_two<L: Ledger>(
    alloc: Global,
    head: &Head,
    a: &Term,
    b: &Term,
    steps: &mut Steps<L>,
) -> Result<Option<Term>, RuleStop>
    ensures exact { RuleGives (λ o. o) result (step_of_two_lem head.now a.now b.now) }
{
    match head {
        Head::Operator(operator) => step_of_operators(alloc, *operator, a, b, steps),
        _ => Ok(None),
    }
}

fn step_of_operators<L: Ledger>(
    alloc: Global,
    operator: Operator,
    a: &Term,
    b: &Term,
    steps: &mut Steps<L>,
) -> Result<Option<Term>, RuleStop>
    ensures exact { RuleGives (λ o. o) result (step_of_operators_lem operator a.now b.now) }
{
    match operator {
        Operator::Append => append_step(alloc, a, b, steps),
        Operator::Nth => nth_step(alloc, a, b, steps),
        _ => Ok(folded_two(alloc, operator, a, b, steps)?),
    }
}

fn append_step<L: Ledger>(
    alloc: Global,
    a: &Term,
    b: &Term,
    steps: &mut Steps<L>,
) -> Result<Option<Term>, RuleStop>
    ensures exact { RuleGives (λ o. o) result (step_of_operators_lem Append a.now b.now) }
{
    match items_of(alloc, a)? {
        Some(items) => Ok(Some(chained(alloc, items.as_slice(), b, steps)?)),
        None => Ok(None),
    }
}

fn nth_step<L: Ledger>(
    alloc: Global,
    a: &Term,
    b: &Term,
    steps: &mut Steps<L>,
) -> Result<Option<Term>, RuleStop>
    ensures exact { RuleGives (λ o. o) result (step_of_operators_lem Nth a.now b.now) }
{
    let Some(z) = literal_in(a) else {
        return Ok(None);
    };
    match items_of(alloc, b)? {
        Some(items) => Ok(Some(item_at(alloc, z, items.as_slice(), end_of(b), steps)?)),
        None => Ok(None),
    }
}

/// The literal that the operator gives of two literals, if it gives one that is small.
fn folded_two<L: Ledger>(
    alloc: Global,
    operator: Operator,
    a: &Term,
    b: &Term,
    steps: &mut Steps<L>,
) -> Result<Option<Term>, AllocError>
    ensures { IfOk result (λ o. Ok o ≡ folded_two_lem operator a.now b.now) }
{
    match number_of_literals(operator, a, b) {
        Some(z) => Ok(Some(literal(alloc, z, steps)?)),
        None => Ok(None),
    }
}
