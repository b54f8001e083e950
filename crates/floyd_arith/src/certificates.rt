ghost use Rattle.std.specs.Prelude.{◌≡◌, IfOk, Some, option_map, option_and_then, pos};
ghost use Rattle.floyd_text.specs.Gives.{RuleGives};
ghost use Rattle.floyd_arith.specs.Certificates as spec;
ghost use Rattle.floyd_arith.specs.FactClauses.{fact_seen};
ghost use Rattle.floyd_arith.specs.Linear.{constant, within};
ghost use Rattle.floyd_arith.specs.LinearClauses.{kept};

use crate::facts::{Fact, difference_of, fact_at};
use crate::refusal::refused;
use crate::unknowns::{Linear, Unknown};
use floyd_text::{Code, RuleStop, Shown};
use floyd_tree::{Formula, FormulaList, Weight, WeightList};
use std::alloc::{AllocError, Global};

/// Whether what the hypotheses and the negated target say, each with its weight, adds up to a constant below 0, which is
/// false. `t <= u` says that `u - t` is at least 0, `t = u` of numbers that `t - u` is 0, and the negation of `t <= u`, which
/// is hypothesis 0, that `t - u - 1` is at least 0. The target is meant to be an inequality or False, whose negation says
/// nothing.
///
/// Refused in this order: 732 with its number for a hypothesis that is absent or says nothing, 734 with its number for a
/// negative weight on an inequality, 733 where a number of a difference or of a partial sum reaches 2^126 in absolute value,
/// 731 where the sum is no constant below 0.
pub fn check_certificate(
    alloc: Global,
    hyps: &FormulaList,
    target: &Formula,
    weights: &WeightList,
) -> Result<(), RuleStop>
    ensures exact { RuleGives (λ u. u) result (spec.certified hyps.now target.now weights.now) }
{
    let weights = weights.as_slice();
    if let Some(hypothesis) = first_absent(hyps, target, weights) {
        return Err(refused(Code::BadIndex, Shown::Hypothesis(hypothesis)));
    }
    if let Some(hypothesis) = first_negative(hyps, target, weights) {
        return Err(refused(Code::Negative, Shown::Hypothesis(hypothesis)));
    }
    let Some(sum) = summed(alloc, hyps, target, weights)? else {
        return Err(refused(Code::Overflow, Shown::Nothing));
    };
    if is_false(&sum) {
        Ok(())
    } else {
        Err(refused(Code::NotRefuted, Shown::Nothing))
    }
}

/// The first weight whose formula is absent or says nothing.
fn first_absent(hyps: &FormulaList, target: &Formula, weights: &[Weight]) -> Option<u32>
    ensures { result ≡ spec.first_absent hyps.now target.now weights.now }
{
    'weights: for w in weights {
        if fact_at(hyps, target, w.hypothesis).is_none() {
            return Some(w.hypothesis);
        }
    }
    None
}

/// The first negative weight of an inequality.
fn first_negative(hyps: &FormulaList, target: &Formula, weights: &[Weight]) -> Option<u32>
    ensures { result ≡ spec.first_negative hyps.now target.now weights.now }
{
    'weights: for w in weights {
        if !may_weigh(fact_at(hyps, target, w.hypothesis), w.weight) {
            return Some(w.hypothesis);
        }
    }
    None
}

/// An inequality has no negative weight.
fn may_weigh(fact: Option<Fact<'_>>, weight: i128) -> bool
    ensures { result ≡ spec.may_weigh (option_map fact_seen fact.entry) weight }
{
    match fact {
        None => true,
        Some(Fact::Equal(_, _)) => true,
        Some(Fact::AtMost(_, _)) => weight >= 0,
        Some(Fact::Above(_, _)) => weight >= 0,
    }
}

/// The sum of the differences with their weights, one after the other, where every number is below the bound.
fn summed(
    alloc: Global,
    hyps: &FormulaList,
    target: &Formula,
    weights: &[Weight],
) -> Result<Option<Linear>, AllocError>
    ensures { IfOk result (λ s. s ≡ spec.summed hyps.now target.now (constant (pos 0)) weights.now) }
{
    let mut sum = Linear::zero(alloc);
    'weights: for w in weights {
        if !add_weight(alloc, hyps, target, &mut sum, w)? {
            return Ok(None);
        }
    }
    Ok(Some(sum))
}

/// Adds what a formula says with its weight, and tells whether every number is below the bound. Where one is not, what is
/// left is of no use.
fn add_weight(
    alloc: Global,
    hyps: &FormulaList,
    target: &Formula,
    sum: &mut Linear,
    w: &Weight,
) -> Result<bool, AllocError>
    requires { within sum.old ≡ Some sum.old }
    ensures { IfOk result (λ yes. kept yes sum.new ≡ option_and_then (spec.onto sum.old w.now.weight) (spec.difference_at hyps.now target.now w.now.hypothesis)) }
{
    let Some(fact) = fact_at(hyps, target, w.hypothesis) else {
        return Ok(false);
    };
    let Some(difference) = difference_of(alloc, &fact)? else {
        return Ok(false);
    };
    sum.add(w.weight, &difference)
}

/// Whether the sum is a constant below 0.
fn is_false(sum: &Linear) -> bool
    ensures { result ≡ spec.is_false sum.now }
{
    all_cancel(sum.unknowns.as_slice()) && sum.constant < 0
}

fn all_cancel(unknowns: &[Unknown]) -> bool
    ensures { result ≡ spec.all_cancel unknowns.now }
{
    'unknowns: for unknown in unknowns {
        if unknown.coefficient != 0 {
            return false;
        }
    }
    true
}
