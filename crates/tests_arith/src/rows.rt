ghost use Rattle.std.specs.Prelude.{◌≡◌, ◌<◌};

use floyd_arith::{Linear, check_certificate, linear};
use floyd_text::{RuleStop, Shown, Steps};
use floyd_tree::{Weight, WeightList, equal};
use sqlite_items::Items;
use std::alloc::Global;
use std::sync::ledger::{Blank, Ledger};
use tests_terms::{DEPTH, Stop, Tree, formula_of, formulas_of, part, term_of};

/// Whether a refusal is the answer that the row has: its code, and the number of the hypothesis where it shows one.
fn is_refusal(stop: &RuleStop, answer: &[Tree]) -> Result<bool, Stop> {
    let RuleStop::No(no) = stop else {
        return Err(Stop::Memory);
    };
    if u128::from(part(answer, 0)?.count()?) != u128::from(no.code.number()) {
        return Ok(false);
    }
    match no.shown {
        Shown::Hypothesis(n) => Ok(part(answer, 1)?.count()? == n),
        _ => Ok(answer.len() == 1),
    }
}

/// Whether the linear term has this constant and these unknowns, each a coefficient and a term.
fn is_linear<L: Ledger>(
    alloc: Global,
    given: &Linear,
    answer: &[Tree],
    steps: &mut Steps<L>,
) -> Result<bool, Stop> {
    let [constant, rest @ ..] = answer else {
        return Err(Stop::Unreadable);
    };
    if constant.number()? != given.constant || rest.len() != given.unknowns.len() {
        return Ok(false);
    }
    'unknowns: for i in 0..given.unknowns.len() {
        let unknown = &given.unknowns.as_slice()[i];
        let wanted = rest[i].parts();
        let term = term_of(alloc, part(wanted, 1)?, DEPTH, steps)?;
        if part(wanted, 0)?.number()? != unknown.coefficient || !equal(&term, &unknown.term) {
            return Ok(false);
        }
    }
    Ok(true)
}

/// `linear TERM CONSTANT (COEFFICIENT TERM) ..`, or its refusal.
fn linear_row<L: Ledger>(alloc: Global, row: &[Tree], steps: &mut Steps<L>) -> Result<bool, Stop> {
    let term = term_of(alloc, part(row, 1)?, DEPTH, steps)?;
    let answer = row.get(2..).unwrap_or(&[]);
    match linear(alloc, &term) {
        Ok(given) => is_linear(alloc, &given, answer, steps),
        Err(stop) => is_refusal(&stop, answer),
    }
}

fn weights_of(alloc: Global, trees: &[Tree]) -> Result<WeightList, Stop> {
    let mut all = Items::new(alloc);
    'pairs: for pair in trees.chunks(2) {
        all.push(Weight {
            hypothesis: part(pair, 0)?.count()?,
            weight: part(pair, 1)?.number()?,
        })?;
    }
    Ok(all)
}

/// `check (HYPOTHESES) TARGET (WEIGHTS) ok`, or its refusal. Each weight is a number of a hypothesis, 0 for the negated
/// target, and the weight.
fn check_row<L: Ledger>(alloc: Global, row: &[Tree], steps: &mut Steps<L>) -> Result<bool, Stop> {
    let hyps = formulas_of(alloc, part(row, 1)?.parts(), steps)?;
    let target = formula_of(alloc, part(row, 2)?, DEPTH, steps)?;
    let weights = weights_of(alloc, part(row, 3)?.parts())?;
    let answer = row.get(4..).unwrap_or(&[]);
    match check_certificate(alloc, &hyps, &target, &weights) {
        Ok(()) => Ok(part(answer, 0)?.word() == "ok"),
        Err(stop) => is_refusal(&stop, answer),
    }
}

/// Whether the call of a row answers as the row says.
pub fn agrees<L: Ledger>(alloc: Global, row: &[Tree], blank: Blank) -> Result<bool, Stop>
    requires name { blank.name ≡ L.name }
    requires parts { blank.parts ≡ L.parts }
    requires some { 0 < blank.parts }
{
    let mut steps = Steps::<L>::new(blank);
    match part(row, 0)?.word() {
        "linear" => linear_row(alloc, row, &mut steps),
        "check" => check_row(alloc, row, &mut steps),
        _ => Err(Stop::Unreadable),
    }
}
