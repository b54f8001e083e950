ghost use Rattle.std.specs.Prelude.{◌≡◌, ◌<◌};

use floyd_assert::{SepList, assertion_size, equal_formula, equal_part, remove_parts};
use floyd_text::{No, RuleStop, Shown, Steps};
use std::alloc::Global;
use std::sync::ledger::{Blank, Ledger};
use tests_parts::{assertion_of, part_of, parts_of};
use tests_terms::{DEPTH, Stop, Tree, formula_of, part, says};

/// `same FORMULA FORMULA yes`, or `no`.
fn same_row<L: Ledger>(alloc: Global, row: &[Tree], steps: &mut Steps<L>) -> Result<bool, Stop> {
    let a = formula_of(alloc, part(row, 1)?, DEPTH, steps)?;
    let b = formula_of(alloc, part(row, 2)?, DEPTH, steps)?;
    Ok(says(part(row, 3)?, equal_formula(&a, &b)))
}

/// `part PART PART yes`, or `no`.
fn part_row<L: Ledger>(alloc: Global, row: &[Tree], steps: &mut Steps<L>) -> Result<bool, Stop> {
    let a = part_of(alloc, part(row, 1)?, steps)?;
    let b = part_of(alloc, part(row, 2)?, steps)?;
    Ok(says(part(row, 3)?, equal_part(&a, &b)))
}

fn are_equal(a: &SepList, b: &SepList) -> bool {
    let b = b.as_slice();
    if a.as_slice().len() != b.len() {
        return false;
    }
    'parts: for (x, y) in a.as_slice().iter().zip(b) {
        if !equal_part(x, y) {
            return false;
        }
    }
    true
}

/// Whether the refusal is `CODE NUMBER`.
fn is_refusal(no: &No, code: &Tree, number: &Tree) -> Result<bool, Stop> {
    let Shown::Part(part) = no.shown else {
        return Ok(false);
    };
    Ok(u32::from(no.code.number()) == code.count()? && part == number.count()?)
}

/// `remove (PART ..) (PART ..) (PART ..)`, or `CODE NUMBER` in the third place.
fn remove_row<L: Ledger>(alloc: Global, row: &[Tree], steps: &mut Steps<L>) -> Result<bool, Stop> {
    let from = parts_of(alloc, part(row, 1)?.parts(), steps)?;
    let gone = parts_of(alloc, part(row, 2)?.parts(), steps)?;
    let answer = part(row, 3)?;
    match &remove_parts(alloc, &from, &gone) {
        Ok(rest) => {
            let wanted = parts_of(alloc, answer.parts(), steps)?;
            Ok(answer.word().is_empty() && are_equal(rest, &wanted))
        }
        Err(RuleStop::No(no)) => is_refusal(no, answer, part(row, 4)?),
        Err(RuleStop::Memory) => Err(Stop::Memory),
    }
}

/// `size (BINDER ..) (FORMULA ..) (LOCAL ..) (PART ..) SIZE`.
fn size_row<L: Ledger>(alloc: Global, row: &[Tree], steps: &mut Steps<L>) -> Result<bool, Stop> {
    let assertion = assertion_of(alloc, row.get(1..).unwrap_or(&[]), steps)?;
    Ok(assertion_size(&assertion) == u64::from(part(row, 5)?.count()?))
}

/// Whether the row answers as it says.
pub fn agrees<L: Ledger>(alloc: Global, row: &[Tree], blank: Blank) -> Result<bool, Stop>
    requires name { blank.name ≡ L.name }
    requires parts { blank.parts ≡ L.parts }
    requires some { 0 < blank.parts }
{
    let mut steps = Steps::<L>::new(blank);
    match part(row, 0)?.word() {
        "same" => same_row(alloc, row, &mut steps),
        "part" => part_row(alloc, row, &mut steps),
        "remove" => remove_row(alloc, row, &mut steps),
        "size" => size_row(alloc, row, &mut steps),
        _ => Err(Stop::Unreadable),
    }
}
