ghost use Rattle.std.specs.Prelude.{◌≡◌, ◌<◌};

use floyd_ctypes::StructTable;
use floyd_fieldpath::{address, nested_type, project, update, value_sort};
use floyd_folding::{folded, folded_one};
use floyd_text::{No, RuleStop, Steps};
use floyd_tree::{AType, Head, Term, equal, head, kids};
use std::alloc::Global;
use std::sync::ledger::{Blank, Ledger};
use tests_parts::{path_of, type_of};
use tests_terms::{DEPTH, Stop, Tree, part, shape_of, sort_of, term_of};

/// Whether the answer is `refused` with the code.
fn is_refusal(no: &No, answer: &[Tree]) -> Result<bool, Stop> {
    let code = u32::from(no.code.number());
    Ok(part(answer, 0)?.word() == "refused" && code == part(answer, 1)?.count()?)
}

/// Whether the answer is the term, or the refusal.
fn is_term<L: Ledger>(
    alloc: Global,
    given: &Result<Term, RuleStop>,
    answer: &[Tree],
    steps: &mut Steps<L>,
) -> Result<bool, Stop> {
    match given {
        Ok(term) => Ok(equal(term, &term_of(alloc, part(answer, 0)?, DEPTH, steps)?)),
        Err(RuleStop::No(no)) => is_refusal(no, answer),
        Err(RuleStop::Memory) => Err(Stop::Memory),
    }
}

fn same_terms(a: &[Term], b: &[Term]) -> bool {
    if a.len() != b.len() {
        return false;
    }
    'terms: for (t, u) in a.iter().zip(b) {
        if !equal(t, u) {
            return false;
        }
    }
    true
}

fn same_type(t: &AType, u: &AType) -> bool {
    t.shape().get().same(u.shape().get()) && same_terms(t.sizes().as_slice(), u.sizes().as_slice())
}

/// `nested TYPE (STEP ..) TYPE`, or `refused CODE`.
fn nested_row<L: Ledger>(
    alloc: Global,
    structs: &StructTable,
    row: &[Tree],
    steps: &mut Steps<L>,
) -> Result<bool, Stop> {
    let t = type_of(alloc, part(row, 1)?, steps)?;
    let path = path_of(alloc, part(row, 2)?.parts(), steps)?;
    match &nested_type(alloc, structs, &t, &path) {
        Ok(nested) => Ok(same_type(nested, &type_of(alloc, part(row, 3)?, steps)?)),
        Err(RuleStop::No(no)) => is_refusal(no, row.get(3..).unwrap_or(&[])),
        Err(RuleStop::Memory) => Err(Stop::Memory),
    }
}

/// `address TYPE (STEP ..) ROOT TERM`, or `refused CODE`; and so `project TYPE (STEP ..) VALUE TERM`.
fn walk_row<L: Ledger>(
    alloc: Global,
    structs: &StructTable,
    row: &[Tree],
    steps: &mut Steps<L>,
) -> Result<bool, Stop> {
    let t = type_of(alloc, part(row, 1)?, steps)?;
    let path = path_of(alloc, part(row, 2)?.parts(), steps)?;
    let term = term_of(alloc, part(row, 3)?, DEPTH, steps)?;
    let given = if part(row, 0)?.word() == "address" {
        address(alloc, structs, &t, &path, &term, steps)
    } else {
        project(alloc, structs, &t, &path, &term, steps)
    };
    is_term(alloc, &given, row.get(4..).unwrap_or(&[]), steps)
}

/// `update TYPE (STEP ..) VALUE NEW TERM`, or `refused CODE`.
fn update_row<L: Ledger>(
    alloc: Global,
    structs: &StructTable,
    row: &[Tree],
    steps: &mut Steps<L>,
) -> Result<bool, Stop> {
    let t = type_of(alloc, part(row, 1)?, steps)?;
    let path = path_of(alloc, part(row, 2)?.parts(), steps)?;
    let value = term_of(alloc, part(row, 3)?, DEPTH, steps)?;
    let new = term_of(alloc, part(row, 4)?, DEPTH, steps)?;
    let given = update(alloc, structs, &t, &path, &value, &new, steps);
    is_term(alloc, &given, row.get(5..).unwrap_or(&[]), steps)
}

/// `sort SHAPE SORT`, or `none`.
fn sort_row(alloc: Global, structs: &StructTable, row: &[Tree]) -> Result<bool, Stop> {
    let shape = shape_of(alloc, part(row, 1)?)?;
    let answer = part(row, 2)?;
    match value_sort(alloc, structs, &shape)? {
        Some(sort) => Ok(answer.word() != "none" && sort.same(&sort_of(alloc, answer)?)),
        None => Ok(answer.word() == "none"),
    }
}

/// `fold TERM TERM`, where the first one is an operator on one or two terms.
fn fold_row<L: Ledger>(alloc: Global, row: &[Tree], steps: &mut Steps<L>) -> Result<bool, Stop> {
    let term = term_of(alloc, part(row, 1)?, DEPTH, steps)?;
    let given = match (head(&term), kids(&term).as_slice()) {
        (Head::Operator(operator), [a, b]) => folded(alloc, *operator, a, b, steps),
        (head, [a]) => folded_one(alloc, head.share()?, a, steps),
        _ => return Err(Stop::Unreadable),
    };
    is_term(alloc, &given, row.get(2..).unwrap_or(&[]), steps)
}

/// Whether the row answers as it says.
pub fn agrees<L: Ledger>(
    alloc: Global,
    structs: &StructTable,
    row: &[Tree],
    blank: Blank,
) -> Result<bool, Stop>
    requires name { blank.name ≡ L.name }
    requires parts { blank.parts ≡ L.parts }
    requires some { 0 < blank.parts }
{
    let mut steps = Steps::<L>::new(blank);
    match part(row, 0)?.word() {
        "nested" => nested_row(alloc, structs, row, &mut steps),
        "address" => walk_row(alloc, structs, row, &mut steps),
        "project" => walk_row(alloc, structs, row, &mut steps),
        "update" => update_row(alloc, structs, row, &mut steps),
        "sort" => sort_row(alloc, structs, row),
        "fold" => fold_row(alloc, row, &mut steps),
        _ => Err(Stop::Unreadable),
    }
}
