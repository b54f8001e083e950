ghost use Rattle.std.specs.Prelude.{◌≡◌, ◌<◌};

use crate::structs::put_struct;
use floyd_assert::{Defs, equal_formula};
use floyd_clight::BlockList;
use floyd_symexpr::{Evaluated, Located, evaluate, locate};
use floyd_text::{RuleStop, Steps};
use floyd_tree::{Formula, Path, PathStep, Term, equal};
use std::alloc::Global;
use std::sync::ledger::{Blank, Ledger};
use tests_clight::expression_of;
use tests_parts::{assertion_of, path_of};
use tests_terms::{DEPTH, Stop, Tree, formulas_of, part, term_of, terms_of};

/// Whether the refusal is the one whose number the row has.
fn is_refusal(stop: &RuleStop, answer: &Tree) -> Result<bool, Stop> {
    match stop {
        RuleStop::No(no) => Ok(u32::from(no.code.number()) == answer.count()?),
        RuleStop::Memory => Err(Stop::Memory),
    }
}

fn are_terms<L: Ledger>(
    alloc: Global,
    given: &[Term],
    answer: &Tree,
    steps: &mut Steps<L>,
) -> Result<bool, Stop> {
    let wanted = terms_of(alloc, answer.parts(), DEPTH, steps)?;
    if given.len() != wanted.len() {
        return Ok(false);
    }
    Ok(
        given
            .iter()
            .zip(wanted.as_slice())
            .all(|(a, b)| equal(a, b)),
    )
}

fn are_formulas<L: Ledger>(
    alloc: Global,
    given: &[Formula],
    answer: &Tree,
    steps: &mut Steps<L>,
) -> Result<bool, Stop> {
    let wanted = formulas_of(alloc, answer.parts(), steps)?;
    if given.len() != wanted.len() {
        return Ok(false);
    }
    Ok(
        given
            .iter()
            .zip(wanted.as_slice())
            .all(|(a, b)| equal_formula(a, b)),
    )
}

fn same_step(a: &PathStep, b: &PathStep) -> bool {
    match (a, b) {
        (PathStep::Field(x), PathStep::Field(y)) => x == y,
        (PathStep::Subscript(t), PathStep::Subscript(u)) => equal(t, u),
        _ => false,
    }
}

fn same_path(a: &Path, b: &Path) -> bool {
    if a.len() != b.len() {
        return false;
    }
    'steps: for i in 0..a.len() {
        if !same_step(a.step(i), b.step(i)) {
            return false;
        }
    }
    true
}

/// `TERM (FORMULA ..) (TERM ..)`, or a number of a refusal.
fn is_evaluated<L: Ledger>(
    alloc: Global,
    given: &Result<Evaluated, RuleStop>,
    answer: &[Tree],
    steps: &mut Steps<L>,
) -> Result<bool, Stop> {
    match given {
        Ok(e) => {
            if answer.len() != 3 {
                return Ok(false);
            }
            let term = term_of(alloc, part(answer, 0)?, DEPTH, steps)?;
            Ok(
                equal(&e.term, &term)
                    && are_formulas(alloc, e.sides.as_slice(), part(answer, 1)?, steps)?
                    && are_terms(alloc, e.valid.as_slice(), part(answer, 2)?, steps)?,
            )
        }
        Err(stop) => Ok(answer.len() == 1 && is_refusal(stop, part(answer, 0)?)?),
    }
}

/// `PART ROOT (STEP ..) (FORMULA ..) (TERM ..)`, or a number of a refusal.
fn is_located<L: Ledger>(
    alloc: Global,
    given: &Result<Located, RuleStop>,
    answer: &[Tree],
    steps: &mut Steps<L>,
) -> Result<bool, Stop> {
    match given {
        Ok(l) => {
            if answer.len() != 5 {
                return Ok(false);
            }
            let root = term_of(alloc, part(answer, 1)?, DEPTH, steps)?;
            let path = path_of(alloc, part(answer, 2)?.parts(), steps)?;
            Ok(
                l.part == part(answer, 0)?.count()?
                    && equal(&l.root, &root)
                    && same_path(&l.path, &path)
                    && are_formulas(alloc, l.sides.as_slice(), part(answer, 3)?, steps)?
                    && are_terms(alloc, l.valid.as_slice(), part(answer, 4)?, steps)?,
            )
        }
        Err(stop) => Ok(answer.len() == 1 && is_refusal(stop, part(answer, 0)?)?),
    }
}

/// `eval EXPRESSION (BINDER ..) (FORMULA ..) (LOCAL ..) (PART ..) ANSWER`, and `locate` likewise.
fn judged<L: Ledger>(
    alloc: Global,
    defs: &Defs,
    row: &[Tree],
    steps: &mut Steps<L>,
) -> Result<bool, Stop> {
    let e = expression_of(alloc, part(row, 1)?, DEPTH)?;
    let source = assertion_of(alloc, row.get(2..).unwrap_or(&[]), steps)?;
    let blocks = BlockList::new(alloc);
    let answer = row.get(6..).unwrap_or(&[]);
    if part(row, 0)?.word() == "eval" {
        let given = evaluate(alloc, &e, &source, &blocks, defs, steps);
        return is_evaluated(alloc, &given, answer, steps);
    }
    let given = locate(alloc, &e, &source, &blocks, defs, steps);
    is_located(alloc, &given, answer, steps)
}

/// Whether the row answers as it says. A row `struct` completes a struct.
pub fn agrees<L: Ledger>(
    alloc: Global,
    defs: &mut Defs,
    row: &[Tree],
    blank: Blank,
) -> Result<bool, Stop>
    requires name { blank.name ≡ L.name }
    requires parts { blank.parts ≡ L.parts }
    requires some { 0 < blank.parts }
{
    let mut steps = Steps::<L>::new(blank);
    match part(row, 0)?.word() {
        "struct" => put_struct(alloc, &mut defs.structs, row),
        "eval" => judged(alloc, defs, row, &mut steps),
        "locate" => judged(alloc, defs, row, &mut steps),
        _ => Err(Stop::Unreadable),
    }
}
