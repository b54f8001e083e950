ghost use Rattle.std.specs.Prelude.{◌≡◌, ◌<◌};

use floyd_text::Steps;
use floyd_tree::{
    Term, equal, formula_mentions, formula_size, height, mentions, rewrite_at, size, sort, subst,
};
use std::alloc::Global;
use std::sync::ledger::{Blank, Ledger};
use tests_terms::{DEPTH, Stop, Tree, formula_of, part, replaces_leftmost, says, sort_of, term_of};

/// Whether a refusal is the answer that the row has.
fn is_answer(stop: Stop, answer: &Tree) -> Result<bool, Stop> {
    match stop {
        Stop::Memory | Stop::Unreadable => Err(stop),
        Stop::IllSorted | Stop::TooLarge | Stop::Absent => { Ok(answer.word() == stop.word()) }
    }
}

/// Whether the term, or the refusal, is the answer that the row has.
fn is_term<L: Ledger>(
    alloc: Global,
    given: Result<Term, Stop>,
    answer: &Tree,
    steps: &mut Steps<L>,
) -> Result<bool, Stop> {
    match given {
        Ok(term) => Ok(equal(&term, &term_of(alloc, answer, DEPTH, steps)?)),
        Err(stop) => is_answer(stop, answer),
    }
}

/// `sort TERM SORT`, or why the term is not made.
fn sort_row<L: Ledger>(alloc: Global, row: &[Tree], steps: &mut Steps<L>) -> Result<bool, Stop> {
    let answer = part(row, 2)?;
    match term_of(alloc, part(row, 1)?, DEPTH, steps) {
        Ok(term) => Ok(sort(&term).same(&sort_of(alloc, answer)?)),
        Err(stop) => is_answer(stop, answer),
    }
}

/// `formula FORMULA made`, or why it is not made.
fn formula_row<L: Ledger>(alloc: Global, row: &[Tree], steps: &mut Steps<L>) -> Result<bool, Stop> {
    let answer = part(row, 2)?;
    match formula_of(alloc, part(row, 1)?, DEPTH, steps) {
        Ok(_) => Ok(answer.word() == "made"),
        Err(stop) => is_answer(stop, answer),
    }
}

/// `measures TERM SIZE HEIGHT`.
fn measures_row<L: Ledger>(
    alloc: Global,
    row: &[Tree],
    steps: &mut Steps<L>,
) -> Result<bool, Stop> {
    let term = term_of(alloc, part(row, 1)?, DEPTH, steps)?;
    Ok(size(&term) == part(row, 2)?.count()? && height(&term) == part(row, 3)?.count()?)
}

/// `formula-measures FORMULA SIZE HEIGHT`.
fn formula_measures_row<L: Ledger>(
    alloc: Global,
    row: &[Tree],
    steps: &mut Steps<L>,
) -> Result<bool, Stop> {
    let formula = formula_of(alloc, part(row, 1)?, DEPTH, steps)?;
    Ok(
        formula_size(&formula) == part(row, 2)?.count()?
            && formula.height() == part(row, 3)?.count()?,
    )
}

/// `equal TERM TERM yes`, or `no`.
fn equal_row<L: Ledger>(alloc: Global, row: &[Tree], steps: &mut Steps<L>) -> Result<bool, Stop> {
    let a = term_of(alloc, part(row, 1)?, DEPTH, steps)?;
    let b = term_of(alloc, part(row, 2)?, DEPTH, steps)?;
    Ok(says(part(row, 3)?, equal(&a, &b)))
}

/// `mentions TERM NAME yes`, or `no`.
fn mentions_row<L: Ledger>(
    alloc: Global,
    row: &[Tree],
    steps: &mut Steps<L>,
) -> Result<bool, Stop> {
    let term = term_of(alloc, part(row, 1)?, DEPTH, steps)?;
    Ok(says(part(row, 3)?, mentions(&term, &part(row, 2)?.name()?)))
}

/// `free FORMULA NAME yes`, or `no`.
fn free_row<L: Ledger>(alloc: Global, row: &[Tree], steps: &mut Steps<L>) -> Result<bool, Stop> {
    let formula = formula_of(alloc, part(row, 1)?, DEPTH, steps)?;
    Ok(says(
        part(row, 3)?,
        formula_mentions(&formula, &part(row, 2)?.name()?),
    ))
}

/// `subst TERM NAME BY TERM`, or the refusal.
fn subst_row<L: Ledger>(alloc: Global, row: &[Tree], steps: &mut Steps<L>) -> Result<bool, Stop> {
    let term = term_of(alloc, part(row, 1)?, DEPTH, steps)?;
    let by = term_of(alloc, part(row, 3)?, DEPTH, steps)?;
    let result = match subst(alloc, &term, &part(row, 2)?.name()?, &by, steps) {
        Ok(term) => Ok(term),
        Err(stop) => Err(Stop::from(stop)),
    };
    is_term(alloc, result, part(row, 4)?, steps)
}

/// `rewrite TERM (PLACE ..) BY TERM`, or the refusal.
fn rewrite_row<L: Ledger>(alloc: Global, row: &[Tree], steps: &mut Steps<L>) -> Result<bool, Stop> {
    let term = term_of(alloc, part(row, 1)?, DEPTH, steps)?;
    let by = term_of(alloc, part(row, 3)?, DEPTH, steps)?;
    let mut path = Vec::new(alloc);
    'places: for place in part(row, 2)?.parts() {
        path.push(place.count()?)?;
    }
    let result = match rewrite_at(alloc, &term, path.as_slice(), &by, steps) {
        Ok(term) => Ok(term),
        Err(stop) => Err(Stop::from(stop)),
    };
    is_term(alloc, result, part(row, 4)?, steps)
}

/// Whether the row answers as it says.
pub fn agrees<L: Ledger>(alloc: Global, row: &[Tree], blank: Blank) -> Result<bool, Stop>
    requires name { blank.name ≡ L.name }
    requires parts { blank.parts ≡ L.parts }
    requires some { 0 < blank.parts }
{
    let mut steps = Steps::<L>::new(blank);
    match part(row, 0)?.word() {
        "sort" => sort_row(alloc, row, &mut steps),
        "formula" => formula_row(alloc, row, &mut steps),
        "measures" => measures_row(alloc, row, &mut steps),
        "formula-measures" => formula_measures_row(alloc, row, &mut steps),
        "equal" => equal_row(alloc, row, &mut steps),
        "mentions" => mentions_row(alloc, row, &mut steps),
        "free" => free_row(alloc, row, &mut steps),
        "subst" => subst_row(alloc, row, &mut steps),
        "rewrite" => rewrite_row(alloc, row, &mut steps),
        "leftmost" => replaces_leftmost(alloc, part(row, 1)?.count()?, &mut steps),
        _ => Err(Stop::Unreadable),
    }
}
