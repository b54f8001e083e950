//! Rows of the tables.
ghost use Rattle.std.specs.Prelude.{◌≡◌, ◌<◌};

use crate::items::{add_fun, add_lemma, add_pred, place_of};
use crate::specs::funspec_of;
use floyd_assert_trees::Defs;
use floyd_funspec::same;
use floyd_predicates::well_formed;
use floyd_text::{Halt, Refusal, Shown, Steps};
use std::alloc::Global;
use std::sync::ledger::{Blank, Ledger};
use tests_goals::no_defs;
use tests_terms::{Stop, Tree, part, says};

/// Whether the refusal is `CODE PLACE NAME`.
fn is_refusal(refusal: &Refusal, answer: &[Tree]) -> Result<bool, Stop> {
    let code = part(answer, 0)?.count()?;
    let place = place_of(part(answer, 1)?)?;
    let name = part(answer, 2)?.name()?;
    let named = match &refusal.shown {
        Shown::Name(shown) => *shown == name,
        _ => false,
    };
    Ok(
        named
            && u32::from(refusal.code.number()) == code
            && refusal.place.file == place.file
            && refusal.place.line == place.line
            && refusal.place.column == place.column,
    )
}

/// `FILE ok`, or `FILE` and a refusal.
fn is_judged(alloc: Global, defs: &Defs, own: &[Tree]) -> Result<bool, Stop> {
    let file = part(own, 0)?.count()?;
    let answer = own.get(1..).unwrap_or(&[]);
    match &well_formed(alloc, defs, file) {
        Ok(()) => Ok(part(answer, 0)?.word() == "ok"),
        Err(Halt::Refused(refusal)) => {
            Ok(part(answer, 0)?.word() != "ok" && is_refusal(refusal, answer)?)
        }
        Err(Halt::Memory) => Err(Stop::Memory),
    }
}

/// `SPEC SPEC yes` or `SPEC SPEC no`, which holds in either order.
fn are_same<L: Ledger>(alloc: Global, own: &[Tree], steps: &mut Steps<L>) -> Result<bool, Stop> {
    let a = funspec_of(alloc, part(own, 0)?.parts(), steps)?;
    let b = funspec_of(alloc, part(own, 1)?.parts(), steps)?;
    let answer = part(own, 2)?;
    Ok(says(answer, same(&a, &b)) && says(answer, same(&b, &a)))
}

/// Whether the row answers as it says, or nothing where it adds an item. `new` takes all items away.
pub fn judged<L: Ledger>(
    alloc: Global,
    defs: &mut Defs,
    row: &[Tree],
    blank: Blank,
) -> Result<Option<bool>, Stop>
    requires name { blank.name ≡ L.name }
    requires parts { blank.parts ≡ L.parts }
    requires some { 0 < blank.parts }
{
    let mut steps = Steps::<L>::new(blank);
    let own = row.get(1..).unwrap_or(&[]);
    match part(row, 0)?.word() {
        "new" => *defs = no_defs(alloc),
        "fun" => add_fun(alloc, defs, own, &mut steps)?,
        "pred" => add_pred(alloc, defs, own, &mut steps)?,
        "lemma" => add_lemma(alloc, defs, own, &mut steps)?,
        "well_formed" => return Ok(Some(is_judged(alloc, defs, own)?)),
        "same" => return Ok(Some(are_same(alloc, own, &mut steps)?)),
        _ => return Err(Stop::Unreadable),
    }
    Ok(None)
}
