//! Connectives between formulas.
ghost use Rattle.std.specs.Prelude.{◌≡◌};
ghost use Rattle.floyd_termread_forms.specs.Joining as specs;
ghost use Rattle.floyd_termread_forms.specs.Making.{on_two, written};
ghost use Rattle.floyd_termread_wants.specs.Judging.{Judges};

use crate::making::place_two;
use floyd_termread_wants::JudgeStop;
use floyd_text::Place;
use floyd_tree::{Formula, FormulaHead};
use std::alloc::Global;

/// A side of a connective, with the place where it begins.
pub struct Side {
    pub place: Place,
    pub formula: Formula,
}

impl Drop for Side {
    fn drop(self) {
        let Side { place: _, formula } = self;
        drop(formula);
    }
}

/// The formula of a side and what stands behind it.
fn join_two(
    alloc: Global,
    head: &FormulaHead,
    first: &Side,
    rest: Formula,
) -> Result<Formula, JudgeStop>
    ensures exact { Judges (λ x. x) result (written first.now.place (on_two head.now first.now.formula rest)) }
{
    let head = head.share()?;
    let left = first.formula.share()?;
    place_two(alloc, first.place, head, left, rest)
}

/// The formula of these sides, which group to the right. The limit on depth bounds their number.
pub fn join_sides(alloc: Global, head: &FormulaHead, sides: &[Side]) -> Result<Formula, JudgeStop>
    ensures exact { Judges (λ x. x) result (specs.joined_sides head.now sides.now) }
{
    match sides {
        [] => Err(JudgeStop::CutOff),
        [last] => Ok(last.formula.share()?),
        [first, more @ ..] => {
            let rest = join_sides(alloc, head, more)?;
            join_two(alloc, head, first, rest)
        }
    }
}
