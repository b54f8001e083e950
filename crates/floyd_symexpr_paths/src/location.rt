ghost use Rattle.std.specs.Prelude.{◌≡◌, Some};
ghost use Rattle.floyd_text.specs.Gives.{RuleGives};
ghost use Rattle.floyd_symexpr_paths.specs.Bounds.{located as located_lem, located_in as located_in_lem, located_sides as located_sides_lem};

use crate::bounds::say_bounds;
use crate::lvalue::Lvalue;
use crate::matching::{Found, find};
use crate::places::{no_part, path_of, say_subscripts};
use crate::search::Search;
use floyd_ctypes::CType;
use floyd_fieldpath::sized_type;
use floyd_symexpr_rows::{Needs, Objects};
use floyd_text::{RuleStop, Steps};
use floyd_tree::{FormulaList, Path, Term, TermList};
use std::alloc::Global;
use std::sync::ledger::Ledger;

/// Where an object lies: its root, its path in the form that matched, the number of the part from 1, the side formulas
/// under which it lies there, in order, and the terms that must be valid addresses.
pub struct Located {
    pub root: Term,
    pub path: Path,
    pub part: u32,
    pub sides: FormulaList,
    pub valid: TermList,
}

impl Drop for Located {
    fn drop(self) {
        let Located {
            root,
            path,
            part: _,
            sides,
            valid,
        } = self;
        drop(root);
        drop(path);
        drop(sides);
        drop(valid);
    }
}

/// What an object needs in the part that has it.
#[tactic(auto, using(floyd_symexpr_rows::proofs::SayingLemmas::goes_on, floyd_symexpr_rows::proofs::SayingLemmas::stops))]
fn say_needs<L: Ledger>(
    at: Objects<'_>,
    l: &Lvalue,
    f: &Found,
    all: &mut FormulaList,
    steps: &mut Steps<L>,
) -> Result<(), RuleStop>
    ensures exact { RuleGives (λ u. all.new) result (located_sides_lem at.entry.structs.now l.now f.now all.old) }
{
    say_subscripts(at.alloc, l, all, steps)?;
    say_bounds(at, &f.ty, f.own_steps, f.form.as_slice(), all, steps)
}

/// The answer, where a part has the object.
#[tactic(auto, using(floyd_symexpr_rows::proofs::SayingLemmas::goes_on, floyd_symexpr_rows::proofs::SayingLemmas::stops))]
fn located_at<L: Ledger>(
    at: Objects<'_>,
    l: &Lvalue,
    f: &Found,
    needs: Needs,
    steps: &mut Steps<L>,
) -> Result<Located, RuleStop>
    ensures exact { RuleGives (λ x. x) result (located_in_lem at.entry.structs.now l.now needs (Some f.now)) }
{
    let (mut sides, valid) = needs.into_parts();
    say_needs(at, l, f, &mut sides, steps)?;
    Ok(Located {
        root: l.root.share()?,
        path: path_of(at.alloc, f.form.as_slice())?,
        part: f.number,
        sides,
        valid,
    })
}

/// Where an object of the type lies: in the first part that has it, for the first of the three forms of its path for which
/// there is one. What it needs stands behind what was needed before.
pub fn locate_object<L: Ledger>(
    at: Objects<'_>,
    t: &CType,
    l: &Lvalue,
    needs: Needs,
    steps: &mut Steps<L>,
) -> Result<Located, RuleStop>
    ensures exact { RuleGives (λ x. x) result (located_lem at.entry.structs.now at.entry.parts.now t.now l.now needs) }
{
    let last = sized_type(at.alloc, t, steps)?;
    let search = Search {
        structs: at.structs,
        parts: at.parts,
        root: &l.root,
        last: &last,
    };
    match find(at.alloc, search, l.form.as_slice(), steps)? {
        Some(f) => located_at(at, l, &f, needs, steps),
        None => Err(RuleStop::No(no_part())),
    }
}
