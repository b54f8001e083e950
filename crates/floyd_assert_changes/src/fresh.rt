ghost use Rattle.std.specs.Prelude.{◌≡◌, IfOk};
ghost use Rattle.std.specs.List.{list_any};
ghost use Rattle.floyd_assert_changes.specs.ChangesClauses.{capturing, captures_name, changes, changes_of};
ghost use Rattle.floyd_assert_changes.specs.NamesClauses.{has};
ghost use Rattle.floyd_truth.specs.Capture.{marked as marked_lem, most_marks, renamed as renamed_lem, unmarked_from};
ghost use Rattle.floyd_tree.specs.Formulas.{formulas, formulas_mention};

use crate::changing::{Change, Changing, brings, in_new_terms};
use crate::names::{add_formulas, add_new_terms};
use floyd_assert_trees::Names;
use floyd_text::{Bytes, Name};
use floyd_tree::{Formula, formula_mentions};
use std::alloc::{AllocError, Global};

/// How many names with a mark are tried: more than there are nodes.
const MOST_MARKS: u64 = 1 << 63;

/// The name that a binder of x over these formulas gets: x unless it would capture, else x'k with the least k from 1
/// that is free in no new term and neither free nor bound in the formulas.
#[tactic(auto, using(crate::proofs::Marking::quiet_name, crate::proofs::Marking::kept_name, crate::proofs::Marking::new_name_is))]
pub fn renamed(
    alloc: Global,
    changing: &Changing,
    kids: &[Formula],
    x: &Name,
) -> Result<Name, AllocError>
    ensures { IfOk result (λ name. name ≡ renamed_lem (changes changing.now) (formulas kids.now) x.now) }
{
    if !in_new_terms(changing, x) || !captures(changing, changing, kids, x) {
        return x.share();
    }
    let mut names = Names::new(alloc);
    add_new_terms(&mut names, changing)?;
    add_formulas(&mut names, kids)?;
    unmarked(alloc, &names, x)
}

/// x'k with the least k from 1 that is not among the names.
#[tactic(auto, using(crate::proofs::Marking::found_mark, crate::proofs::Marking::most_is))]
pub fn unmarked(alloc: Global, names: &Names, x: &Name) -> Result<Name, AllocError>
    ensures { IfOk result (λ name. name ≡ unmarked_from (has names.now) x.now most_marks 1) }
{
    'marks: for i in 0..MOST_MARKS {
        let name = marked(alloc, x, i + 1)?;
        if names.get(&name).is_none() {
            return Ok(name);
        }
    }
    marked(alloc, x, MOST_MARKS + 1)
}

/// x'k
fn marked(alloc: Global, x: &Name, k: u64) -> Result<Name, AllocError>
    ensures { IfOk result (λ name. name ≡ marked_lem x.now k) }
{
    let mut bytes = Bytes::from_slice(alloc, x.as_slice())?;
    let text = format!(in alloc; "'{k}")?;
    bytes.extend(text.as_bytes())?;
    Name::from_slice(alloc, bytes.as_slice())
}

/// Whether the variable is free in one of the formulas.
pub fn some_mentions(all: &[Formula], x: &Name) -> bool
    ensures { result ≡ formulas_mention x.now (formulas all.now) }
{
    'formulas: for formula in all {
        if formula_mentions(formula, x) {
            return true;
        }
    }
    false
}

/// Whether a binder of x over the formulas would capture a variable of a new term, as far as these changes tell.
fn captures<'a>(part: &Changing<'a>, whole: &Changing<'a>, kids: &[Formula], x: &Name) -> bool
    ensures { result ≡ list_any (capturing (changes whole.now) (formulas kids.now) x.now) (changes part.now) }
{
    match part {
        Changing::All(all, _) => captures_in(all, whole, kids, x),
        Changing::Under(own, _, outer, _) => {
            captures_at(whole, kids, x, own) || captures(outer, whole, kids, x)
        }
    }
}

fn captures_in(all: &[Change], whole: &Changing, kids: &[Formula], x: &Name) -> bool
    ensures { result ≡ list_any (capturing (changes whole.now) (formulas kids.now) x.now) (changes_of all.now) }
{
    'changes: for change in all {
        if captures_at(whole, kids, x, &change.name) {
            return true;
        }
    }
    false
}

/// Whether the variable is replaced by a term in which x is free, and is free in the formulas and another one than x.
fn captures_at(whole: &Changing, kids: &[Formula], x: &Name, variable: &Name) -> bool
    ensures { result ≡ captures_name (changes whole.now) (formulas kids.now) x.now variable.now }
{
    brings(whole, x, variable) && x != variable && some_mentions(kids, variable)
}
