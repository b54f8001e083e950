ghost use Rattle.std.specs.Prelude.{◌≡◌, ◌<◌, ◌+◌, ◌++◌, ◌∷◌, [], true, IfOk, IfErr, OnOk, map, length, drop};
ghost use Rattle.floyd_assert_changes.specs.Changed.{AssertionSortsAgree, assertion_after, assertion_fits, below_existentials, body_after, local_after, local_terms, new_existentials, renamed_from, terms_in};
ghost use Rattle.floyd_assert_changes.specs.ChangesClauses.{IsChanging, IsStill, changes, changes_of};
ghost use Rattle.floyd_assert_changes.specs.FittingClauses.{StopsWhere, fit_after};
ghost use Rattle.floyd_tree.specs.Formulas.{formulas};
ghost use Rattle.floyd_tree.specs.Plain.{plains};
ghost use Rattle.floyd_truth.specs.Replace.{AllSortsAgree, FormulasSortsAgree};

use crate::body::existential_name;
use crate::changing::{Change, Changing};
use crate::parts::parts_after;
use crate::prepare::{existential_bits, existential_changes};
use crate::replace::term_after;
use crate::replace_formula::formulas_after;
use floyd_assert_trees::{Assertion, Binder, BinderList, Local};
use floyd_text::Steps;
use floyd_tree::MakeStop;
use sqlite_items::Items;
use std::alloc::{AllocError, Global};
use std::sync::ledger::Ledger;

/// The assertion after the changes, whose bits these are.
pub fn assertion_after<L: Ledger>(
    alloc: Global,
    a: &Assertion,
    by: &[Change],
    bits: u64,
    steps: &mut Steps<L>,
) -> Result<Assertion, MakeStop>
    requires sorts { AssertionSortsAgree (changes_of by.now) a.now }
    requires still { IsStill bits (changes_of by.now) }
    ensures ok { IfOk result (λ made. made ≡ assertion_after (changes_of by.now) a.now) }
    ensures fits { OnOk result (assertion_fits (assertion_after (changes_of by.now) a.now) ≡ true) }
    ensures err { IfErr result (λ stop. StopsWhere stop (assertion_fits (assertion_after (changes_of by.now) a.now))) }
{
    let old = a.existentials.as_slice();
    let new = new_existentials(alloc, by, a)?;
    let inside = existential_changes(alloc, by, old, new.as_slice())?;
    let bits = existential_bits(bits, old, new.as_slice());
    let changing = Changing::All(inside.as_slice(), bits);
    body_after(alloc, a, Items::from_vec(new), &changing, steps)
}

/// The existentials with their new names.
fn new_existentials(alloc: Global, by: &[Change], a: &Assertion) -> Result<Vec<Binder>, AllocError>
    ensures value { IfOk result (λ all. all.items ≡ new_existentials (changes_of by.now) a.now) }
    ensures count { IfOk result (λ all. length all.items ≡ length a.now.existentials) }
{
    let existentials = a.existentials.as_slice();
    let mut done = Vec::new(alloc);
    'existentials: for i in 0..existentials.len() {
        let next = renamed_binder(alloc, by, a, done.as_slice(), i)?;
        done.push(next)?;
    }
    Ok(done)
}

/// The existential at that place with its new name, where the earlier ones have these.
fn renamed_binder(
    alloc: Global,
    by: &[Change],
    a: &Assertion,
    done: &[Binder],
    place: usize,
) -> Result<Binder, AllocError>
    requires { place < length a.now.existentials }
    ensures { IfOk result (λ b. renamed_from (changes_of by.now) a.now done.now (drop place a.now.existentials) ≡ renamed_from (changes_of by.now) a.now (done.now ++ b ∷ []) (drop (place + 1) a.now.existentials)) }
{
    let binder = &a.existentials.as_slice()[place];
    let more = &a.existentials.as_slice()[place + 1..];
    let name = existential_name(alloc, by, a, done, more, &binder.name)?;
    let sort = binder.sort.share()?;
    Ok(Binder { name, sort })
}

/// The assertion with these existentials, and with the changes in what stands below them.
pub fn body_after<L: Ledger>(
    alloc: Global,
    a: &Assertion,
    existentials: BinderList,
    changing: &Changing,
    steps: &mut Steps<L>,
) -> Result<Assertion, MakeStop>
    requires props { FormulasSortsAgree (changes changing.now) (formulas a.now.props) }
    requires terms { AllSortsAgree (changes changing.now) (plains (terms_in a.now)) }
    requires still { IsChanging changing.now }
    ensures ok { IfOk result (λ made. made ≡ body_after (changes changing.now) a.now existentials) }
    ensures fits { OnOk result (assertion_fits (body_after (changes changing.now) a.now existentials) ≡ true) }
    ensures err { IfErr result (λ stop. StopsWhere stop (assertion_fits (body_after (changes changing.now) a.now existentials))) }
{
    let props = formulas_after(alloc, a.props.as_slice(), changing, steps)?;
    let locals = locals_after(alloc, a.locals.as_slice(), changing, steps)?;
    let parts = parts_after(alloc, a.parts.as_slice(), changing, steps)?;
    Ok(Assertion {
        existentials,
        props: Items::from_vec(props),
        locals: Items::from_vec(locals),
        parts: Items::from_vec(parts),
    })
}

fn locals_after<L: Ledger>(
    alloc: Global,
    locals: &[Local],
    changing: &Changing,
    steps: &mut Steps<L>,
) -> Result<Vec<Local>, MakeStop>
    requires sorts { AllSortsAgree (changes changing.now) (plains (local_terms locals.now)) }
    requires still { IsChanging changing.now }
    ensures ok { IfOk result (λ all. all.items ≡ map (local_after (changes changing.now)) locals.now) }
    ensures fits { OnOk result (fit_after (changes changing.now) (local_terms locals.now) ≡ true) }
    ensures err { IfErr result (λ stop. StopsWhere stop (fit_after (changes changing.now) (local_terms locals.now))) }
{
    let mut all = Vec::with_capacity(alloc, locals.len())?;
    'locals: for local in locals {
        let name = local.name.share()?;
        let term = term_after(alloc, &local.term, changing, steps)?;
        all.push(Local { name, term })?;
    }
    Ok(all)
}
