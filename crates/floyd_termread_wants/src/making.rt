//! Terms that are made of terms that were read.
ghost use Rattle.std.specs.Prelude.{◌≡◌, ◌<◌, IfOk, Some, true, is_some, option_and_then};
ghost use Rattle.floyd_tree.specs.Made.{Gives, made};
ghost use Rattle.floyd_tree.specs.Plain.{At, plains};
ghost use Rattle.floyd_tree.specs.WellSorted.{sort_of, sorts_of};
ghost use Rattle.floyd_tree_sorts.specs.Table.{by_row};
ghost use Rattle.floyd_termread_wants.specs.Judging.{Judges};
ghost use Rattle.floyd_termread_wants.specs.Making as specs;
ghost use Rattle.floyd_termread_wants.specs.MakingClauses as clauses;
ghost use Rattle.floyd_termread_wants.specs.Refusals as refusals;
ghost use Rattle.floyd_termread_wants.specs.Wants.{takes};

use crate::stop::JudgeStop;
use crate::wants::Wanted;
use floyd_cparse_trees::Identifier;
use floyd_text::{Code, Place, Refusal, Shown, Steps};
use floyd_tree::{Head, MakeStop, Sort, Term, head, make, sort};
use floyd_tree_sorts::{Row, sort0, sort1, sort2, sort3};
use std::alloc::{AllocError, Global};
use std::marker::Brand;
use std::sync::ledger::{Blank, Ledger};

/// A name that stands for nothing of the kind that is wanted.
pub fn unknown(i: &Identifier) -> Result<Refusal, AllocError>
    ensures { IfOk result (λ r. r ≡ refusals.unknown i.now) }
{
    let shown = Shown::Name(i.name.share()?);
    Ok(Refusal::at(Code::UnknownName, i.place, shown))
}

pub fn ill_sorted(place: Place) -> Refusal
    ensures { result ≡ refusals.ill_sorted place }
{
    Refusal::at(Code::IllSorted, place, Shown::Nothing)
}

pub fn too_large(place: Place) -> Refusal
    ensures { result ≡ refusals.too_large place }
{
    Refusal::at(Code::TermTooLarge, place, Shown::Nothing)
}

/// The term of this head and these kids, for a caller that counts nothing.
fn make_term(alloc: Global, head: Head, kids: &[Term]) -> Result<Term, MakeStop>
    ensures exact { Gives result (made head kids.now) }
{
    make_term_from::<Brand>(alloc, head, kids, Blank::new(1))
}

/// The same with a counter of its own.
fn make_term_from<L: Ledger>(
    alloc: Global,
    head: Head,
    kids: &[Term],
    blank: Blank,
) -> Result<Term, MakeStop>
    requires name { blank.name ≡ L.name }
    requires parts { blank.parts ≡ L.parts }
    requires some { 0 < blank.parts }
    ensures exact { Gives result (made head kids.now) }
{
    let mut steps = Steps::<L>::new(blank);
    make(alloc, head, kids, &mut steps)
}

/// The sort that an operator of this row gives of these kids, where it takes them.
fn row_sort(alloc: Global, row: Row, kids: &[Term]) -> Result<Option<Sort>, AllocError>
    ensures { IfOk result (λ s. s ≡ option_and_then (by_row row) (sorts_of (plains kids.now))) }
{
    match kids {
        [] => sort0(alloc, row),
        [a] => sort1(alloc, row, sort(a)),
        [a, b] => sort2(alloc, row, sort(a), sort(b)),
        [a, b, c] => sort3(alloc, row, sort(a), sort(b), sort(c)),
        _ => Ok(None),
    }
}

/// A term that was read, in a phrase that begins here.
pub fn take_term(wanted: &Wanted, place: Place, t: Term) -> Result<Term, JudgeStop>
    ensures exact { Judges (λ t. t) result (specs.taken wanted.now place t) }
{
    if wanted.takes(head(&t), sort(&t)) {
        Ok(t)
    } else {
        Err(JudgeStop::Refused(ill_sorted(place)))
    }
}

/// The sort of a term of this head, where the head alone says it.
fn fixed_sort(alloc: Global, head: &Head) -> Result<Option<Sort>, AllocError>
    ensures { IfOk result (λ s. s ≡ clauses.fixed_sort head.now) }
{
    match head {
        Head::Literal(_) => Ok(Some(Sort::Z)),
        Head::Variable(_, sort) => Ok(Some(sort.share()?)),
        Head::Gv(_) => Ok(Some(Sort::Val)),
        Head::Lv(_) => Ok(Some(Sort::Val)),
        Head::Nil(item) => Ok(Some(Sort::list_of(alloc, item.share()?)?)),
        Head::Leaf(item) => Ok(Some(Sort::tree_of(alloc, item.share()?)?)),
        Head::Signed(_) => Ok(Some(Sort::Z)),
        Head::Unsigned(_) => Ok(Some(Sort::Z)),
        Head::Default(_, sort) => Ok(Some(sort.share()?)),
        Head::Fun(_, _, sort) => Ok(Some(sort.share()?)),
        Head::Operator(_) => Ok(None),
    }
}

/// The sort that an operator gives of these kids, where it takes them.
fn operator_sort(alloc: Global, head: &Head, kids: &[Term]) -> Result<Option<Sort>, AllocError>
    ensures { IfOk result (λ s. s ≡ clauses.operator_sort head.now (sorts_of (plains kids.now))) }
{
    match head {
        Head::Operator(operator) => row_sort(alloc, operator.row(), kids),
        _ => Ok(None),
    }
}

/// Whether the place takes a term of this head and these kids, which is well sorted.
#[tactic(auto, using(crate::proofs::MakingLemmas::takes_fixed, crate::proofs::MakingLemmas::takes_row))]
fn takes_well_sorted(
    alloc: Global,
    wanted: &Wanted,
    head: &Head,
    kids: &[Term],
) -> Result<bool, AllocError>
    requires { is_some (sort_of (At head.now (plains kids.now))) ≡ true }
    ensures { IfOk result (λ yes. yes ≡ takes wanted.now (At head.now (plains kids.now))) }
{
    if let Some(sort) = fixed_sort(alloc, head)? {
        return Ok(wanted.takes(head, &sort));
    }
    match operator_sort(alloc, head, kids)? {
        Some(sort) => Ok(wanted.takes(head, &sort)),
        None => Ok(false),
    }
}

/// A term that is made of terms that were read. What does not fit its place is ill sorted where it begins; what fits and is
/// beyond the limits is too large there.
pub fn place_term(
    alloc: Global,
    wanted: &Wanted,
    place: Place,
    head: Head,
    kids: &[Term],
) -> Result<Term, JudgeStop>
    ensures exact { Judges (λ t. t) result (specs.placed wanted.now place (At head (plains kids.now))) }
{
    let again = head.share()?;
    match make_term(alloc, head, kids) {
        Ok(t) => take_term(wanted, place, t),
        Err(MakeStop::IllSorted) => Err(JudgeStop::Refused(ill_sorted(place))),
        Err(MakeStop::TooLarge) => {
            if takes_well_sorted(alloc, wanted, &again, kids)? {
                Err(JudgeStop::Refused(too_large(place)))
            } else {
                Err(JudgeStop::Refused(ill_sorted(place)))
            }
        }
        Err(MakeStop::Memory) => Err(JudgeStop::Memory),
    }
}
