//! Formulas that are made of terms and formulas that were read.
ghost use Rattle.std.specs.Prelude.{◌≡◌, ◌<◌, ◌∷◌, [], IfOk};
ghost use Rattle.floyd_tree.specs.Formulas.{Says, formulas};
ghost use Rattle.floyd_tree.specs.Made.{Gives};
ghost use Rattle.floyd_tree.specs.MadeFormulas.{made_formula};
ghost use Rattle.floyd_tree.specs.Plain.{plains};
ghost use Rattle.floyd_tree.specs.WellSorted.{sort_of};
ghost use Rattle.floyd_termread_wants.specs.Judging.{Judges};
ghost use Rattle.floyd_termread_forms.specs.Making as specs;

use floyd_termread_trees::Infix;
use floyd_termread_wants::{JudgeStop, Wanted, ill_sorted, place_term, too_large};
use floyd_text::{Place, Steps};
use floyd_tree::{Formula, FormulaHead, Head, MakeStop, Operator, Sort, Term, make_formula, sort};
use std::alloc::{AllocError, Global};
use std::marker::Brand;
use std::sync::ledger::{Blank, Ledger};

/// The formula of this head, these terms and these formulas, for a caller that counts nothing.
fn make(
    alloc: Global,
    head: FormulaHead,
    terms: &[Term],
    kids: &[Formula],
) -> Result<Formula, MakeStop>
    ensures exact { Gives result (made_formula head terms.now kids.now) }
{
    make_from::<Brand>(alloc, head, terms, kids, Blank::new(1))
}

/// The same with a counter of its own.
fn make_from<L: Ledger>(
    alloc: Global,
    head: FormulaHead,
    terms: &[Term],
    kids: &[Formula],
    blank: Blank,
) -> Result<Formula, MakeStop>
    requires name { blank.name ≡ L.name }
    requires parts { blank.parts ≡ L.parts }
    requires some { 0 < blank.parts }
    ensures exact { Gives result (made_formula head terms.now kids.now) }
{
    let mut steps = Steps::<L>::new(blank);
    make_formula(alloc, head, terms, kids, &mut steps)
}

/// A formula, which begins here.
pub fn place_formula(
    alloc: Global,
    place: Place,
    head: FormulaHead,
    terms: &[Term],
    kids: &[Formula],
) -> Result<Formula, JudgeStop>
    ensures exact { Judges (λ x. x) result (specs.written place (Says head (plains terms.now) (formulas kids.now))) }
{
    match make(alloc, head, terms, kids) {
        Ok(x) => Ok(x),
        Err(MakeStop::IllSorted) => Err(JudgeStop::Refused(ill_sorted(place))),
        Err(MakeStop::TooLarge) => Err(JudgeStop::Refused(too_large(place))),
        Err(MakeStop::Memory) => Err(JudgeStop::Memory),
    }
}

/// A formula of one formula.
pub(crate) fn place_one(
    alloc: Global,
    place: Place,
    head: FormulaHead,
    x: Formula,
) -> Result<Formula, JudgeStop>
    ensures exact { Judges (λ y. y) result (specs.written place (specs.on_one head x)) }
{
    let kids = [x];
    place_formula(alloc, place, head, &[], &kids)
}

/// A formula of two formulas.
pub(crate) fn place_two(
    alloc: Global,
    place: Place,
    head: FormulaHead,
    x: Formula,
    y: Formula,
) -> Result<Formula, JudgeStop>
    ensures exact { Judges (λ x. x) result (specs.written place (specs.on_two head x y)) }
{
    let kids = [x, y];
    place_formula(alloc, place, head, &[], &kids)
}

/// `F -> False`
pub(crate) fn negation(alloc: Global, place: Place, x: Formula) -> Result<Formula, JudgeStop>
    ensures exact { Judges (λ x. x) result (specs.written place (specs.negation x)) }
{
    let falsity = place_formula(alloc, place, FormulaHead::False, &[], &[])?;
    place_two(alloc, place, FormulaHead::Implies, x, falsity)
}

/// A relation of two terms.
fn relate(
    alloc: Global,
    place: Place,
    head: FormulaHead,
    t: Term,
    u: Term,
) -> Result<Formula, JudgeStop>
    ensures exact { Judges (λ x. x) result (specs.written place (specs.on_terms head (t ∷ u ∷ []))) }
{
    let terms = [t, u];
    place_formula(alloc, place, head, &terms, &[])
}

/// One more than a number that begins here.
fn one_more(alloc: Global, place: Place, t: Term) -> Result<Term, JudgeStop>
    ensures exact { Judges (λ t. t) result (specs.one_more place t) }
{
    let any = Wanted::Any(None);
    let one = place_term(alloc, &any, place, Head::Literal(1), &[])?;
    let kids = [t, one];
    place_term(alloc, &any, place, Head::Operator(Operator::Add), &kids)
}

/// What the first side of a relation is to be.
pub fn first_wanted(op: Infix) -> Option<Wanted>
    ensures { result ≡ specs.first_wanted op }
{
    match op {
        Infix::Equal | Infix::Unequal => Some(Wanted::Any(None)),
        Infix::AtMost | Infix::Less | Infix::AtLeast | Infix::Greater => {
            Some(Wanted::This(Sort::Z))
        }
        _ => None,
    }
}

/// What its second side is to be.
pub fn second_wanted(first: &Term) -> Result<Wanted, AllocError>
    ensures { IfOk result (λ w. w ≡ specs.same_wanted (sort_of first.now)) }
{
    Ok(Wanted::This(sort(first).share()?))
}

/// Where the sides of a relation begin.
#[derive(Clone, Copy)]
pub struct Sides {
    pub left: Place,
    pub right: Place,
}

/// What a relation makes of its sides.
pub fn related(
    alloc: Global,
    op: Infix,
    places: Sides,
    t: Term,
    u: Term,
) -> Result<Formula, JudgeStop>
    ensures exact { Judges (λ x. x) result (specs.related op places.left places.right t u) }
{
    let place = places.left;
    match op {
        Infix::Equal => relate(alloc, place, FormulaHead::Equal, t, u),
        Infix::Unequal => {
            let x = relate(alloc, place, FormulaHead::Equal, t, u)?;
            negation(alloc, place, x)
        }
        Infix::AtMost => relate(alloc, place, FormulaHead::AtMost, t, u),
        Infix::Less => {
            let s = one_more(alloc, place, t)?;
            relate(alloc, place, FormulaHead::AtMost, s, u)
        }
        Infix::AtLeast => relate(alloc, place, FormulaHead::AtMost, u, t),
        Infix::Greater => {
            let s = one_more(alloc, places.right, u)?;
            relate(alloc, place, FormulaHead::AtMost, s, t)
        }
        _ => Err(JudgeStop::CutOff),
    }
}
