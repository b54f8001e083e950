ghost use Rattle.std.specs.Prelude.{◌≡◌, ◌↔◌, IsTrue};
ghost use Rattle.floyd_assert.specs.AroundClauses.{binders};
ghost use Rattle.floyd_tree.specs.Formulas.{formulas};
ghost use Rattle.floyd_tree.specs.Plain.{plains};
ghost use Rattle.floyd_truth.specs.Same.{AllSame, SameForm, SameFormula, SameHead, SameTerm, SameTerms, SameUnder};

use crate::around::{Around, below, same_variable};
use floyd_tree::{
    Formula, FormulaHead, Head, Term, formula_head, formula_kids, formula_terms, head, kids,
};

/// Whether two formulas are equal up to bound names. It looks at each node once, and at a bound variable also at the
/// binders around it.
pub fn equal_formula(a: &Formula, b: &Formula) -> bool
    ensures { IsTrue result ↔ SameFormula a.now b.now }
{
    same_under(a, b, &Around::Nothing)
}

/// Whether two formulas are equal up to bound names, with these binders around them.
#[cycle(formulas)]
pub fn same_under(a: &Formula, b: &Formula, around: &Around) -> bool
    ensures { IsTrue result ↔ SameUnder (binders around.now) a.now b.now }
{
    let left = formula_head(&*a);
    let right = formula_head(&*b);
    if !same_form(left, right) {
        return false;
    }
    if !same_terms(
        formula_terms(a).as_slice(),
        formula_terms(b).as_slice(),
        around,
    ) {
        return false;
    }
    let around = below(left, right, &*around);
    all_same(
        formula_kids(a).as_slice(),
        formula_kids(b).as_slice(),
        &around,
    )
}

#[cycle(formulas)]
fn all_same(a: &[Formula], b: &[Formula], around: &Around) -> bool
    ensures { IsTrue result ↔ AllSame (binders around.now) (formulas a.now) (formulas b.now) }
{
    if a.len() != b.len() {
        return false;
    }
    'formulas: for i in 0..a.len() {
        if !same_under(&a[i], &b[i], around) {
            return false;
        }
    }
    true
}

/// Whether heads are equal but for the name that they bind.
fn same_form(a: &FormulaHead, b: &FormulaHead) -> bool
    ensures { IsTrue result ↔ SameForm a.now b.now }
{
    match a {
        FormulaHead::Forall(_, s) => match b {
            FormulaHead::Forall(_, t) => s.same(t),
            _ => false,
        },
        FormulaHead::Exists(_, s) => match b {
            FormulaHead::Exists(_, t) => s.same(t),
            _ => false,
        },
        _ => a.same(b),
    }
}

fn same_head(a: &Head, b: &Head, around: &Around) -> bool
    ensures { IsTrue result ↔ SameHead (binders around.now) a.now b.now }
{
    match a {
        Head::Variable(x, s) => match b {
            Head::Variable(y, t) => same_variable(around, x, y) && s.same(t),
            _ => false,
        },
        _ => a.same(b),
    }
}

/// Whether two terms are equal up to the names of the binders around them.
#[cycle(terms)]
pub fn same_term(a: &Term, b: &Term, around: &Around) -> bool
    ensures { IsTrue result ↔ SameTerm (binders around.now) a.now b.now }
{
    same_head(head(a), head(b), around)
        && same_terms(kids(a).as_slice(), kids(b).as_slice(), around)
}

/// Whether two lists of terms are so, each with each.
#[cycle(terms)]
pub fn same_terms(a: &[Term], b: &[Term], around: &Around) -> bool
    ensures { IsTrue result ↔ SameTerms (binders around.now) (plains a.now) (plains b.now) }
{
    if a.len() != b.len() {
        return false;
    }
    'terms: for i in 0..a.len() {
        if !same_term(&a[i], &b[i], around) {
            return false;
        }
    }
    true
}
