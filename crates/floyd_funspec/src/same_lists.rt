ghost use Rattle.std.specs.Prelude.{◌≡◌, ◌↔◌, IsTrue};
ghost use Rattle.floyd_assert.specs.AroundClauses.{binders};
ghost use Rattle.floyd_assert_meaning.specs.Same.{Pairwise, SameOption, SameType};
ghost use Rattle.floyd_assert_meaning.specs.Settings.{binder_sorts};
ghost use Rattle.floyd_truth.specs.Same.{SameTerm, SameUnder};

use floyd_assert::{Around, Binder, same_term, same_terms, same_under};
use floyd_text::Name;
use floyd_tree::{AType, Formula, Term};

/// Whether both are the same name, or none.
pub fn names_same(a: &Option<Name>, b: &Option<Name>) -> bool
    ensures { IsTrue result ↔ (a.now ≡ b.now) }
{
    match (a, b) {
        (None, None) => true,
        (Some(x), Some(y)) => x == y,
        _ => false,
    }
}

/// Whether the variables of two lists have the same sorts, one by one.
pub fn sorts_same(a: &[Binder], b: &[Binder]) -> bool
    ensures { IsTrue result ↔ (binder_sorts a.now ≡ binder_sorts b.now) }
{
    if a.len() != b.len() {
        return false;
    }
    'binders: for i in 0..a.len() {
        if !a[i].sort.same(&b[i].sort) {
            return false;
        }
    }
    true
}

/// Whether two lists of formulas are equal up to bound names, with these binders around them.
pub fn formulas_same(a: &[Formula], b: &[Formula], around: &Around) -> bool
    ensures { IsTrue result ↔ Pairwise (SameUnder (binders around.now)) a.now b.now }
{
    if a.len() != b.len() {
        return false;
    }
    'formulas: for i in 0..a.len() {
        if !same_under(&a[i], &b[i], around) {
            return false;
        }
    }
    true
}

/// The same of terms.
pub fn terms_same(a: &[Term], b: &[Term], around: &Around) -> bool
    ensures { IsTrue result ↔ Pairwise (SameTerm (binders around.now)) a.now b.now }
{
    same_terms(a, b, around)
}

pub fn option_same(a: &Option<Term>, b: &Option<Term>, around: &Around) -> bool
    ensures { IsTrue result ↔ SameOption (binders around.now) a.now b.now }
{
    match (a, b) {
        (None, None) => true,
        (Some(t), Some(u)) => same_term(t, u, around),
        _ => false,
    }
}

/// Whether two types have one shape, and the same sizes of arrays.
pub fn type_same(a: &AType, b: &AType, around: &Around) -> bool
    ensures { IsTrue result ↔ SameType (binders around.now) a.now b.now }
{
    a.shape().get().same(b.shape().get())
        && terms_same(a.sizes().as_slice(), b.sizes().as_slice(), around)
}

pub fn types_same(a: &[AType], b: &[AType], around: &Around) -> bool
    ensures { IsTrue result ↔ Pairwise (SameType (binders around.now)) a.now b.now }
{
    if a.len() != b.len() {
        return false;
    }
    'types: for i in 0..a.len() {
        if !type_same(&a[i], &b[i], around) {
            return false;
        }
    }
    true
}
