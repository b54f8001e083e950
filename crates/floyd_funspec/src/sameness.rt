ghost use Rattle.std.specs.Prelude.{◌↔◌, IsTrue};
ghost use Rattle.floyd_assert.specs.AroundClauses.{binders};
ghost use Rattle.floyd_assert_meaning.specs.Same.{SameFunspec};
ghost use Rattle.floyd_funspec.specs.SameClauses.{EndsSame, HeadsSame, PostsSame, PresSame, TypesSame};

use crate::same_lists::{
    formulas_same, names_same, option_same, sorts_same, terms_same, type_same, types_same,
};
use crate::same_parts::parts_same;
use floyd_assert::{Around, Funspec, Postcondition, Precondition};

/// Whether both carry one SPEC's name or none, and have variables of the same sorts.
fn heads_same(a: &Funspec, b: &Funspec) -> bool
    ensures { IsTrue result ↔ HeadsSame a.now b.now }
{
    names_same(&a.name, &b.name) && sorts_same(a.with.as_slice(), b.with.as_slice())
}

fn signatures_same(a: &Funspec, b: &Funspec, around: &Around) -> bool
    ensures { IsTrue result ↔ TypesSame (binders around.now) a.now b.now }
{
    types_same(a.params.as_slice(), b.params.as_slice(), around)
        && type_same(&a.result, &b.result, around)
}

fn pres_same(a: &Precondition, b: &Precondition, around: &Around) -> bool
    ensures { IsTrue result ↔ PresSame (binders around.now) a.now b.now }
{
    formulas_same(a.props.as_slice(), b.props.as_slice(), around)
        && terms_same(a.params.as_slice(), b.params.as_slice(), around)
        && parts_same(a.parts.as_slice(), b.parts.as_slice(), around)
}

/// What stands below the existentials of two postconditions.
fn ends_same(a: &Postcondition, b: &Postcondition, around: &Around) -> bool
    ensures { IsTrue result ↔ EndsSame (binders around.now) a.now b.now }
{
    formulas_same(a.props.as_slice(), b.props.as_slice(), around)
        && option_same(&a.value, &b.value, around)
        && parts_same(a.parts.as_slice(), b.parts.as_slice(), around)
}

fn posts_same(a: &Postcondition, b: &Postcondition, around: &Around) -> bool
    ensures { IsTrue result ↔ PostsSame (binders around.now) a.now b.now }
{
    let old = a.existentials.as_slice();
    let new = b.existentials.as_slice();
    sorts_same(old, new) && ends_same(a, b, &Around::Lists(old, new, &*around))
}

/// Whether two specifications are equal up to bound names: the variables of WITH, existentials, and the variables of
/// quantifiers. Both carry the name of one SPEC, or of none. GLOBALS is not compared.
pub fn same(a: &Funspec, b: &Funspec) -> bool
    ensures { IsTrue result ↔ SameFunspec a.now b.now }
{
    if !heads_same(a, b) {
        return false;
    }
    let outside = Around::Nothing;
    let around = Around::Lists(a.with.as_slice(), b.with.as_slice(), &outside);
    if !signatures_same(a, b, &around) {
        return false;
    }
    if !pres_same(&a.pre, &b.pre, &around) {
        return false;
    }
    posts_same(&a.post, &b.post, &around)
}
