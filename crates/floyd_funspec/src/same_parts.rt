ghost use Rattle.std.specs.Prelude.{◌≡◌, ◌↔◌, IsTrue};
ghost use Rattle.floyd_assert.specs.AroundClauses.{binders};
ghost use Rattle.floyd_assert_meaning.specs.Same.{Pairwise, RegionsAgree, SamePart, StepsAgree};
ghost use Rattle.floyd_truth.specs.Same.{SameTerm};

use crate::same_lists::{terms_same, type_same};
use floyd_assert::{Around, Region, Sep, same_term};
use floyd_tree::{Path, PathStep};

fn step_same(a: &PathStep, b: &PathStep, around: &Around) -> bool
    ensures { IsTrue result ↔ StepsAgree (SameTerm (binders around.now)) a.now b.now }
{
    match (a, b) {
        (PathStep::Field(x), PathStep::Field(y)) => x == y,
        (PathStep::Subscript(t), PathStep::Subscript(u)) => same_term(t, u, around),
        _ => false,
    }
}

fn path_same(a: &Path, b: &Path, around: &Around) -> bool
    ensures { IsTrue result ↔ Pairwise (StepsAgree (SameTerm (binders around.now))) a.now b.now }
{
    if a.len() != b.len() {
        return false;
    }
    'steps: for i in 0..a.len() {
        if !step_same(a.step(i), b.step(i), around) {
            return false;
        }
    }
    true
}

/// Whether two regions are the same, with their shares.
fn region_same(a: &Region, b: &Region, around: &Around) -> bool
    ensures { IsTrue result ↔ RegionsAgree (SameTerm (binders around.now)) a.now b.now }
{
    same_term(&a.share, &b.share, around)
        && type_same(&a.ty, &b.ty, around)
        && path_same(&a.path, &b.path, around)
        && same_term(&a.root, &b.root, around)
}

/// Whether two parts are equal up to the names of the binders around them.
fn part_same(a: &Sep, b: &Sep, around: &Around) -> bool
    ensures { IsTrue result ↔ SamePart (binders around.now) a.now b.now }
{
    match (a, b) {
        (Sep::FieldAt(r, v), Sep::FieldAt(s, w)) => {
            region_same(r, s, around) && same_term(v, w, around)
        }
        (Sep::Padding(r), Sep::Padding(s)) => region_same(r, s, around),
        (Sep::Valid(v), Sep::Valid(w)) => same_term(v, w, around),
        (Sep::Anything, Sep::Anything) => true,
        (Sep::Predicate(x, ts), Sep::Predicate(y, us)) => {
            x == y && terms_same(ts.as_slice(), us.as_slice(), around)
        }
        _ => false,
    }
}

/// The same of two lists of parts, one by one.
pub fn parts_same(a: &[Sep], b: &[Sep], around: &Around) -> bool
    ensures { IsTrue result ↔ Pairwise (SamePart (binders around.now)) a.now b.now }
{
    if a.len() != b.len() {
        return false;
    }
    'parts: for i in 0..a.len() {
        if !part_same(&a[i], &b[i], around) {
            return false;
        }
    }
    true
}
