ghost use Rattle.std.specs.Prelude.{◌≡◌, ◌↔◌, IsTrue};

use floyd_assert_trees::{Region, Sep};
use floyd_tree::{AType, Path, PathStep, Term, equal};

/// Whether two parts are equal, with their shares. A part that is written without a share has the share 16.
pub fn equal_part(a: &Sep, b: &Sep) -> bool
    ensures { IsTrue result ↔ (a.now ≡ b.now) }
{
    match (a, b) {
        (Sep::FieldAt(r, v), Sep::FieldAt(s, w)) => equal_region(r, s) && equal(v, w),
        (Sep::Padding(r), Sep::Padding(s)) => equal_region(r, s),
        (Sep::Valid(v), Sep::Valid(w)) => equal(v, w),
        (Sep::Anything, Sep::Anything) => true,
        (Sep::Predicate(x, ts), Sep::Predicate(y, us)) => {
            x == y && equal_terms(ts.as_slice(), us.as_slice())
        }
        _ => false,
    }
}

/// Whether two regions are equal, with their shares.
pub fn equal_region(a: &Region, b: &Region) -> bool
    ensures { IsTrue result ↔ (a.now ≡ b.now) }
{
    equal(&a.share, &b.share)
        && equal(&a.root, &b.root)
        && equal_type(&a.ty, &b.ty)
        && equal_path(&a.path, &b.path)
}

fn equal_type(a: &AType, b: &AType) -> bool
    ensures { IsTrue result ↔ (a.now ≡ b.now) }
{
    a.shape().get().same(b.shape().get()) && equal_terms(a.sizes().as_slice(), b.sizes().as_slice())
}

fn equal_terms(a: &[Term], b: &[Term]) -> bool
    ensures { IsTrue result ↔ (a.now ≡ b.now) }
{
    if a.len() != b.len() {
        return false;
    }
    'terms: for i in 0..a.len() {
        if !equal(&a[i], &b[i]) {
            return false;
        }
    }
    true
}

fn equal_path(a: &Path, b: &Path) -> bool
    ensures { IsTrue result ↔ (a.now ≡ b.now) }
{
    if a.len() != b.len() {
        return false;
    }
    'steps: for i in 0..a.len() {
        if !equal_step(a.step(i), b.step(i)) {
            return false;
        }
    }
    true
}

fn equal_step(a: &PathStep, b: &PathStep) -> bool
    ensures { IsTrue result ↔ (a.now ≡ b.now) }
{
    match (a, b) {
        (PathStep::Field(x), PathStep::Field(y)) => x == y,
        (PathStep::Subscript(t), PathStep::Subscript(u)) => equal(t, u),
        _ => false,
    }
}
