ghost use Rattle.std.specs.Prelude.{◌≡◌, ◌↔◌, IsTrue};
ghost use Rattle.floyd_arith.specs.Same.{same_term};
ghost use Rattle.floyd_symexpr_paths.specs.Same.{same_type as same_type_lem};

use floyd_tree::{AType, Term, equal};

/// Whether two terms are identical.
pub(crate) fn identical(a: &Term, b: &Term) -> bool
    ensures { result ≡ same_term a.now b.now }
{
    equal(a, b)
}

fn equal_sizes(a: &[Term], b: &[Term]) -> bool
    ensures { IsTrue result ↔ (a.now ≡ b.now) }
{
    if a.len() != b.len() {
        return false;
    }
    'sizes: for i in 0..a.len() {
        if !equal(&a[i], &b[i]) {
            return false;
        }
    }
    true
}

fn equal_types(a: &AType, b: &AType) -> bool
    ensures { IsTrue result ↔ (a.now ≡ b.now) }
{
    a.shape().get().same(b.shape().get()) && equal_sizes(a.sizes().as_slice(), b.sizes().as_slice())
}

/// Whether two types are one, with identical sizes of arrays.
pub(crate) fn same_type(a: &AType, b: &AType) -> bool
    ensures { result ≡ same_type_lem a.now b.now }
{
    equal_types(a, b)
}
