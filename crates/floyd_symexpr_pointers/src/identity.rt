ghost use Rattle.std.specs.Prelude.{◌≡◌};
ghost use Rattle.floyd_arith.specs.Same.{same_term};

use floyd_tree::{Term, equal};

/// Whether two terms are identical.
pub(crate) fn identical(a: &Term, b: &Term) -> bool
    ensures { result ≡ same_term a.now b.now }
{
    equal(a, b)
}
