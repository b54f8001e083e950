ghost use Rattle.std.specs.Prelude.{◌≡◌, ◌↔◌, IsTrue};

use crate::term::{Term, head, kids, size, sort};

/// Whether two terms are the same tree.
#[cycle(equal)]
#[tactic(auto, using(crate::proofs::Heights::heights_below, crate::proofs::Heights::same_parts))]
pub fn equal(a: &Term, b: &Term) -> bool
    ensures { IsTrue result ↔ (a.now ≡ b.now) }
{
    if a.print() != b.print() || size(a) != size(b) || !sort(a).same(sort(b)) {
        return false;
    }
    head(a).same(head(b)) && equal_all(kids(a).as_slice(), kids(b).as_slice())
}

/// From the last on: a node is mostly made right after its kids, so the walk goes through memory in order.
#[cycle(equal)]
#[tactic(auto, using(crate::proofs::Heights::height_at))]
fn equal_all(a: &[Term], b: &[Term]) -> bool
    ensures { IsTrue result ↔ (a.now ≡ b.now) }
{
    if a.len() != b.len() {
        return false;
    }
    'kids: for i in (0..a.len()).rev() {
        if !equal(&a[i], &b[i]) {
            return false;
        }
    }
    true
}
