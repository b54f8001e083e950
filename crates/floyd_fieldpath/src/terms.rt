ghost use Rattle.std.specs.Prelude.{◌≡◌, IfOk};

use floyd_tree::{Term, TermList};
use sqlite_items::Items;
use std::alloc::{AllocError, Global};

/// The same terms, which are not copied.
pub(crate) fn share_terms(alloc: Global, terms: &[Term]) -> Result<TermList, AllocError>
    ensures { IfOk result (λ all. all ≡ terms.now) }
{
    let mut all = Vec::with_capacity(alloc, terms.len())?;
    'terms: for term in terms {
        all.push(term.share()?)?;
    }
    Ok(Items::from_vec(all))
}
