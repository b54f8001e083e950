//! What declarators put around types.
ghost use Rattle.std.specs.Prelude.{◌≡◌, IfOk};
ghost use Rattle.floyd_elab_names.specs.Types.{array_of as array_of_lem};
ghost use Rattle.floyd_elab_names.specs.Declarators.{pointers as pointers_lem};
ghost use Rattle.floyd_elab_names.specs.WrapClauses.{around as around_lem, wrap_all as wrapped_lem};

use crate::types::pointer_to;
use floyd_ctypes::{CType, TypeList};
use floyd_text::Shared;
use sqlite_items::Items;
use std::alloc::{AllocError, Global};

/// A part of a declarator: so many stars, an array of so many elements, or a function of parameters of these types.
pub(crate) enum Wrap {
    Pointers(usize),
    Array(u64),
    Function(TypeList),
}

impl Drop for Wrap {
    fn drop(self) {
        match self {
            Wrap::Pointers(_) => {}
            Wrap::Array(_) => {}
            Wrap::Function(types) => drop(types),
        }
    }
}

/// The type with all these around it, the last one first.
#[tactic(auto, using(crate::proofs::WrapLemmas::wrapped_last))]
pub(crate) fn wrap_all(alloc: Global, wraps: Items<Wrap>, t: CType) -> Result<CType, AllocError>
    ensures { IfOk result (λ u. u ≡ wrapped_lem wraps t) }
{
    let mut wraps = wraps;
    let mut t = t;
    'wraps: while let Some(wrap) = wraps.pop() {
        t = wrap.around(alloc, t)?;
    }
    Ok(t)
}

impl Wrap {
    /// The type with this around it.
    fn around(self, alloc: Global, t: CType) -> Result<CType, AllocError>
        ensures { IfOk result (λ u. u ≡ around_lem self t) }
    {
        match self {
            Wrap::Pointers(stars) => pointers(alloc, stars, t),
            Wrap::Array(number) => array_of(alloc, t, number),
            Wrap::Function(parameters) => Ok(CType::Function(parameters, Shared::new(alloc, t)?)),
        }
    }
}

fn array_of(alloc: Global, t: CType, number: u64) -> Result<CType, AllocError>
    ensures { IfOk result (λ a. a ≡ array_of_lem t number) }
{
    Ok(CType::Array(Shared::new(alloc, t)?, number))
}

/// The type behind so many stars.
fn pointers(alloc: Global, stars: usize, t: CType) -> Result<CType, AllocError>
    ensures { IfOk result (λ u. u ≡ pointers_lem stars t) }
{
    let mut left = stars;
    let mut t = t;
    'stars: while left > 0 {
        t = pointer_to(alloc, t)?;
        left -= 1;
    }
    Ok(t)
}
