ghost use Rattle.std.specs.Prelude.{◌≡◌, IfOk};

use crate::share::share_terms;
use floyd_text::Name;
use floyd_tree::{AType, Path, Term, TermList};
use sqlite_items::Items;
use std::alloc::{AllocError, Global};

/// Where a part of memory lies: at a path in an object of that type whose address is the root, with a share in
/// sixteenths. A part that is written without a share has the literal 16.
pub struct Region {
    pub share: Term,
    pub ty: AType,
    pub path: Path,
    pub root: Term,
}

impl Drop for Region {
    fn drop(self) {
        let Region {
            share,
            ty,
            path,
            root,
        } = self;
        drop(share);
        drop(ty);
        drop(path);
        drop(root);
    }
}

/// A part of an assertion about memory.
pub enum Sep {
    /// The region holds the value. `data_at` has the empty path, and `data_at_` the default value.
    FieldAt(Region, Term),
    /// The padding of the struct at the region.
    Padding(Region),
    /// There is a byte at the address, or it is null or the start of a function.
    Valid(Term),
    /// `TT`, which holds of any memory.
    Anything,
    /// A predicate of this name, of these arguments.
    Predicate(Name, TermList),
}

/// Parts in order.
pub type SepList = Items<Sep>;

impl Drop for Sep {
    fn drop(self) {
        match self {
            Sep::FieldAt(region, value) => {
                drop(region);
                drop(value);
            }
            Sep::Padding(region) => drop(region),
            Sep::Valid(address) => drop(address),
            Sep::Anything => {}
            Sep::Predicate(name, terms) => {
                drop(name);
                drop(terms);
            }
        }
    }
}

impl Region {
    /// The same region, whose terms are not copied.
    pub fn share(&self, alloc: Global) -> Result<Region, AllocError>
        ensures { IfOk result (λ r. r ≡ self.now) }
    {
        let share = self.share.share()?;
        let ty = self.ty.share(alloc)?;
        let path = self.path.share(alloc)?;
        let root = self.root.share()?;
        Ok(Region {
            share,
            ty,
            path,
            root,
        })
    }
}

impl Sep {
    /// The same part, whose terms are not copied.
    pub fn share(&self, alloc: Global) -> Result<Sep, AllocError>
        ensures { IfOk result (λ s. s ≡ self.now) }
    {
        match self {
            Sep::FieldAt(region, value) => {
                let region = region.share(alloc)?;
                Ok(Sep::FieldAt(region, value.share()?))
            }
            Sep::Padding(region) => Ok(Sep::Padding(region.share(alloc)?)),
            Sep::Valid(address) => Ok(Sep::Valid(address.share()?)),
            Sep::Anything => Ok(Sep::Anything),
            Sep::Predicate(name, terms) => {
                let name = name.share()?;
                Ok(Sep::Predicate(name, share_terms(alloc, terms.as_slice())?))
            }
        }
    }
}
