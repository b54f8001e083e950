ghost use Rattle.std.specs.Prelude.{◌≡◌, ◌↔◌, IfOk, IsTrue};

use floyd_text::Name;
use floyd_tree::Sort;
use sqlite_items::Items;
use std::alloc::AllocError;

/// Names in order.
pub type NameList = Items<Name>;

/// A variable with its sort: an existential, an argument, or a variable of WITH or of a context.
pub struct Binder {
    pub name: Name,
    pub sort: Sort,
}

/// Binders in order.
pub type BinderList = Items<Binder>;

impl Drop for Binder {
    fn drop(self) {
        let Binder { name, sort } = self;
        drop(name);
        drop(sort);
    }
}

impl Binder {
    /// The same binder, whose parts are not copied.
    pub fn share(&self) -> Result<Binder, AllocError>
        ensures { IfOk result (λ b. b ≡ self.now) }
    {
        let name = self.name.share()?;
        let sort = self.sort.share()?;
        Ok(Binder { name, sort })
    }

    pub fn same(&self, other: &Binder) -> bool
        ensures { IsTrue result ↔ (self.now ≡ other.now) }
    {
        self.name == other.name && self.sort.same(&other.sort)
    }
}
