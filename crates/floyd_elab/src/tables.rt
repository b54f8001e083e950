//! What a file defines, found by its names.
ghost use Rattle.std.specs.Prelude.{◌≡◌, ◌<◌, ◌++◌, ◌∷◌, [], ℕ, List, OnOk};
ghost use Rattle.indexmap.specs.IndexSet.{spare, IsUnchanged};
ghost use Rattle.floyd_elab_names.specs.Scopes.{is_among};
ghost use Rattle.floyd_elab.specs.TableClauses.{is_named, AddsName};

use floyd_clight::{Defined, Variable};
use floyd_text::Name;
use indexmap::IndexSet;
use sqlite_items::Items;
use std::alloc::{AllocError, Global};
use std::marker::Model;

/// What a file defines under a name.
pub(crate) trait Define: Drop {
    ghost name_of: { Self → List ℕ };

    fn name(&self) -> &Name
        ensures { result.now ≡ name_of self.now };
}

impl Define for Variable {
    ghost name_of = { λ v. v.name };

    fn name(&self) -> &Name {
        &self.name
    }
}

impl Define for Defined {
    ghost name_of = { λ f. f.name };

    fn name(&self) -> &Name {
        &self.name
    }
}

/// What is defined so far, in order: the variables, or the functions with a body.
pub(crate) struct Definitions<T: Define> {
    items: Items<T>,
    names: IndexSet<Name>,
}

impl<T: Define> Drop for Definitions<T> {
    fn drop(self) {
        let Definitions { items, names } = self;
        drop(items);
        drop(names);
    }
}

impl<T: Define> Model for Definitions<T> {
    ghost use Rattle.std.specs.Prelude.{◌≡◌, ℕ, List};
    ghost use Rattle.std.specs.Coded.{coded_list};
    ghost use Rattle.floyd_elab_names.specs.Scopes.{is_among};
    ghost use Rattle.floyd_elab.specs.TableClauses.{is_named};

    ghost Value = { List T };

    ghost coded = { coded_list T.code };

    ghost view = { λ d. d.items };

    ghost invariant = { λ d. (q : List ℕ) → is_among q d.names.keys ≡ is_named T.name_of q d.items };
}

impl<T: Define> Definitions<T> {
    pub(crate) fn new(alloc: Global) -> Definitions<T>
        ensures { result ≡ [] }
    {
        Definitions {
            items: Items::new(alloc),
            names: IndexSet::new(alloc),
        }
    }

    /// Whether one of them has the name.
    pub(crate) fn has(&self, x: &Name) -> bool
        ensures { result ≡ is_named T.name_of x.now self.now }
    {
        self.names.contains(x)
    }

    /// Puts one at the end.
    pub(crate) fn add(&mut self, item: T) -> Result<(), AllocError>
        ensures { OnOk result (self.new ≡ self.old ++ item ∷ []) }
    {
        let name = item.name().share()?;
        self.names.reserve(1)?;
        self.items.push(item)?;
        put(&mut self.names, name);
        Ok(())
    }

    pub(crate) fn into_items(self) -> Items<T>
        ensures { result ≡ self }
    {
        let Definitions { items, names } = self;
        drop(names);
        items
    }
}

/// Puts a name into a set with room for it.
fn put(names: &mut IndexSet<Name>, name: Name)
    requires room { 0 < spare names.old }
    ensures adds { AddsName name names.old.keys names.new.keys }
{
    names.insert(name).unwrap();
}
