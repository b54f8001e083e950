ghost use Rattle.std.specs.Prelude.{◌≡◌, [], ◌∷◌, ◌++◌, OnOk, OnErr, None, length, slice_get, bytes_eq, option_map, position};
ghost use Rattle.std.specs.Map.{lookup, keys_of};
ghost use Rattle.std.specs.Option.{option_copied};
ghost use Rattle.std.specs.Map.Iter.{deref_pair};

use floyd_text::Name;
use indexmap::IndexMap;
use std::alloc::{AllocError, Global};
use std::marker::Model;

/// Items by name, in the order in which they were added.
pub struct Table<T> {
    items: IndexMap<Name, T>,
}

impl<T: Drop> Drop for Table<T> {
    fn drop(self) {
        let Table { items } = self;
        drop(items);
    }
}

impl<T> Model for Table<T> {
    ghost use Rattle.std.specs.Prelude.{List, ℕ};
    ghost use Rattle.std.specs.Coded.{coded×, coded_list, coded_ℕ};

    ghost Value = { List (List ℕ × T) };

    ghost coded = { coded_list (coded× (coded_list coded_ℕ) T.code) };

    ghost view = { λ t. t.items.entries };
}

impl<T: Drop> Table<T> {
    pub fn new(alloc: Global) -> Table<T>
        ensures { result ≡ [] }
    {
        Table {
            items: IndexMap::new(alloc),
        }
    }

    /// The item of that name.
    pub fn get(&self, name: &Name) -> Option<&T>
        ensures { option_copied result ≡ lookup (bytes_eq name.now) self.now }
    {
        self.items.get(name)
    }

    /// The place of the item of that name among all, from 0.
    pub fn index_of(&self, name: &Name) -> Option<usize>
        ensures { result ≡ position (bytes_eq name.now) (keys_of self.now) }
    {
        self.items.get_index_of(name)
    }

    pub fn len(&self) -> usize
        ensures { result ≡ length self.now }
    {
        self.items.len()
    }

    /// The item at that place, from 0, with its name.
    pub fn at(&self, place: usize) -> Option<(&Name, &T)>
        ensures { option_map deref_pair result ≡ slice_get self.now place }
    {
        self.items.get_index(place)
    }

    /// Adds an item behind the others, under a name that none has.
    pub fn add(&mut self, name: Name, item: T) -> Result<(), AllocError>
        requires { lookup (bytes_eq name) self.old ≡ None }
        ensures ok { OnOk result (self.new ≡ self.old ++ (name, item) ∷ []) }
        ensures err { OnErr result (self.new ≡ self.old) }
    {
        self.items.insert(name, item)?;
        Ok(())
    }
}

/// Names that are found fast, in the order in which they were added.
pub type Names = Table<()>;
