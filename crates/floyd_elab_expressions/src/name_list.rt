ghost use Rattle.std.specs.Prelude.{◌≡◌, ◌<◌, [], ◌∷◌, ◌++◌, OnOk, count_by, bytes_eq};
ghost use Rattle.indexmap.specs.IndexMap.{spare};
ghost use Rattle.floyd_elab_expressions.specs.CountClauses.{PutsCount};

use floyd_text::Name;
use indexmap::IndexMap;
use sqlite_items::Items;
use std::alloc::{AllocError, Global};
use std::marker::Model;

/// Names in order, with how many there are of each.
pub struct NameList {
    names: Items<Name>,
    counts: IndexMap<Name, u64>,
}

impl Drop for NameList {
    fn drop(self) {
        let NameList { names, counts } = self;
        drop(names);
        drop(counts);
    }
}

impl Model for NameList {
    ghost use Rattle.std.specs.Prelude.{ℕ, List};
    ghost use Rattle.floyd_elab_expressions.specs.CountClauses.{AreCounted};

    ghost Value = { List (List ℕ) };

    ghost view = { λ l. l.names };

    ghost invariant = { λ l. AreCounted l.counts.entries l.names };
}

impl NameList {
    pub fn new(alloc: Global) -> NameList
        ensures { result ≡ [] }
    {
        NameList {
            names: Items::new(alloc),
            counts: IndexMap::new(alloc),
        }
    }

    /// How many there are of this name.
    pub fn count(&self, x: &Name) -> u64
        ensures { result ≡ count_by (bytes_eq x.now) self.now }
    {
        match self.counts.get(x) {
            Some(n) => *n,
            None => 0,
        }
    }

    /// Puts the name at the end.
    pub fn add(&mut self, x: &Name) -> Result<(), AllocError>
        ensures { OnOk result (self.new ≡ self.old ++ x.now ∷ []) }
    {
        let Some(count) = self.count(x).checked_add(1) else {
            return Err(AllocError);
        };
        let key = x.share()?;
        let name = x.share()?;
        self.counts.reserve(1)?;
        self.names.push(name)?;
        put(&mut self.counts, key, count);
        Ok(())
    }
}

/// Keeps this count of the name.
fn put(counts: &mut IndexMap<Name, u64>, key: Name, n: u64)
    requires room { 0 < spare counts.old }
    ensures updates { PutsCount counts.old.entries key n counts.new.entries }
{
    counts.insert(key, n).unwrap();
}
