//! Sets of names.
ghost use Rattle.std.specs.Prelude.{◌≡◌, [], ℕ, List, OnOk, if◌then◌else◌, false, bytes_eq};
ghost use Rattle.floyd_elab_addresses.specs.SetClauses.{is_among, Adds};

use floyd_text::Name;
use indexmap::IndexSet;
use std::alloc::{AllocError, Global};
use std::marker::Model;

/// The names of variables whose address is taken.
pub struct Taken {
    names: IndexSet<Name>,
}

impl Drop for Taken {
    fn drop(self) {
        let Taken { names } = self;
        drop(names);
    }
}

impl Model for Taken {
    ghost use Rattle.std.specs.Prelude.{ℕ, List};

    ghost Value = { List (List ℕ) };

    ghost view = { λ t. t.names.keys };
}

impl Taken {
    pub fn new(alloc: Global) -> Taken
        ensures { result ≡ [] }
    {
        Taken {
            names: IndexSet::new(alloc),
        }
    }

    pub fn contains(&self, name: &Name) -> bool
        ensures { result ≡ is_among self.now name.now }
    {
        self.names.contains(name)
    }

    pub fn add(&mut self, name: &Name) -> Result<(), AllocError>
        ensures { OnOk result (Adds (λ x. bytes_eq x name.now) self.old self.new) }
    {
        self.names.insert(name.share()?)?;
        Ok(())
    }

    pub fn remove(&mut self, name: &Name)
        ensures { (x : List ℕ) → is_among self.new x ≡ (if bytes_eq x name.now then false else is_among self.old x) }
    {
        self.names.swap_remove(name);
    }

    /// Takes in all names of another set. The larger set keeps its place, so that a name that moves is each time in a set
    /// of twice the size or more.
    pub fn join(&mut self, mut more: Taken) -> Result<(), AllocError>
        ensures { OnOk result (Adds (is_among more) self.old self.new) }
    {
        if self.names.len() < more.names.len() {
            std::mem::swap(&mut self.names, &mut more.names);
        }
        self.names.append(&mut more.names)
    }
}
