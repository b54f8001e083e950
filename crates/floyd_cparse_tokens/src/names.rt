//! The names of types in scope.
ghost use Rattle.std.specs.Prelude.{◌≡◌, [], OnOk, Some};
ghost use Rattle.floyd_cparse_tokens.specs.Tokens.{is_type_text, with_name};

use indexmap::IndexSet;
use std::alloc::{AllocError, Global};
use std::marker::Model;

/// Names of types, in the order in which they were declared.
pub struct TypeNames {
    names: IndexSet<Vec<u8>>,
}

impl Drop for TypeNames {
    fn drop(self) {
        let TypeNames { names } = self;
        drop(names);
    }
}

impl Model for TypeNames {
    ghost use Rattle.std.specs.Prelude.{ℕ, List, map};

    ghost Value = { List (List ℕ) };

    ghost view = { λ t. map (λ v. v.items) t.names.keys };
}

impl TypeNames {
    pub fn new(alloc: Global) -> TypeNames
        ensures { result ≡ [] }
    {
        TypeNames {
            names: IndexSet::new(alloc),
        }
    }

    pub fn contains(&self, text: &[u8]) -> bool
        ensures { result ≡ is_type_text self.now text.now }
    {
        self.names.contains(text)
    }

    /// Has one name more, where it is not there.
    pub fn add(&mut self, alloc: Global, name: &[u8]) -> Result<(), AllocError>
        ensures { OnOk result (self.new ≡ with_name (Some name.now) self.old) }
    {
        if !self.contains(name) {
            self.names.insert(Vec::from_slice(alloc, name)?)?;
        }
        Ok(())
    }
}
