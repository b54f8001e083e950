//! Variables with their sorts.
ghost use Rattle.std.specs.Prelude.{◌≡◌, ℕ, List, None, Some, IfOk, OnOk, OnSome, IsSome, cond, bytes_eq};
ghost use Rattle.std.specs.Option.{option_copied};
ghost use Rattle.floyd_termread_scope.specs.Scopes.{sort_of};

use floyd_text::Name;
use floyd_tree::Sort;
use indexmap::IndexMap;
use std::alloc::{AllocError, Global};

/// Variables with their sorts, found by their names without a walk.
pub struct Variables {
    sorts: IndexMap<Name, Sort>,
}

impl Drop for Variables {
    fn drop(self) {
        let Variables { sorts } = self;
        drop(sorts);
    }
}

impl Variables {
    pub fn new(alloc: Global) -> Variables
        ensures { (x : List ℕ) → sort_of result x ≡ None }
    {
        Variables {
            sorts: IndexMap::new(alloc),
        }
    }

    /// The sort of the variable of that name.
    pub fn get(&self, name: &Name) -> Option<&Sort>
        ensures { option_copied result ≡ sort_of self.now name.now }
    {
        self.sorts.get(name)
    }

    /// Adds a variable, which hides one of the same name. The answer is the sort of the hidden one.
    pub fn bind(&mut self, name: Name, sort: Sort) -> Result<Option<Sort>, AllocError>
        ensures hidden { IfOk result (λ before. before ≡ sort_of self.old name) }
        ensures bound { OnOk result ((x : List ℕ) → sort_of self.new x ≡ cond (bytes_eq name x) (Some sort) (sort_of self.old x)) }
    {
        let before = self.sorts.insert(name, sort)?;
        Ok(before)
    }

    /// Takes out a variable again, and puts back what it hid.
    pub fn unbind(&mut self, name: Name, hidden: Option<Sort>)
        requires { OnSome hidden (IsSome (sort_of self.old name)) }
        ensures { (x : List ℕ) → sort_of self.new x ≡ cond (bytes_eq name x) hidden (sort_of self.old x) }
    {
        match hidden {
            Some(sort) => {
                if self.sorts.insert(name, sort).is_err() {
                    unreachable!();
                }
            }
            None => {
                self.sorts.swap_remove(&name);
            }
        }
    }
}
