//! Look-ups of names.
ghost use Rattle.std.specs.Prelude.{◌≡◌, is_some, option_map, bytes_eq};
ghost use Rattle.std.specs.Option.{option_copied};
ghost use Rattle.std.specs.Map.{lookup};
ghost use Rattle.floyd_termread_scope.specs.Scopes.{env, is_among, is_local};

use crate::variables::Variables;
use floyd_assert_trees::{Defs, Fun, Funspec, Names, Pred, Table};
use floyd_text::Name;
use floyd_tree::Sort;

/// What the names of a term, a formula or an assertion may stand for: the variables with their sorts, the structs, FUNs,
/// PREDs and the names that `gv` may take, the SPEC items that are visible, and the names that `lv` may take, where it
/// may stand at all.
pub struct Scope<'a> {
    pub variables: Variables,
    pub defs: &'a Defs,
    pub specs: &'a Table<Funspec>,
    pub locals: Option<&'a Names>,
}

impl<'a> Drop for Scope<'a> {
    fn drop(self) {
        let Scope {
            variables,
            defs: _,
            specs: _,
            locals: _,
        } = self;
        drop(variables);
    }
}

impl<'a> Scope<'a> {
    /// The sort of the variable of that name, where a bound one hides others.
    pub fn sort_of<'s>(&'s self, bound: &'s Variables, name: &Name) -> Option<&'s Sort>
        ensures { option_copied result ≡ (env self.now bound.now).variable name.now }
    {
        match bound.get(name) {
            Some(sort) => Some(sort),
            None => self.variables.get(name),
        }
    }

    pub fn fun(&self, name: &Name) -> Option<&Fun>
        ensures { option_copied result ≡ lookup (bytes_eq name.now) self.now.defs.now.funs }
    {
        self.defs.funs.get(name)
    }

    pub fn pred(&self, name: &Name) -> Option<&Pred>
        ensures { option_copied result ≡ lookup (bytes_eq name.now) self.now.defs.now.preds }
    {
        self.defs.preds.get(name)
    }

    /// Whether there is a SPEC of that name.
    pub fn has_spec(&self, name: &Name) -> bool
        ensures { result ≡ is_among self.now.specs.now name.now }
    {
        self.specs.get(name).is_some()
    }

    /// Whether `gv` may take the name.
    pub fn has_global(&self, name: &Name) -> bool
        ensures { result ≡ is_among self.now.defs.now.globals name.now }
    {
        self.defs.globals.get(name).is_some()
    }

    /// Whether `lv` may take the name.
    pub fn has_local(&self, name: &Name) -> bool
        ensures { result ≡ is_local (option_map (λ names. names.now) self.now.locals) name.now }
    {
        match self.locals {
            Some(names) => names.get(name).is_some(),
            None => false,
        }
    }

    /// Whether `lv` may stand at all.
    pub fn takes_locals(&self) -> bool
        ensures { result ≡ is_some self.now.locals }
    {
        self.locals.is_some()
    }
}
