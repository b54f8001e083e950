use crate::term::Term;
use floyd_text::Name;
use indexmap::IndexMap;
use std::alloc::{AllocError, Global};
use std::marker::Model;

/// LOCAL: temporaries with the terms of their values, in order, each name once. A temporary is found by its hash.
pub struct Locals {
    entries: IndexMap<Name, Term>,
}

impl Drop for Locals {
    fn drop(self) {
        let Locals { entries } = self;
        drop(entries);
    }
}

impl Model for Locals {
    ghost use Rattle.std.specs.Prelude.{List, ℕ};
    ghost use Rattle.floyd_stub_assert.specs.declared.term.Term.{Term};
    ghost use Rattle.floyd_stub_assert.specs.contracts.term.Term as t;
    ghost use Rattle.std.specs.Coded.{codes};

    ghost Value = { List (List ℕ × Term) };

    ghost coded = { Prim.hlevel (codes, t.the_row.coded) };

    ghost view = { λ l. l.entries.entries };
}

impl Locals {
    ghost use Rattle.std.specs.Prelude.{◌≡◌, [], OnOk, OnErr, slice_get, length, option_map};
    ghost use Rattle.std.specs.Option.{option_copied};
    ghost use Rattle.std.specs.Map.Iter.{deref_pair};
    ghost use Rattle.floyd_stub_assert.specs.LocalTerms.{term_of, with_local};

    pub fn new(alloc: Global) -> Locals
        ensures { result ≡ [] }
    {
        Locals {
            entries: IndexMap::new(alloc),
        }
    }

    /// The term of a temporary.
    pub fn get(&self, name: &Name) -> Option<&Term>
        ensures { option_copied result ≡ term_of name.now self.now }
    {
        self.entries.get(name)
    }

    /// Gives a temporary a term: one that is there keeps its place, and one that is not goes last.
    pub fn set(&mut self, name: Name, term: Term) -> Result<(), AllocError>
        ensures ok { OnOk result (self.new ≡ with_local name term self.old) }
        ensures err { OnErr result (self.new ≡ self.old) }
    {
        self.entries.insert(name, term)?;
        Ok(())
    }

    /// The temporary at a place of the order, from 0, and its term.
    pub fn entry(&self, at: usize) -> Option<(&Name, &Term)>
        ensures { option_map deref_pair result ≡ slice_get self.now at }
    {
        self.entries.get_index(at)
    }

    pub fn len(&self) -> usize
        ensures { result ≡ length self.now }
    {
        self.entries.len()
    }
}
