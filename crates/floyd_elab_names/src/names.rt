//! The names that are in scope.
ghost use Rattle.std.specs.Prelude.{◌≡◌, ◌++◌, ◌∷◌, [], ℕ, List, IfOk, OnOk, OnErr, Some, IsSome, OnSome, MatchOption, cond, bytes_eq};
ghost use Rattle.std.specs.Option.{option_copied};
ghost use Rattle.indexmap.specs.IndexMap.{get};
ghost use Rattle.floyd_elab_names.specs.declared.names.Change.TheVariants.{Entered, Declared};
ghost use Rattle.floyd_elab_names.specs.declared.meaning.Meaning.{Meaning as Told};
ghost use Rattle.floyd_elab_names.specs.ChangeClauses.{is_new as is_new_lem};
ghost use Rattle.floyd_elab_names.specs.Scopes.{meaning_of as meaning_of_lem, enter, leave, with_meaning, names_in, is_among};

use crate::meaning::Meaning;
use floyd_text::{Name, Shared};
use indexmap::IndexMap;
use sqlite_items::Items;
use std::alloc::{AllocError, Global};
use std::marker::Model;

/// What a name stands for, and how many scopes there were where it was declared.
struct Seen {
    depth: usize,
    meaning: Shared<Meaning>,
}

impl Drop for Seen {
    fn drop(self) {
        let Seen { depth: _, meaning } = self;
        drop(meaning);
    }
}

/// A scope was entered, or a name was declared, which stood for something else before.
enum Change {
    Entered,
    Declared {
        name: Name,
        meaning: Shared<Meaning>,
        before: Option<Seen>,
    },
}

impl Drop for Change {
    fn drop(self) {
        match self {
            Change::Entered => {}
            Change::Declared {
                name,
                meaning,
                before,
            } => {
                drop(name);
                drop(meaning);
                drop(before);
            }
        }
    }
}

impl Change {
    /// The name that was declared, and what it stood for before. None where a scope was entered.
    fn into_declared(self) -> Option<(Name, Option<Seen>)>
        ensures { MatchOption result (self ≡ Entered) (λ d. (m : Told) × (self ≡ Declared d.0 m d.1)) }
    {
        match self {
            Change::Entered => None,
            Change::Declared {
                name,
                meaning,
                before,
            } => {
                drop(meaning);
                Some((name, before))
            }
        }
    }
}

/// The names that are in scope, and what each stands for. Contracts see the scopes, the innermost first.
pub struct Names {
    changes: Items<Change>,
    visible: IndexMap<Name, Seen>,
    depth: usize,
}

impl Drop for Names {
    fn drop(self) {
        let Names {
            changes,
            visible,
            depth: _,
        } = self;
        drop(changes);
        drop(visible);
    }
}

impl Model for Names {
    ghost use Rattle.std.specs.Coded.{codes};
    ghost use Rattle.floyd_elab_names.specs.contracts.meaning.Meaning as meaning;
    ghost use Rattle.floyd_elab_names.specs.Scopes.{Scopes};

    ghost Value = { Scopes };

    ghost coded = { Prim.hlevel (codes, meaning.the_row.coded) };

    ghost use Rattle.std.specs.Prelude.{[], bytes_eq};
    ghost use Rattle.indexmap.specs.IndexMap.{get};
    ghost use Rattle.floyd_elab_names.specs.ChangeClauses.{after_all, IsKept};

    ghost view = { λ n. after_all [] n.changes };

    ghost invariant = { λ n. IsKept n.changes (get bytes_eq n.visible) n.depth };
}

impl Names {
    /// No scope.
    pub fn new(alloc: Global) -> Names
        ensures { result ≡ [] }
    {
        Names {
            changes: Items::new(alloc),
            visible: IndexMap::new(alloc),
            depth: 0,
        }
    }

    /// What the name stands for: what the innermost scope says that has it.
    pub fn meaning_of(&self, name: &Name) -> Option<&Meaning>
        ensures { option_copied result ≡ meaning_of_lem self.now name.now }
    {
        let seen = self.visible.get(name)?;
        Some(seen.meaning.get())
    }

    /// Whether the innermost scope has the name.
    pub fn is_here(&self, name: &Name) -> bool
        ensures { result ≡ is_among name.now (names_in self.now) }
    {
        match self.visible.get(name) {
            Some(seen) => seen.depth == self.depth,
            None => false,
        }
    }

    /// Whether there is an innermost scope, which has not the name.
    fn is_new(&self, name: &Name) -> bool
        ensures { result ≡ is_new_lem self.now name.now }
    {
        self.depth > 0 && !self.is_here(name)
    }

    /// Goes into a scope, which has no names yet.
    pub fn enter(&mut self) -> Result<(), AllocError>
        ensures ok { OnOk result (self.new ≡ enter self.old) }
        ensures err { OnErr result (self.new ≡ self.old) }
    {
        self.changes.push(Change::Entered)?;
        prove!(self.depth < self.changes.len());
        self.depth += 1;
        Ok(())
    }

    /// Leaves the innermost scope. Its names stand for what they stood for before.
    pub fn leave(&mut self)
        ensures { self.new ≡ leave self.old }
    {
        'changes: while let Some(change) = self.changes.pop() {
            match change.into_declared() {
                None => {
                    self.depth -= 1;
                    return;
                }
                Some((name, before)) => undo(&mut self.visible, name, before),
            }
        }
    }

    /// Declares the name in the innermost scope. What it stands for there already, it goes on to stand for.
    pub fn declare(
        &mut self,
        alloc: Global,
        name: &Name,
        meaning: Meaning,
    ) -> Result<(), AllocError>
        ensures ok { OnOk result (self.new ≡ with_meaning name.now meaning self.old) }
        ensures err { OnErr result (self.new ≡ self.old) }
    {
        let is_new = self.is_new(name);
        let meaning = Shared::new(alloc, meaning)?;
        let change = declaration(&self.visible, name, &meaning)?;
        if !is_new {
            self.changes.push(change)?;
            return Ok(());
        }
        let seen = Seen {
            depth: self.depth,
            meaning,
        };
        put(
            &mut self.changes,
            &mut self.visible,
            change,
            name.share()?,
            seen,
        )?;
        Ok(())
    }
}

/// The name is declared as this.
fn declaration(
    visible: &IndexMap<Name, Seen>,
    name: &Name,
    meaning: &Shared<Meaning>,
) -> Result<Change, AllocError>
    ensures { IfOk result (λ c. c ≡ Declared name.now meaning.now (get bytes_eq visible.now name.now)) }
{
    Ok(Change::Declared {
        name: name.share()?,
        meaning: meaning.share()?,
        before: current_meaning(visible, name)?,
    })
}

/// What the name stands for.
fn current_meaning(visible: &IndexMap<Name, Seen>, name: &Name) -> Result<Option<Seen>, AllocError>
    ensures { IfOk result (λ s. s ≡ get bytes_eq visible.now name.now) }
{
    match visible.get(name) {
        Some(seen) => Ok(Some(Seen {
            depth: seen.depth,
            meaning: seen.meaning.share()?,
        })),
        None => Ok(None),
    }
}

/// Puts a change at the end, and what the name stands for after it.
fn put(
    changes: &mut Items<Change>,
    visible: &mut IndexMap<Name, Seen>,
    change: Change,
    name: Name,
    seen: Seen,
) -> Result<(), AllocError>
    ensures changes { OnOk result (changes.new ≡ changes.old ++ change ∷ []) }
    ensures visible { OnOk result ((q : List ℕ) → get bytes_eq visible.new q ≡ cond (bytes_eq name q) (Some seen) (get bytes_eq visible.old q)) }
    ensures unchanged { OnErr result (changes.new ≡ changes.old) }
    ensures unseen { OnErr result ((q : List ℕ) → get bytes_eq visible.new q ≡ get bytes_eq visible.old q) }
{
    changes.push(change)?;
    match visible.insert(name, seen) {
        Ok(_) => Ok(()),
        Err(_) => {
            changes.pop();
            Err(AllocError)
        }
    }
}

/// A name stands again for what it stood for before.
fn undo(visible: &mut IndexMap<Name, Seen>, name: Name, before: Option<Seen>)
    requires { OnSome before (IsSome (get bytes_eq visible.old name)) }
    ensures { (q : List ℕ) → get bytes_eq visible.new q ≡ cond (bytes_eq name q) before (get bytes_eq visible.old q) }
{
    match before {
        Some(seen) => {
            if visible.insert(name, seen).is_err() {
                unreachable!();
            }
        }
        None => {
            visible.swap_remove(&name);
        }
    }
}
