ghost use Rattle.std.specs.Prelude.{◌≡◌, IfOk, bytes_eq, Some};
ghost use Rattle.std.specs.Map.{lookup};
ghost use Rattle.floyd_assert_changes.specs.ChangesClauses.{become_of, bits_of, changes, changes_of, becomes_by};
ghost use Rattle.floyd_truth.specs.Capture.{brings, in_new_terms};

use floyd_text::Name;
use floyd_tree::{Term, mentions};
use std::alloc::AllocError;

/// What becomes of a variable.
pub enum Becomes {
    /// This term stands in its place.
    Put(Term),
    /// It is bound, and has this name now.
    Called(Name),
}

impl Drop for Becomes {
    fn drop(self) {
        match self {
            Becomes::Put(term) => drop(term),
            Becomes::Called(name) => drop(name),
        }
    }
}

impl Becomes {
    /// The same, whose term is not copied.
    fn share(&self) -> Result<Becomes, AllocError>
        ensures { IfOk result (λ b. b ≡ self.now) }
    {
        match self {
            Becomes::Put(term) => Ok(Becomes::Put(term.share()?)),
            Becomes::Called(name) => Ok(Becomes::Called(name.share()?)),
        }
    }
}

/// A variable, and what becomes of it.
pub struct Change {
    pub name: Name,
    pub becomes: Becomes,
}

impl Change {
    /// The same, whose term is not copied.
    pub fn share(&self) -> Result<Change, AllocError>
        ensures { IfOk result (λ c. c ≡ self.now) }
    {
        let name = self.name.share()?;
        let becomes = self.becomes.share()?;
        Ok(Change { name, becomes })
    }
}

impl Drop for Change {
    fn drop(self) {
        let Change { name, becomes } = self;
        drop(name);
        drop(becomes);
    }
}

/// Changes of several variables at once, of which the first one of a name counts, and the binders around with their new
/// names.
#[derive(Clone, Copy)]
pub enum Changing<'a> {
    /// The changes, and the bits of all variables that may not stay as they are.
    All(&'a [Change], u64),
    /// The innermost binder, its new name, what is around it, and the bits again.
    Under(&'a Name, &'a Name, &'a Changing<'a>, u64),
}

/// What becomes of a variable that was looked up.
#[derive(Clone, Copy)]
pub enum Fate<'a> {
    Put(&'a Term),
    Called(&'a Name),
    Stays,
}

/// The bits of the variables that may not stay as they are.
pub fn bits(changing: &Changing) -> u64
    ensures { result ≡ bits_of changing.now }
{
    match changing {
        Changing::All(_, bits) => *bits,
        Changing::Under(_, _, _, bits) => *bits,
    }
}

/// What becomes of the variable.
pub fn found<'a>(changing: &'a Changing<'a>, x: &Name) -> Fate<'a>
    ensures { becomes_by result ≡ lookup (bytes_eq x.now) (changes changing.now) }
{
    match changing {
        Changing::All(all, _) => found_in(all, x),
        Changing::Under(own, new, outer, _) => {
            if x == *own {
                Fate::Called(new)
            } else {
                found(outer, x)
            }
        }
    }
}

fn found_in<'a>(all: &'a [Change], x: &Name) -> Fate<'a>
    ensures { becomes_by result ≡ lookup (bytes_eq x.now) (changes_of all.now) }
{
    'changes: for change in all {
        if x == &change.name {
            return fate_of(&change.becomes);
        }
    }
    Fate::Stays
}

fn fate_of<'a>(becomes: &'a Becomes) -> Fate<'a>
    ensures { becomes_by result ≡ Some (become_of becomes.now) }
{
    match becomes {
        Becomes::Put(term) => Fate::Put(term),
        Becomes::Called(name) => Fate::Called(name),
    }
}

/// Whether x is free in the term that stands in the variable's place.
pub fn brings(changing: &Changing, x: &Name, variable: &Name) -> bool
    ensures { result ≡ brings x.now (lookup (bytes_eq variable.now) (changes changing.now)) }
{
    match found(changing, variable) {
        Fate::Put(term) => mentions(term, x),
        Fate::Called(_) => false,
        Fate::Stays => false,
    }
}

/// The same of changes in a list.
pub fn brings_in(all: &[Change], x: &Name, variable: &Name) -> bool
    ensures { result ≡ brings x.now (lookup (bytes_eq variable.now) (changes_of all.now)) }
{
    match found_in(all, variable) {
        Fate::Put(term) => mentions(term, x),
        Fate::Called(_) => false,
        Fate::Stays => false,
    }
}

/// Whether the name is free in one of the new terms.
pub fn in_new_terms(changing: &Changing, name: &Name) -> bool
    ensures { result ≡ in_new_terms (changes changing.now) name.now }
{
    match changing {
        Changing::All(all, _) => in_terms(all, name),
        Changing::Under(_, _, outer, _) => in_new_terms(outer, name),
    }
}

pub fn in_terms(all: &[Change], name: &Name) -> bool
    ensures { result ≡ in_new_terms (changes_of all.now) name.now }
{
    'changes: for change in all {
        if brought(&change.becomes, name) {
            return true;
        }
    }
    false
}

fn brought(becomes: &Becomes, x: &Name) -> bool
    ensures { result ≡ brings x.now (Some (become_of becomes.now)) }
{
    match becomes {
        Becomes::Put(term) => mentions(term, x),
        Becomes::Called(_) => false,
    }
}
