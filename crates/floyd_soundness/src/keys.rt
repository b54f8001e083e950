ghost use Rattle.std.specs.Prelude.{◌≡◌, IfOk, OnOk, map, []};
ghost use Rattle.std.specs.List.{AllByRecursion};
ghost use Rattle.floyd_proved.specs.Claims.{IsProved};
ghost use Rattle.floyd_soundness.specs.KeyClauses.{is_of as is_of_lem, with_key, with_keys};
ghost use Rattle.floyd_soundness.specs.Keys.{is_own_lemma as is_own_lemma_lem, key_for as key_for_lem, key_of as key_of_lem, kind_in as kind_in_lem, same_kind as same_kind_lem, script_module as script_module_lem};

use floyd_assert_trees::Names;
use floyd_goal_meaning::Module;
use floyd_linked::Linked;
use floyd_proved::{Claim, Proved};
use floyd_text::Name;
use sqlite_items::Items;
use std::alloc::{AllocError, Global};

/// What a proof is of.
#[derive(Clone, Copy, PartialEq, Eq, Debug)]
pub enum Kind {
    Lemma,
    /// A function with a body.
    Body,
    /// An import with a specification of its own.
    Import,
}

/// What is proved: a lemma or a body by its name, and an import by its name and the number of its module. That number is 0
/// of the others.
pub struct Key {
    pub kind: Kind,
    pub number: usize,
    pub name: Name,
}

impl Drop for Key {
    fn drop(self) {
        let Key {
            kind: _,
            number: _,
            name,
        } = self;
        drop(name);
    }
}

/// What is proved, in the order of the proofs.
pub type KeyList = Items<Key>;

fn script_module(file: u32) -> usize
    ensures { result ≡ script_module_lem file }
{
    (file / 3).saturating_sub(1) as usize
}

fn same_kind(a: Kind, b: Kind) -> bool
    ensures { result ≡ same_kind_lem a b }
{
    matches!(
        (a, b),
        (Kind::Lemma, Kind::Lemma) | (Kind::Body, Kind::Body) | (Kind::Import, Kind::Import)
    )
}

fn is_own_lemma(module: &Module, name: &Name) -> bool
    ensures { result ≡ is_own_lemma_lem «module».now name.now }
{
    let defs = module.defs.get();
    match defs.lemmas.get(name) {
        None => false,
        Some(lemma) => lemma.module == defs.home,
    }
}

/// What a proof of that name is of in the module of that number: a lemma of the module, an import with a specification of its
/// own, or else a body.
pub fn kind_in(linked: &Linked, number: usize, name: &Name) -> Kind
    ensures { result ≡ kind_in_lem linked.now number name.now }
{
    let Some(module) = linked.parts().modules.get(number) else {
        return Kind::Body;
    };
    if is_own_lemma(module, name) {
        return Kind::Lemma;
    }
    if linked.import(number, name).is_some() {
        return Kind::Import;
    }
    Kind::Body
}

fn key_for(kind: Kind, number: usize, name: Name) -> Key
    ensures { result ≡ key_for_lem kind number name }
{
    match kind {
        Kind::Lemma => Key {
            kind,
            number: 0,
            name,
        },
        Kind::Body => Key {
            kind,
            number: 0,
            name,
        },
        Kind::Import => Key { kind, number, name },
    }
}

fn key_of(linked: &Linked, claim: &Claim) -> Result<Key, AllocError>
    ensures { IfOk result (λ key. key ≡ key_of_lem linked.now claim.now) }
{
    let number = script_module(claim.file);
    let kind = kind_in(linked, number, &claim.name);
    Ok(key_for(kind, number, claim.name.share()?))
}

/// What is proved by these. All of them hold.
pub(crate) fn keys_of(
    alloc: Global,
    linked: &Linked,
    proved: &[Proved],
) -> Result<KeyList, AllocError>
    ensures are { IfOk result (λ keys. keys ≡ map (key_of_lem linked.now) proved.now) }
    ensures hold { IfOk result (λ keys. AllByRecursion IsProved proved.now) }
{
    let mut keys = KeyList::new(alloc);
    'proofs: for proof in proved {
        keys.push(key_of(linked, proof.claim())?)?;
    }
    Ok(keys)
}

fn is_of(kind: Kind, number: usize, key: &Key) -> bool
    ensures { result ≡ is_of_lem kind number key.now }
{
    same_kind(kind, key.kind) && number == key.number
}

fn add_key(names: &mut Names, kind: Kind, number: usize, key: &Key) -> Result<(), AllocError>
    ensures { OnOk result (names.new ≡ with_key kind number key.now names.old) }
{
    if is_of(kind, number, key) && names.get(&key.name).is_none() {
        names.add(key.name.share()?, ())?;
    }
    Ok(())
}

/// The names of what is proved of that kind, of imports those in the module of that number.
pub(crate) fn names_of(
    alloc: Global,
    keys: &[Key],
    kind: Kind,
    number: usize,
) -> Result<Names, AllocError>
    ensures { IfOk result (λ names. names ≡ with_keys kind number keys.now []) }
{
    let mut names = Names::new(alloc);
    'keys: for key in keys {
        add_key(&mut names, kind, number, key)?;
    }
    Ok(names)
}
