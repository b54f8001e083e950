ghost use Rattle.std.specs.Prelude.{◌≡◌, ◌++◌, None, IfOk, OnOk};
ghost use Rattle.std.specs.List.{flat_map};
ghost use Rattle.std.specs.Option.{option_copied};
ghost use Rattle.floyd_soundness.specs.declared.keys.Kind.TheVariants as k;
ghost use Rattle.floyd_soundness.specs.KeyClauses.{knows};
ghost use Rattle.floyd_soundness.specs.Keys.{is_proved};
ghost use Rattle.floyd_soundness.specs.Unproved.{first_from, is_before as is_before_lem, missing_from, missing_function, missing_if, missing_import, missing_in, missing_lemma, missing_of as missing_of_lem, sooner as sooner_lem};

use crate::keys::{Key, Kind, names_of};
use floyd_assert_trees::{Lemma, Names, Table};
use floyd_goal_meaning::{ImportBy, LinkedFunction, Module};
use floyd_linked::LinkedParts;
use floyd_text::{Name, Place};
use sqlite_items::Items;
use std::alloc::{AllocError, Global};

/// What has no proof: its name, and the place of that.
pub struct Missing {
    pub name: Name,
    pub place: Place,
}

impl Drop for Missing {
    fn drop(self) {
        let Missing { name, place: _ } = self;
        drop(name);
    }
}

/// What has no proof, in order.
pub type MissingList = Items<Missing>;

fn put_missing(
    all: &mut MissingList,
    is_missing: bool,
    name: &Name,
    place: Place,
) -> Result<(), AllocError>
    ensures { OnOk result (all.new ≡ all.old ++ missing_if is_missing name.now place) }
{
    if is_missing {
        let name = name.share()?;
        all.push(Missing { name, place })?;
    }
    Ok(())
}

fn put_function(
    all: &mut MissingList,
    function: &LinkedFunction,
    proved: &Names,
) -> Result<(), AllocError>
    ensures { OnOk result (all.new ≡ all.old ++ missing_function (knows proved.now) function.now) }
{
    match &function.body {
        None => Ok(()),
        Some(_) => {
            let is_proved = function.own.is_some() && proved.get(&function.name).is_some();
            put_missing(all, !is_proved, &function.name, function.place)
        }
    }
}

fn put_functions(
    all: &mut MissingList,
    functions: &[LinkedFunction],
    proved: &Names,
) -> Result<(), AllocError>
    ensures { OnOk result (all.new ≡ all.old ++ flat_map (missing_function (knows proved.now)) functions.now) }
{
    'functions: for function in functions {
        put_function(all, function, proved)?;
    }
    Ok(())
}

fn put_lemma(
    all: &mut MissingList,
    home: u32,
    name: &Name,
    lemma: &Lemma,
    proved: &Names,
) -> Result<(), AllocError>
    ensures { OnOk result (all.new ≡ all.old ++ missing_lemma home (knows proved.now) (name.now, lemma.now)) }
{
    let is_missing = lemma.module == home && proved.get(name).is_none();
    put_missing(all, is_missing, name, lemma.place)
}

fn put_lemmas(
    all: &mut MissingList,
    home: u32,
    lemmas: &Table<Lemma>,
    proved: &Names,
) -> Result<(), AllocError>
    ensures { OnOk result (all.new ≡ all.old ++ flat_map (missing_lemma home (knows proved.now)) lemmas.now) }
{
    'items: for i in 0..lemmas.len() {
        if let Some((name, lemma)) = lemmas.at(i) {
            put_lemma(all, home, name, lemma, proved)?;
        }
    }
    Ok(())
}

fn put_imports(
    all: &mut MissingList,
    imports: &[ImportBy],
    proved: &Names,
) -> Result<(), AllocError>
    ensures { OnOk result (all.new ≡ all.old ++ flat_map (missing_import (knows proved.now)) imports.now) }
{
    'imports: for import in imports {
        put_missing(
            all,
            proved.get(&import.name).is_none(),
            &import.name,
            import.place,
        )?;
    }
    Ok(())
}

#[tactic(auto, using(crate::proofs::KeyLemmas::lemmas_are))]
fn put_own_lemmas(
    alloc: Global,
    all: &mut MissingList,
    module: &Module,
    keys: &[Key],
) -> Result<(), AllocError>
    ensures { OnOk result (all.new ≡ all.old ++ flat_map (missing_lemma «module».now.defs.home (is_proved keys.now k.Lemma 0)) «module».now.defs.lemmas) }
{
    let names = names_of(alloc, keys, Kind::Lemma, 0)?;
    let defs = module.defs.get();
    put_lemmas(all, defs.home, &defs.lemmas, &names)
}

#[tactic(auto, using(crate::proofs::KeyLemmas::imports_are))]
fn put_own_imports(
    alloc: Global,
    all: &mut MissingList,
    number: usize,
    module: &Module,
    keys: &[Key],
) -> Result<(), AllocError>
    ensures { OnOk result (all.new ≡ all.old ++ flat_map (missing_import (is_proved keys.now k.Import number)) «module».now.imports) }
{
    let names = names_of(alloc, keys, Kind::Import, number)?;
    put_imports(all, module.imports.as_slice(), &names)
}

/// The lemmas and imports of the module of that number.
fn put_module(
    alloc: Global,
    all: &mut MissingList,
    number: usize,
    module: &Module,
    keys: &[Key],
) -> Result<(), AllocError>
    ensures { OnOk result (all.new ≡ all.old ++ missing_in (is_proved keys.now) number «module».now) }
{
    put_own_lemmas(alloc, all, module, keys)?;
    put_own_imports(alloc, all, number, module, keys)
}

fn put_modules(
    alloc: Global,
    all: &mut MissingList,
    modules: &[Module],
    keys: &[Key],
) -> Result<(), AllocError>
    ensures { OnOk result (all.new ≡ all.old ++ missing_from (is_proved keys.now) 0 modules.now) }
{
    'modules: for i in 0..modules.len() {
        put_module(alloc, all, i, &modules[i], keys)?;
    }
    Ok(())
}

#[tactic(auto, using(crate::proofs::KeyLemmas::functions_are))]
fn put_bodies(
    alloc: Global,
    all: &mut MissingList,
    functions: &[LinkedFunction],
    keys: &[Key],
) -> Result<(), AllocError>
    ensures { OnOk result (all.new ≡ all.old ++ flat_map (missing_function (is_proved keys.now k.Body 0)) functions.now) }
{
    let names = names_of(alloc, keys, Kind::Body, 0)?;
    put_functions(all, functions, &names)
}

/// All that has no proof, where this is proved: functions first, and then lemmas and imports by modules.
pub(crate) fn missing_of(
    alloc: Global,
    parts: &LinkedParts,
    keys: &[Key],
) -> Result<MissingList, AllocError>
    ensures { IfOk result (λ all. all ≡ missing_of_lem (is_proved keys.now) parts.now) }
{
    let mut all = MissingList::new(alloc);
    put_bodies(alloc, &mut all, parts.functions.as_slice(), keys)?;
    put_modules(alloc, &mut all, parts.modules.as_slice(), keys)?;
    Ok(all)
}

fn is_before(a: Place, b: Place) -> bool
    ensures { result ≡ is_before_lem a b }
{
    a.file < b.file
        || (a.file == b.file && (a.line < b.line || (a.line == b.line && a.column < b.column)))
}

fn sooner<'a>(best: Option<&'a Missing>, next: &'a Missing) -> Option<&'a Missing>
    ensures { option_copied result ≡ sooner_lem (option_copied best.entry) next.now }
{
    match best {
        None => Some(next),
        Some(first) => {
            if is_before(next.place, first.place) {
                Some(next)
            } else {
                Some(first)
            }
        }
    }
}

/// The one whose place is first.
pub(crate) fn first_of(all: &[Missing]) -> Option<&Missing>
    ensures { option_copied result ≡ first_from None all.now }
{
    let mut best = None;
    'all: for missing in all {
        best = sooner(best, missing);
    }
    best
}
