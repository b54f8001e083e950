//! Imports.
ghost use Rattle.std.specs.Prelude.{◌≡◌, OnOk};
ghost use Rattle.floyd_specread_state.specs.States as specs;

use crate::putting::{put_fun, put_lemma, put_pred, put_spec};
use crate::sharing::{share_fun, share_lemma, share_pred};
use crate::state::State;
use floyd_assert_trees::{Fun, Funspec, Lemma, Pred, Table};
use floyd_specread_trees::{ModuleDefs, SpecItems};
use floyd_text::{Name, Shared};
use std::alloc::{AllocError, Global};

fn import_fun(alloc: Global, state: &mut State, name: &Name, fun: &Fun) -> Result<(), AllocError>
    ensures { OnOk result (state.new ≡ specs.put_fun name.now fun.now state.old) }
{
    let copy = share_fun(alloc, fun)?;
    put_fun(alloc, state, name, copy)
}

fn import_funs(alloc: Global, state: &mut State, funs: &Table<Fun>) -> Result<(), AllocError>
    ensures { OnOk result (state.new ≡ specs.with_funs funs.now state.old) }
{
    'items: for i in 0..funs.len() {
        if let Some((name, fun)) = funs.at(i) {
            import_fun(alloc, state, name, fun)?;
        }
    }
    Ok(())
}

fn import_pred(alloc: Global, state: &mut State, name: &Name, pred: &Pred) -> Result<(), AllocError>
    ensures { OnOk result (state.new ≡ specs.put_pred name.now pred.now state.old) }
{
    let copy = share_pred(alloc, pred)?;
    put_pred(alloc, state, name, copy)
}

fn import_preds(alloc: Global, state: &mut State, preds: &Table<Pred>) -> Result<(), AllocError>
    ensures { OnOk result (state.new ≡ specs.with_preds preds.now state.old) }
{
    'items: for i in 0..preds.len() {
        if let Some((name, pred)) = preds.at(i) {
            import_pred(alloc, state, name, pred)?;
        }
    }
    Ok(())
}

fn import_lemma(
    alloc: Global,
    state: &mut State,
    name: &Name,
    lemma: &Lemma,
) -> Result<(), AllocError>
    ensures { OnOk result (state.new ≡ specs.put_lemma name.now lemma.now state.old) }
{
    let copy = share_lemma(alloc, lemma)?;
    put_lemma(state, name, copy)
}

fn import_lemmas(alloc: Global, state: &mut State, lemmas: &Table<Lemma>) -> Result<(), AllocError>
    ensures { OnOk result (state.new ≡ specs.with_lemmas lemmas.now state.old) }
{
    'items: for i in 0..lemmas.len() {
        if let Some((name, lemma)) = lemmas.at(i) {
            import_lemma(alloc, state, name, lemma)?;
        }
    }
    Ok(())
}

fn import_spec(
    alloc: Global,
    state: &mut State,
    name: &Name,
    spec: &Shared<Funspec>,
) -> Result<(), AllocError>
    ensures { OnOk result (state.new ≡ specs.put_spec name.now spec.now state.old) }
{
    let copy = spec.share()?;
    put_spec(alloc, state, name, copy)
}

fn import_specs(alloc: Global, state: &mut State, items: &SpecItems) -> Result<(), AllocError>
    ensures { OnOk result (state.new ≡ specs.with_specs items.now state.old) }
{
    'items: for i in 0..items.len() {
        if let Some((name, spec)) = items.at(i) {
            import_spec(alloc, state, name, spec)?;
        }
    }
    Ok(())
}

/// Makes the items of a module visible, with those that are visible in it by its own imports, each once.
pub fn import_module(alloc: Global, state: &mut State, other: &ModuleDefs) -> Result<(), AllocError>
    ensures { OnOk result (state.new ≡ specs.imported other.now state.old) }
{
    let defs = other.defs.get();
    import_funs(alloc, state, &defs.funs)?;
    import_preds(alloc, state, &defs.preds)?;
    import_lemmas(alloc, state, &defs.lemmas)?;
    import_specs(alloc, state, other.specs.get())?;
    let name = other.name.share()?;
    state.imports.push(name)
}
