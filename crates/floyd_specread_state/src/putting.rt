//! Items that are put in sight.
ghost use Rattle.std.specs.Prelude.{◌≡◌, OnOk};
ghost use Rattle.floyd_specread_state.specs.States as specs;

use crate::bare::{Origin, bare_fun, bare_pred, bare_spec};
use crate::state::State;
use floyd_assert_trees::{Binder, Fun, Funspec, Lemma, Pred};
use floyd_specread_sources::put_new;
use floyd_text::{Name, Shared};
use floyd_tree::Sort;
use std::alloc::{AllocError, Global};

/// Puts a FUN in sight before its body is read.
pub fn show_fun(
    alloc: Global,
    state: &mut State,
    name: &Name,
    origin: Origin,
    arguments: &[Binder],
    sort: &Sort,
) -> Result<(), AllocError>
    ensures { OnOk result (state.new ≡ specs.show_fun name.now (specs.bare_fun origin arguments.now sort.now) state.old) }
{
    let bare = bare_fun(alloc, origin, arguments, sort)?;
    let name = name.share()?;
    put_new(&mut state.sight.funs, name, bare)
}

/// Puts a PRED in sight before its body is read.
pub fn show_pred(
    alloc: Global,
    state: &mut State,
    name: &Name,
    origin: Origin,
    arguments: &[Binder],
) -> Result<(), AllocError>
    ensures { OnOk result (state.new ≡ specs.show_pred name.now (specs.bare_pred origin arguments.now) state.old) }
{
    let bare = bare_pred(alloc, origin, arguments)?;
    let name = name.share()?;
    put_new(&mut state.sight.preds, name, bare)
}

/// Puts a SPEC in sight before its text is read.
pub fn show_spec(alloc: Global, state: &mut State, name: &Name) -> Result<(), AllocError>
    ensures { OnOk result (state.new ≡ specs.show_spec name.now state.old) }
{
    let bare = bare_spec(alloc)?;
    let name = name.share()?;
    put_new(&mut state.specs_in_sight, name, bare)
}

/// Adds a FUN, which is in sight from then on.
pub fn put_fun(alloc: Global, state: &mut State, name: &Name, fun: Fun) -> Result<(), AllocError>
    ensures { OnOk result (state.new ≡ specs.put_fun name.now fun state.old) }
{
    let origin = Origin {
        place: fun.place,
        home: fun.module,
    };
    show_fun(
        alloc,
        state,
        name,
        origin,
        fun.arguments.as_slice(),
        &fun.result,
    )?;
    let name = name.share()?;
    put_new(&mut state.funs, name, fun)
}

/// Adds a PRED, which is in sight from then on.
pub fn put_pred(alloc: Global, state: &mut State, name: &Name, pred: Pred) -> Result<(), AllocError>
    ensures { OnOk result (state.new ≡ specs.put_pred name.now pred state.old) }
{
    let origin = Origin {
        place: pred.place,
        home: pred.module,
    };
    show_pred(alloc, state, name, origin, pred.arguments.as_slice())?;
    let name = name.share()?;
    put_new(&mut state.preds, name, pred)
}

/// Adds a lemma.
pub fn put_lemma(state: &mut State, name: &Name, lemma: Lemma) -> Result<(), AllocError>
    ensures { OnOk result (state.new ≡ specs.put_lemma name.now lemma state.old) }
{
    let name = name.share()?;
    put_new(&mut state.lemmas, name, lemma)
}

/// Adds a SPEC, which is in sight from then on.
pub fn put_spec(
    alloc: Global,
    state: &mut State,
    name: &Name,
    spec: Shared<Funspec>,
) -> Result<(), AllocError>
    ensures { OnOk result (state.new ≡ specs.put_spec name.now spec state.old) }
{
    show_spec(alloc, state, name)?;
    let name = name.share()?;
    put_new(&mut state.specs, name, spec)
}
