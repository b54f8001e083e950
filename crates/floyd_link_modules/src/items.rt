//! Items by name, whose terms are not copied.
ghost use Rattle.std.specs.Prelude.{◌≡◌, IfOk, OnOk};
ghost use Rattle.floyd_specread_sources.specs.Tables.{put_new as put_new_lem};
ghost use Rattle.floyd_link_modules.specs.Modules as specs;

use floyd_assert_trees::{Fun, Funspec, Lemma, Pred, Table};
use floyd_link_parts::with_pre;
use floyd_specread_sources::put_new;
use floyd_specread_state::{share_fun, share_lemma, share_pred};
use floyd_text::{Name, Shared};
use std::alloc::{AllocError, Global};

fn put_fun(alloc: Global, all: &mut Table<Fun>, name: &Name, item: &Fun) -> Result<(), AllocError>
    ensures { OnOk result (all.new ≡ put_new_lem name.now item.now all.old) }
{
    let copy = share_fun(alloc, item)?;
    let name = name.share()?;
    put_new(all, name, copy)
}

pub fn once_funs(alloc: Global, items: &Table<Fun>) -> Result<Table<Fun>, AllocError>
    ensures { IfOk result (λ all. all ≡ specs.once items.now) }
{
    let mut all = Table::new(alloc);
    'items: for i in 0..items.len() {
        if let Some((name, item)) = items.at(i) {
            put_fun(alloc, &mut all, name, item)?;
        }
    }
    Ok(all)
}

fn put_pred(
    alloc: Global,
    all: &mut Table<Pred>,
    name: &Name,
    item: &Pred,
) -> Result<(), AllocError>
    ensures { OnOk result (all.new ≡ put_new_lem name.now item.now all.old) }
{
    let copy = share_pred(alloc, item)?;
    let name = name.share()?;
    put_new(all, name, copy)
}

pub fn once_preds(alloc: Global, items: &Table<Pred>) -> Result<Table<Pred>, AllocError>
    ensures { IfOk result (λ all. all ≡ specs.once items.now) }
{
    let mut all = Table::new(alloc);
    'items: for i in 0..items.len() {
        if let Some((name, item)) = items.at(i) {
            put_pred(alloc, &mut all, name, item)?;
        }
    }
    Ok(all)
}

fn put_lemma(
    alloc: Global,
    all: &mut Table<Lemma>,
    name: &Name,
    item: &Lemma,
) -> Result<(), AllocError>
    ensures { OnOk result (all.new ≡ put_new_lem name.now item.now all.old) }
{
    let copy = share_lemma(alloc, item)?;
    let name = name.share()?;
    put_new(all, name, copy)
}

pub fn once_lemmas(alloc: Global, items: &Table<Lemma>) -> Result<Table<Lemma>, AllocError>
    ensures { IfOk result (λ all. all ≡ specs.once items.now) }
{
    let mut all = Table::new(alloc);
    'items: for i in 0..items.len() {
        if let Some((name, item)) = items.at(i) {
            put_lemma(alloc, &mut all, name, item)?;
        }
    }
    Ok(all)
}

fn put_spec(
    alloc: Global,
    all: &mut Table<Funspec>,
    name: &Name,
    item: &Shared<Funspec>,
) -> Result<(), AllocError>
    ensures { OnOk result (all.new ≡ put_new_lem name.now item.now all.old) }
{
    let spec = item.get();
    let copy = with_pre(alloc, spec, &spec.pre)?;
    let name = name.share()?;
    put_new(all, name, copy)
}

pub fn once_specs(
    alloc: Global,
    items: &Table<Shared<Funspec>>,
) -> Result<Table<Funspec>, AllocError>
    ensures { IfOk result (λ all. all ≡ specs.once items.now) }
{
    let mut all = Table::new(alloc);
    'items: for i in 0..items.len() {
        if let Some((name, item)) = items.at(i) {
            put_spec(alloc, &mut all, name, item)?;
        }
    }
    Ok(all)
}
