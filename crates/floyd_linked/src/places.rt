ghost use Rattle.std.specs.Prelude.{◌≡◌, IfOk, OnOk, map};
ghost use Rattle.floyd_linked.specs.PlaceClauses.{function_places as function_places_lem, import_places as import_places_lem, with_place};

use floyd_assert_trees::Table;
use floyd_goal_meaning::{LinkedFunction, Module};
use floyd_text::Name;
use sqlite_items::Items;
use std::alloc::{AllocError, Global};

/// The first place of each name in a list.
pub(crate) type Places = Table<usize>;

/// Adds the name's place, unless it has one.
fn put_place(places: &mut Places, name: &Name, place: usize) -> Result<(), AllocError>
    ensures { OnOk result (places.new ≡ with_place name.now place places.old) }
{
    if places.get(name).is_none() {
        places.add(name.share()?, place)?;
    }
    Ok(())
}

/// The places of the functions by name.
pub(crate) fn function_places(
    alloc: Global,
    functions: &[LinkedFunction],
) -> Result<Places, AllocError>
    ensures { IfOk result (λ places. places ≡ function_places_lem functions.now) }
{
    let mut places = Places::new(alloc);
    'functions: for place in 0..functions.len() {
        put_place(&mut places, &functions[place].name, place)?;
    }
    Ok(places)
}

/// The places of the module's imports by name.
fn import_places(alloc: Global, owner: &Module) -> Result<Places, AllocError>
    ensures { IfOk result (λ places. places ≡ import_places_lem owner.now) }
{
    let imports = owner.imports.as_slice();
    let mut places = Places::new(alloc);
    'imports: for place in 0..imports.len() {
        put_place(&mut places, &imports[place].name, place)?;
    }
    Ok(places)
}

/// The same of each module.
pub(crate) fn all_import_places(
    alloc: Global,
    modules: &[Module],
) -> Result<Items<Places>, AllocError>
    ensures { IfOk result (λ all. all ≡ map import_places_lem modules.now) }
{
    let mut all = Items::new(alloc);
    'modules: for module in modules {
        all.push(import_places(alloc, module)?)?;
    }
    Ok(all)
}
