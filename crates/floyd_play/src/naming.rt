//! The names of a table.
ghost use Rattle.std.specs.Prelude.{◌≡◌, ◌+◌, take, IfOk, OnOk};
ghost use Rattle.std.specs.Map.{keys_of};

use floyd_assert_trees::{NameList, Names};
use floyd_text::Name;
use sqlite_items::Items;
use std::alloc::{AllocError, Global};

/// The name at that place, if there is one, behind those before it.
fn add_at(names: &Names, place: usize, all: &mut Vec<Name>) -> Result<(), AllocError>
    ensures { OnOk result (all.old.items ≡ keys_of (take place names.now) → all.new.items ≡ keys_of (take (place + 1) names.now)) }
{
    match names.at(place) {
        Some((name, _)) => {
            let name = name.share()?;
            all.push(name)?;
            Ok(())
        }
        None => Ok(()),
    }
}

/// The names, in order.
pub(crate) fn names_of(alloc: Global, names: &Names) -> Result<NameList, AllocError>
    ensures { IfOk result (λ all. all ≡ keys_of names.now) }
{
    let mut all = Vec::with_capacity(alloc, names.len())?;
    'places: for place in 0..names.len() {
        add_at(names, place, &mut all)?;
    }
    Ok(Items::from_vec(all))
}
