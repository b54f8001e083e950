//! What sources declare and define, by name.
ghost use Rattle.std.specs.Prelude.{◌≡◌, [], OnOk, ◌++◌};
ghost use Rattle.floyd_link_names.specs.Tables as specs;
ghost use Rattle.floyd_link_names.specs.Names.{declared_in as declared_lem, defined_in as defined_lem};

use crate::entries::{Entry, EntryList};
use floyd_assert_trees::{Names, Table};
use floyd_ctypes::CType;
use floyd_specread_sources::put_new;
use std::alloc::{AllocError, Global};

/// Adds each name with its type, unless it is there.
pub fn put_types(
    alloc: Global,
    table: &mut Table<CType>,
    entries: &[Entry],
) -> Result<(), AllocError>
    ensures { OnOk result (table.new ≡ specs.with_types entries.now table.old) }
{
    let mut rest = entries;
    'entries: while let Some((entry, more)) = rest.split_first() {
        let name = entry.name.share()?;
        put_new(table, name, entry.ctype.share(alloc)?)?;
        rest = more;
    }
    Ok(())
}

/// Adds each name, unless it is there.
pub fn put_names(table: &mut Names, entries: &[Entry]) -> Result<(), AllocError>
    ensures { OnOk result (table.new ≡ specs.with_names entries.now table.old) }
{
    let mut rest = entries;
    'entries: while let Some((entry, more)) = rest.split_first() {
        let name = entry.name.share()?;
        put_new(table, name, ())?;
        rest = more;
    }
    Ok(())
}
