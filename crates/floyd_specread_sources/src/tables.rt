//! Tables of items, each of which stands once.
ghost use Rattle.std.specs.Prelude.{OnOk, ◌≡◌};
ghost use Rattle.floyd_specread_sources.specs.Tables as specs;

use floyd_assert_trees::Table;
use floyd_text::Name;
use std::alloc::AllocError;

/// Adds an item behind the others, unless one of its name is there.
pub fn put_new<T: Drop>(table: &mut Table<T>, name: Name, item: T) -> Result<(), AllocError>
    ensures { OnOk result (table.new ≡ specs.put_new name item table.old) }
{
    if table.get(&name).is_some() {
        return Ok(());
    }
    table.add(name, item)
}
