//! Structs that get their fields.
ghost use Rattle.std.specs.Prelude.{All, IsTrue};
ghost use Rattle.floyd_ctypes.specs.Layout.{type_fits};

use floyd_ctypes::{DefineStop, Field, FieldList, StructTable};
use floyd_text::Name;
use tests_terms::Stop;

/// Whether all fields have types that fit into the table.
fn all_fit(table: &StructTable, fields: &[Field]) -> bool
    ensures { IsTrue result → All (λ f. IsTrue (type_fits table.now f.ty)) fields.now }
{
    'fields: for field in fields {
        if !table.fits(&field.ty) {
            return false;
        }
    }
    true
}

/// Gives the struct of that tag its fields.
pub fn complete(table: &mut StructTable, tag: &Name, fields: FieldList) -> Result<(), Stop> {
    if !table.contains(tag)
        || fields.is_empty()
        || fields.len() >= 1 << 31
        || !all_fit(table, fields.as_slice())
    {
        return Err(Stop::Unreadable);
    }
    let done = table.complete(tag, fields);
    match &done {
        Ok(()) => Ok(()),
        Err(DefineStop::Memory) => Err(Stop::Memory),
        Err(_) => Err(Stop::Unreadable),
    }
}
