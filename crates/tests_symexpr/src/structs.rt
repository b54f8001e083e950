ghost use Rattle.std.specs.Prelude.{All, IsTrue};
ghost use Rattle.floyd_ctypes.specs.Layout.{type_fits};

use floyd_ctypes::{Field, FieldList, StructTable};
use floyd_text::Name;
use sqlite_items::Items;
use std::alloc::Global;
use tests_clight::{TYPE_DEPTH, ctype_of};
use tests_terms::{Stop, Tree, part};

/// `(NAME TYPE)` for each.
fn fields_of(alloc: Global, trees: &[Tree]) -> Result<FieldList, Stop> {
    let mut fields = Items::new(alloc);
    'trees: for tree in trees {
        fields.push(Field {
            name: part(tree.parts(), 0)?.name()?,
            ty: ctype_of(alloc, part(tree.parts(), 1)?, TYPE_DEPTH)?,
        })?;
    }
    Ok(fields)
}

/// Whether all fields keep the condition of `complete`.
fn all_fit(structs: &StructTable, fields: &[Field]) -> bool
    ensures { IsTrue result → All (λ f. IsTrue (type_fits structs.now f.ty)) fields.now }
{
    'fields: for field in fields {
        if !structs.fits(&field.ty) {
            return false;
        }
    }
    true
}

/// Completes a struct, after the conditions are looked at.
fn complete(structs: &mut StructTable, tag: &Name, fields: FieldList) -> Result<(), Stop> {
    if !structs.contains(tag)
        || fields.is_empty()
        || fields.len() >= 1 << 31
        || !all_fit(structs, fields.as_slice())
    {
        return Err(Stop::Unreadable);
    }
    match structs.complete(tag, fields) {
        Ok(()) => Ok(()),
        Err(_) => Err(Stop::Unreadable),
    }
}

/// `struct TAG (NAME TYPE) ..`, which is incomplete without fields.
pub fn put_struct(alloc: Global, structs: &mut StructTable, row: &[Tree]) -> Result<bool, Stop> {
    let tag = part(row, 1)?.name()?;
    structs.declare(&tag)?;
    let fields = fields_of(alloc, row.get(2..).unwrap_or(&[]))?;
    if !fields.is_empty() {
        complete(structs, &tag, fields)?;
    }
    Ok(true)
}
