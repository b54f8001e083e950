ghost use Rattle.std.specs.Prelude.{◌≡◌, ◌<◌, ◌^◌, All, IfOk, IsTrue, length, unwrap_or};
ghost use Rattle.floyd_arrays_structs.specs.StructParts.{field_bytes as field_bytes_lem, has_padding as has_padding_lem, padding_parts as padding_parts_lem};
ghost use Rattle.floyd_ctypes.specs.Layout.{IsLaidOut, arrays_fit, size, type_fits};

use crate::structs::StructPart;
use floyd_assert::{Sep, SepList};
use floyd_ctypes::{CType, Field, StructTable};
use floyd_text::Name;
use std::alloc::{AllocError, Global};

/// The bytes of a type.
fn bytes_of(structs: &StructTable, t: &CType) -> u64
    requires { IsTrue (arrays_fit structs.now t.now) }
    ensures { result ≡ unwrap_or (size structs.now t.now) 0 }
{
    match structs.size_of(t) {
        Some(bytes) => bytes,
        None => 0,
    }
}

/// The bytes of the fields.
fn field_bytes(structs: &StructTable, fields: &[Field]) -> u128
    requires few { length fields.now < 2 ^ 31 }
    requires fits { All (λ f. IsTrue (type_fits structs.now f.ty)) fields.now }
    ensures { result ≡ field_bytes_lem structs.now fields.now }
{
    let mut bytes: u128 = 0;
    'fields: for field in fields {
        let more = bytes_of(structs, &field.ty);
        bytes += more as u128;
    }
    bytes
}

/// Whether the fields do not fill the struct.
fn has_padding(structs: &StructTable, tag: &Name, fields: &[Field]) -> Result<bool, AllocError>
    requires { IsLaidOut structs.now tag.now fields.now }
    ensures { IfOk result (λ yes. yes ≡ has_padding_lem structs.now tag.now fields.now) }
{
    let t = CType::Struct(tag.share()?);
    let whole = bytes_of(structs, &t);
    Ok(field_bytes(structs, fields) != whole as u128)
}

/// The part of the struct's own padding, where there is some.
pub(crate) fn padding_parts(
    alloc: Global,
    structs: &StructTable,
    whole: &StructPart,
    fields: &[Field],
) -> Result<SepList, AllocError>
    requires { IsLaidOut structs.now whole.now.tag fields.now }
    ensures { IfOk result (λ ps. ps ≡ padding_parts_lem structs.now whole.now fields.now) }
{
    let mut parts = SepList::new(alloc);
    let padded = has_padding(structs, &whole.tag, fields)?;
    if padded {
        parts.push(Sep::Padding(whole.region.share(alloc)?))?;
    }
    Ok(parts)
}
