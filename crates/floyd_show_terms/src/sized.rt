ghost use Rattle.std.specs.Prelude.{◌≡◌, ◌++◌, OnOk};
ghost use Rattle.floyd_show_terms.specs.SizedTypes.{sized_text};

use crate::terms::texts_of;
use crate::types::put_type;
use floyd_text::Bytes;
use floyd_tree::AType;
use std::alloc::{AllocError, Global};

/// Puts the type at the end.
pub fn put_sized(alloc: Global, out: &mut Bytes, ty: &AType) -> Result<(), AllocError>
    ensures { OnOk result (out.new ≡ out.old ++ sized_text ty.now) }
{
    let sizes = texts_of(alloc, ty.sizes().as_slice())?;
    put_type(out, ty.shape().get(), sizes.as_slice())?;
    Ok(())
}
