ghost use Rattle.std.specs.Prelude.{◌≡◌, ◌++◌, IfOk};
ghost use Rattle.floyd_elab_expressions.specs.Clight.{pulled_name as pulled_name_lem, kth_name as kth_name_lem};

use floyd_text::{Bytes, Name};
use std::alloc::{AllocError, Global};

/// The name of the pulled read of that number.
pub fn pulled_name(alloc: Global, k: u64) -> Result<Name, AllocError>
    ensures { IfOk result (λ name. name ≡ pulled_name_lem k) }
{
    let text = format!(in alloc; "t'{k}")?;
    Name::from_slice(alloc, text.as_bytes())
}

/// The name of the k-th variable of that name in a function.
pub fn kth_name(alloc: Global, x: &Name, k: u64) -> Result<Name, AllocError>
    ensures { IfOk result (λ name. name ≡ kth_name_lem x.now k) }
{
    let mut bytes = Bytes::from_slice(alloc, x.as_slice())?;
    let text = format!(in alloc; "''{k}")?;
    bytes.extend(text.as_bytes())?;
    Name::from_slice(alloc, bytes.as_slice())
}
