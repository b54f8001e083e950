ghost use Rattle.std.specs.Prelude.{◌≡◌, ◌++◌, IfOk, OnOk};
ghost use Rattle.floyd_clight.specs.Flat.{flat as flat_lem};

use crate::syntax::{Stmt, StmtList};
use sqlite_items::Items;
use std::alloc::{AllocError, Global};

/// The statements of a statement, without its sequences and skips.
pub fn flat(alloc: Global, s: &Stmt) -> Result<StmtList, AllocError>
    ensures { IfOk result (λ all. all ≡ flat_lem s.now) }
{
    let mut all = Items::new(alloc);
    flat_onto(alloc, s, &mut all)?;
    Ok(all)
}

/// Puts them at the end.
fn flat_onto(alloc: Global, s: &Stmt, all: &mut StmtList) -> Result<(), AllocError>
    ensures { OnOk result (all.new ≡ all.old ++ flat_lem s.now) }
{
    match s {
        Stmt::Skip => Ok(()),
        Stmt::Seq(parts) => {
            'parts: for part in parts.as_slice() {
                flat_onto(alloc, part, all)?;
            }
            Ok(())
        }
        _ => all.push(s.share(alloc)?),
    }
}
