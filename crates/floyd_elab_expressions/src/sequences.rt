ghost use Rattle.std.specs.Prelude.{◌≡◌, IfOk};
ghost use Rattle.floyd_elab_expressions.specs.Clight.{sequence as sequence_lem, store as store_lem};

use floyd_clight::{Expr, Stmt, StmtList};
use std::alloc::{AllocError, Global};

/// One after the other.
#[tactic(auto, using(crate::proofs::SequenceLemmas::sequence_long, crate::proofs::SequenceLemmas::sequence_last))]
pub fn sequence(mut statements: StmtList) -> Stmt
    ensures { result ≡ sequence_lem statements }
{
    if statements.len() > 1 {
        return Stmt::Seq(statements);
    }
    match statements.pop() {
        Some(only) => only,
        None => Stmt::Skip,
    }
}

/// Sets a temporary, or stores at a place.
pub fn store(alloc: Global, place: &Expr, e: Expr) -> Result<Stmt, AllocError>
    ensures { IfOk result (λ s. s ≡ store_lem place.now e) }
{
    match place {
        Expr::Temp(name, _) => Ok(Stmt::Set(name.share()?, e)),
        _ => Ok(Stmt::Assign(place.share(alloc)?, e)),
    }
}
