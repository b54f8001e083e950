ghost use Rattle.std.specs.Prelude.{◌≡◌, IfOk};

use floyd_clight::Expr;
use floyd_ctyping::Operand;
use std::alloc::{AllocError, Global};

/// An expression, translated: an expression without reads, which is a place where it stands for an object that was not
/// read yet, and how its operator sees it. The statements that go before it stand elsewhere.
pub struct Translation {
    pub expr: Expr,
    pub operand: Operand,
}

impl Drop for Translation {
    fn drop(self) {
        let Translation { expr, operand } = self;
        drop(expr);
        drop(operand);
    }
}

impl Translation {
    /// The same expression, which its operator sees so.
    pub(crate) fn with_operand(self, operand: Operand) -> Translation
        ensures { result ≡ record self { operand = operand } }
    {
        let Translation {
            expr,
            operand: before,
        } = self;
        drop(before);
        Translation { expr, operand }
    }

    /// The same, with its parts shared.
    pub fn share(&self, alloc: Global) -> Result<Translation, AllocError>
        ensures { IfOk result (λ a. a ≡ self.now) }
    {
        let expr = self.expr.share(alloc)?;
        let ctype = self.operand.ctype.share(alloc)?;
        Ok(Translation {
            expr,
            operand: Operand {
                ctype,
                standing: self.operand.standing,
            },
        })
    }
}
