ghost use Rattle.std.specs.Prelude.{◌≡◌, [], IfOk};
ghost use Rattle.floyd_elab_expressions.specs.Behind.{behind};
ghost use Rattle.floyd_elab_expressions.specs.Clight.{begins_with_not as begins_with_not_lem, is_truth as is_truth_lem, test_of as test_of_lem};

use crate::casts::{combine, is_comparison};
use crate::nodes::zero;
use crate::translation::Translation;
use floyd_clight::Expr;
use floyd_cparse_trees::{BinaryOp, CExpr, Prefix, PrefixOp};
use floyd_ctypes::CType;
use floyd_ctyping::{Operand, Standing};
use floyd_int::{IntKind, IntOp};
use std::alloc::{AllocError, Global};

fn begins_with_not(prefixes: &[Prefix]) -> bool
    ensures { result ≡ begins_with_not_lem prefixes.now }
{
    match prefixes.get(0) {
        Some(Prefix::Op(op, _)) => *op == PrefixOp::Not,
        _ => false,
    }
}

/// Whether it is a test as it is: a comparison or `!`.
#[tactic(auto, using(crate::proofs::TruthLemmas::is_truth_parenthesised, crate::proofs::TruthLemmas::is_truth_prefixed, crate::proofs::TruthLemmas::is_truth_binary))]
pub fn is_truth(e: &CExpr) -> bool
    ensures { result ≡ is_truth_lem e.now }
{
    match e {
        CExpr::Parenthesised(inner) => is_truth(inner.get()),
        CExpr::Prefixed { prefixes, .. } => begins_with_not(prefixes.as_slice()),
        CExpr::Binary { op, .. } => match op {
            BinaryOp::Int(op) => is_comparison(*op),
            BinaryOp::And | BinaryOp::Or => false,
        },
        _ => false,
    }
}

/// The test of an expression that was translated to `a`: it is compared with 0 where it is no test as it is.
pub fn test_of(alloc: Global, e: &CExpr, a: &Translation) -> Result<Expr, AllocError>
    ensures { IfOk result (λ made. made ≡ test_of_lem e.now (behind [] a.now)) }
{
    if is_truth(e) {
        return a.expr.share(alloc);
    }
    let zero = Translation {
        expr: zero(),
        operand: Operand {
            ctype: CType::Int(IntKind::I32),
            standing: Standing::Zero,
        },
    };
    combine(alloc, IntOp::Ne, a, &zero, CType::Int(IntKind::I32))
}
