ghost use Rattle.std.specs.Prelude.{◌≡◌, ◌-◌, ◌^◌, ◌&&◌, IfOk, nat_le, pos};
ghost use Rattle.floyd_int.specs.Kind.{is_signed, value_of, width};
ghost use Rattle.floyd_control.specs.ForwardSwitch.{label_term as label_term_lem};

use floyd_fieldpath::literal;
use floyd_int::IntKind;
use floyd_symexpr_rows::Number;
use floyd_text::Steps;
use floyd_tree::Term;
use std::alloc::{AllocError, Global};
use std::sync::ledger::Ledger;

/// How many integers of the kind there are, each with bits of its own.
fn modulus(kind: IntKind) -> i128
    ensures { result ≡ pos (2 ^ width kind) }
{
    1 << kind.width()
}

/// Whether the kind reads these bits as a number below 0.
fn is_negative(kind: IntKind, bits: u64) -> bool
    ensures { result ≡ (is_signed kind && nat_le (2 ^ (width kind - 1)) bits) }
{
    kind.is_signed() && i128::from(bits) > kind.greatest()
}

/// The value of a label's bits at a kind.
fn label_value(kind: IntKind, bits: u64) -> i128
    ensures { result ≡ value_of kind bits }
{
    if is_negative(kind, bits) {
        i128::from(bits) - modulus(kind)
    } else {
        i128::from(bits)
    }
}

/// The term of a label's value at the number's kind.
pub(crate) fn label_term<L: Ledger>(
    alloc: Global,
    a: &Number,
    bits: u64,
    steps: &mut Steps<L>,
) -> Result<Term, AllocError>
    ensures { IfOk result (λ t. t ≡ label_term_lem a.now bits) }
{
    literal(alloc, label_value(a.kind, bits), steps)
}
