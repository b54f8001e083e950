//! Constants: a literal, or minus it.
ghost use Rattle.std.specs.Prelude.{◌≡◌, ◌-◌, ◌^◌, ◌&&◌, nat_le, pos};
ghost use Rattle.floyd_int.specs.Kind.{width as width_lem, is_signed as is_signed_lem, value_of as value_of_lem};
ghost use Rattle.floyd_ctyping.specs.Switches.{signed_bits as signed_bits_lem, constant_bits as constant_bits_lem};

use floyd_cparse_trees::Literal;
use floyd_int::{IntKind, repr};

/// How many integers of the kind there are, each with bits of its own.
fn modulus(kind: IntKind) -> i128
    ensures { result ≡ pos (2 ^ width_lem kind) }
{
    1 << kind.width()
}

/// Whether the kind reads these bits as a number below 0.
fn is_negative(kind: IntKind, bits: u64) -> bool
    ensures { result ≡ (is_signed_lem kind && nat_le (2 ^ (width_lem kind - 1)) bits) }
{
    kind.is_signed() && i128::from(bits) > kind.greatest()
}

/// The value of these bits, of which there may be more than the kind has.
fn value_of(kind: IntKind, bits: u64) -> i128
    ensures { result ≡ value_of_lem kind bits }
{
    if is_negative(kind, bits) {
        i128::from(bits) - modulus(kind)
    } else {
        i128::from(bits)
    }
}

/// The bits of a literal, or of minus it as C computes that.
fn signed_bits(negative: bool, literal: Literal) -> u64
    ensures { result ≡ signed_bits_lem negative literal }
{
    if negative {
        repr(literal.kind, -i128::from(literal.value))
    } else {
        literal.value
    }
}

/// The bits at a kind of the value of a literal, or of minus it as C computes that.
pub fn constant_bits(kind: IntKind, negative: bool, literal: Literal) -> u64
    ensures { result ≡ constant_bits_lem kind negative literal }
{
    repr(kind, value_of(literal.kind, signed_bits(negative, literal)))
}
