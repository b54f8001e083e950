//! The bits and the value of an integer. Bits stand in the low end of a `u64`, with zeros above.

ghost use Rattle.std.specs.Prelude.{◌≡◌, ◌↔◌, ◌<◌, ◌^◌, pos};
ghost use Rattle.floyd_int.specs.Kind.{width, InRange, repr_of, value_of, cast_of};

use crate::kinds::IntKind;

/// How many integers of the kind there are, each with bits of its own.
fn modulus(kind: IntKind) -> i128
    ensures { result ≡ pos (2 ^ width kind) }
{
    1 << kind.width()
}

/// The bits of `z`: `z` modulo 2 to the kind's width. They stand for `z` itself exactly where `z` is
/// a value of the kind.
pub fn repr(kind: IntKind, z: i128) -> u64
    ensures bits { result ≡ repr_of kind z }
    ensures below { result < 2 ^ width kind }
    ensures kept { InRange kind z ↔ (value_of kind result ≡ z) }
{
    z.rem_euclid(modulus(kind)) as u64
}

/// The value of `bits`, which a signed kind reads in two's complement.
pub fn value(kind: IntKind, bits: u64) -> i128
    requires { bits < 2 ^ width kind }
    ensures value { result ≡ value_of kind bits }
    ensures in_range { InRange kind result }
    ensures back { repr_of kind result ≡ bits }
{
    let z = i128::from(bits);
    if z > kind.greatest() {
        z - modulus(kind)
    } else {
        z
    }
}

/// The bits at the kind `to` of the value that `bits` have at the kind `from`. A value that is out
/// of the range of `to` is taken modulo 2 to its width, as C does for an unsigned type and as
/// CompCert does for a signed one too.
pub fn cast(bits: u64, from: IntKind, to: IntKind) -> u64
    requires { bits < 2 ^ width from }
    ensures bits { result ≡ cast_of from to bits }
    ensures below { result < 2 ^ width to }
    ensures kept { InRange to (value_of from bits) ↔ (value_of to result ≡ value_of from bits) }
{
    repr(to, value(from, bits))
}
