//! Laws of the bits of integers.

ghost use Rattle.floyd_int.specs.Laws.{BitsOfSums, BitsOfDifferences, BitsOfProducts};

/// A law, with nothing to run: the bits of a sum, a difference and a product depend on the bits of the operands alone,
/// and are the same for the signed and the unsigned kind of a width.
pub fn bits_of_sums_and_products()
    ensures sums { BitsOfSums }
    ensures differences { BitsOfDifferences }
    ensures products { BitsOfProducts }
{}
