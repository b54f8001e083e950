ghost use Rattle.std.specs.Prelude.{◌≡◌, ◌≤◌, ◌+◌, ◌+ℤ◌, option_map, unsigned_abs, Some};
ghost use Rattle.floyd_fieldpath.specs.Sums.{small};
ghost use Rattle.floyd_simplifying.specs.SumClauses.{whole};
ghost use Rattle.floyd_simplifying.specs.WrittenLists.{numbers_of, total};

use floyd_fieldpath::literal_in;
use floyd_tree::Term;

/// A whole number in two words: it is 2^128 times `high`, and `low`.
#[derive(Clone, Copy)]
struct Wide {
    high: i128,
    low: i128,
}

/// The sum of both, where the high word is far from its ends.
fn plus(w: Wide, z: i128) -> Wide
    requires { unsigned_abs w.high ≤ 18446744073709551616 }
    ensures value { whole result ≡ whole w +ℤ z }
    ensures near { unsigned_abs result.high ≤ unsigned_abs w.high + 1 }
{
    match w.low.checked_add(z) {
        Some(low) => Wide { high: w.high, low },
        None => {
            if z < 0 {
                Wide {
                    high: w.high - 1,
                    low: (w.low + i128::MAX) + (z + i128::MAX) + 2,
                }
            } else {
                Wide {
                    high: w.high + 1,
                    low: (w.low + i128::MIN) + (z + i128::MIN),
                }
            }
        }
    }
}

/// The number, where it is below 2^126 in absolute value.
fn small_number(w: Wide) -> Option<i128>
    ensures { result ≡ small (Some (whole w)) }
{
    if w.high == 0 && w.low.unsigned_abs() < 1 << 126 {
        Some(w.low)
    } else {
        None
    }
}

/// The sum of the literals, where all are literals and it is below 2^126 in absolute value. What is added up on the way may be
/// larger.
pub fn sum_of(items: &[Term]) -> Option<i128>
    ensures { result ≡ small (option_map total (numbers_of items.now)) }
{
    let mut sum = Wide { high: 0, low: 0 };
    'items: for item in items {
        match literal_in(item) {
            Some(z) => sum = plus(sum, z),
            None => return None,
        }
    }
    small_number(sum)
}
