ghost use Rattle.std.specs.Prelude.{◌≡◌, pos, negsuc, Some};
ghost use Rattle.floyd_fieldpath.specs.Sums.{small};
ghost use Rattle.floyd_folding.specs.BitClauses.{whole};
ghost use Rattle.floyd_tree_values.specs.Numbers.{band as band_lem, bnot as bnot_lem, bor as bor_lem, bxor as bxor_lem};

/// The bits of a whole number in two's complement without end.
#[derive(Clone, Copy)]
enum Bits {
    /// Those of a natural number.
    Plain(u128),
    /// Those of a natural number, each one turned over: the number is negative.
    Turned(u128),
}

fn bits_of(z: i128) -> Bits
    ensures { whole result ≡ z }
{
    if z < 0 {
        Bits::Turned((-(z + 1)) as u128)
    } else {
        Bits::Plain(z as u128)
    }
}

/// The natural number, where it is small.
fn natural(n: u128) -> Option<i128>
    ensures { result ≡ small (Some (pos n)) }
{
    if n < 1 << 126 { Some(n as i128) } else { None }
}

/// The number whose bits are those of the natural number turned over, where it is small.
fn turned(n: u128) -> Option<i128>
    ensures { result ≡ small (Some (negsuc n)) }
{
    if n < (1 << 126) - 1 {
        Some(-(n as i128) - 1)
    } else {
        None
    }
}

pub(crate) fn bnot(x: i128) -> Option<i128>
    ensures { result ≡ small (Some (bnot_lem x)) }
{
    match bits_of(x) {
        Bits::Plain(m) => turned(m),
        Bits::Turned(m) => natural(m),
    }
}

pub(crate) fn band(x: i128, y: i128) -> Option<i128>
    ensures { result ≡ small (Some (band_lem x y)) }
{
    match (bits_of(x), bits_of(y)) {
        (Bits::Plain(m), Bits::Plain(n)) => natural(m & n),
        (Bits::Plain(m), Bits::Turned(n)) => natural(m ^ (m & n)),
        (Bits::Turned(m), Bits::Plain(n)) => natural(n ^ (n & m)),
        (Bits::Turned(m), Bits::Turned(n)) => turned(m | n),
    }
}

pub(crate) fn bor(x: i128, y: i128) -> Option<i128>
    ensures { result ≡ small (Some (bor_lem x y)) }
{
    match (bits_of(x), bits_of(y)) {
        (Bits::Plain(m), Bits::Plain(n)) => natural(m | n),
        (Bits::Plain(m), Bits::Turned(n)) => turned(n ^ (n & m)),
        (Bits::Turned(m), Bits::Plain(n)) => turned(m ^ (m & n)),
        (Bits::Turned(m), Bits::Turned(n)) => turned(m & n),
    }
}

pub(crate) fn bxor(x: i128, y: i128) -> Option<i128>
    ensures { result ≡ small (Some (bxor_lem x y)) }
{
    match (bits_of(x), bits_of(y)) {
        (Bits::Plain(m), Bits::Plain(n)) => natural(m ^ n),
        (Bits::Plain(m), Bits::Turned(n)) => turned(m ^ n),
        (Bits::Turned(m), Bits::Plain(n)) => turned(m ^ n),
        (Bits::Turned(m), Bits::Turned(n)) => natural(m ^ n),
    }
}
