ghost use Rattle.std.specs.Prelude.{◌≡◌, ◌<◌, ◌^◌};
ghost use Rattle.floyd_tree_sorts.specs.Prints.{blend, bytes_print, name_print, slot};

use floyd_text::Name;

/// A fingerprint with one more part.
#[tactic(auto, unfolding(crate::specs::Prints::blend))]
pub fn blend(print: u64, part: u64) -> u64
    ensures { result ≡ blend print part }
{
    let mixed = (print ^ part).wrapping_mul(0x9E37_79B9_7F4A_7C15);
    mixed ^ (mixed >> 32)
}

/// The fingerprint of a name.
pub fn name_print(name: &Name) -> u64
    ensures { result ≡ name_print name.now }
{
    let mut print = 14_695_981_039_346_656_037;
    for byte in name.as_slice() {
        print = blend(print, u64::from(*byte));
    }
    print
}

/// The bit that stands for a variable in a summary.
pub fn slot(name: &Name) -> u32
    ensures slot { result ≡ slot name.now }
    ensures bound { result < 64 }
{
    (name_print(name) >> 58) as u32
}
