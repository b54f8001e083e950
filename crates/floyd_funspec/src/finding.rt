ghost use Rattle.std.specs.Prelude.{◌≡◌, ◌<◌, ◌^◌, bytes_eq, length, position};
ghost use Rattle.std.specs.Map.{keys_of};

use floyd_assert::SpecTable;
use floyd_text::Name;

/// The position of the specification of the function of that name, from 0. It does not look at SPEC items.
#[tactic(auto, using(crate::proofs::Places::within_count))]
pub fn find_spec(table: &SpecTable, name: &Name) -> Option<u32>
    requires { length table.now.functions < 2 ^ 32 }
    ensures { result ≡ position (bytes_eq name.now) (keys_of table.now.functions) }
{
    match table.functions.index_of(name) {
        Some(place) => Some(place as u32),
        None => None,
    }
}
