ghost use Rattle.floyd_part_laws.specs.Laws as laws;

/// What a part at a path of an object says of memory, it says as an object at its own address.
pub fn parts_at_their_addresses()
    ensures { laws.PartsAreRerooted }
{}

/// A part holds with the default value of its type too.
pub fn parts_with_defaults()
    ensures { laws.PartsHaveDefaults }
{}

/// The address of a part that has a byte is valid.
pub fn parts_are_valid()
    ensures { laws.PartsAreValid }
{}
