ghost use Rattle.floyd_compatible_laws.specs.Laws as laws;

/// An object of a type may stand at a place of memory exactly where formulas say that the type and the path fit it.
pub fn compatible_places_agree()
    ensures types { laws.CompatiblePlacesAgree }
    ensures shapes { laws.CompatibleObjectsAgree }
{}

/// Where an object may stand, what is at a path of it may stand at its own address.
pub fn parts_are_objects()
    ensures { laws.PartsAreObjects }
{}
