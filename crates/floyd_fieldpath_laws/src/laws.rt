ghost use Rattle.floyd_fieldpath_laws.specs.Senses as senses;
ghost use Rattle.floyd_fieldpath_laws.specs.SortLaws as sorts;

/// A path without a type is refused. Where it has one, under the condition of the calls, a term of the right sort is
/// answered, unless something that is written is beyond the limits.
pub fn paths_and_sorts()
    ensures refused { sorts.UntypedPathsAreRefused }
    ensures types { sorts.TypesHaveSorts }
    ensures addresses { sorts.AddressesAreValues }
    ensures items { sorts.ItemsHaveSorts }
    ensures updates { sorts.UpdatesHaveSorts }
{}

/// The address at a path means the pointer, moved by the offset of the path; where a part of memory stands at the path, it
/// is the place of that part.
pub fn addresses_at_paths()
    ensures moved { senses.AddressesArePlaces }
    ensures parts { senses.AddressesAreOfParts }
{}

/// In a part of memory that holds a value of the type, the item at a legal path means what stands at the path's offset;
/// and where something else is put there, the updated value means what the part then holds.
pub fn items_at_paths()
    ensures { senses.PartsHaveItems }
{}
