ghost use Rattle.floyd_assert_cells.specs.Laws as laws;
ghost use Rattle.floyd_assert_cells.specs.Examples as examples;

/// Scalars, sizes and alignments are those of the types of C. Where an object may stand, each scalar in it is aligned.
pub fn layouts_of_objects()
    ensures scalars { laws.ScalarsAgree }
    ensures sizes { laws.LayoutsAgree }
    ensures aligned { laws.PathsAreAligned }
{}

/// The value of a scalar is loaded where it is not undefined, a value that the type holds is stored beside a frame, and
/// what a part of memory says of a scalar is undefined or a value that the type holds.
pub fn scalars_in_memory()
    ensures loaded { laws.ScalarsAreLoaded }
    ensures stored { laws.ScalarsAreStored }
    ensures held { laws.ScalarsAreHeld }
{}

/// A part of memory has exactly the bytes of its type, and may be seen with the default value.
pub fn whole_objects()
    ensures exact { laws.CellsAreExact }
    ensures defaults { laws.CellsHaveDefaults }
{}

/// An array has a list of as many items as its size says. It may be cut before an item, and a struct may be taken apart
/// into its fields and its padding; both may be put together again.
pub fn arrays_and_structs()
    ensures items { laws.ArraysHaveItems }
    ensures cut { laws.ArraysAreCut }
    ensures uncut { laws.ArraysAreJoined }
    ensures split { laws.StructsAreSplit }
    ensures joined { laws.StructsAreJoined }
{}

/// The share of an object, and of padding, may be split into two, and two shares of it may be joined.
pub fn objects_in_shares()
    ensures split { laws.SharesAreSplit }
    ensures joined { laws.SharesAreJoined }
    ensures padding_split { laws.PaddingIsSplit }
    ensures padding_joined { laws.PaddingIsJoined }
{}

/// What stands at a legal path of an object may be taken out, and something else be put there.
pub fn objects_at_paths()
    ensures { laws.PathsAreFocused }
{}

/// Worked examples: a struct with padding in a memory, and a store into it.
pub fn worked_examples()
    ensures layouts { examples.Layouts }
    ensures paths { examples.Paths }
    ensures fitting { examples.Fitting }
    ensures stores { examples.Stores }
    ensures heaps { examples.Heaps }
{}
