//! Laws of values and their bytes. There is nothing to run in them.

ghost use Rattle.floyd_memval.specs.Laws.{ValuesComeBack, EncodingsFillChunks, NumbersAreLittleEndian, NumbersComeBack, UndefinedSpreads, PointersAreFragments, ScalarsFillChunks};

/// A law: a value of a scalar type comes back from the bytes that it is laid down as at the type's chunk.
pub fn values_come_back()
    ensures { ValuesComeBack }
{}

/// Laws: every value has as many bytes as the chunk, and a scalar type is as large as its chunk; the bytes of a
/// number are little-endian and give its lowest bits back; one undefined byte leaves the value undefined; and a pointer
/// comes from its own fragments in order alone.
pub fn bytes_of_chunks()
    ensures sizes { EncodingsFillChunks }
    ensures scalars { ScalarsFillChunks }
    ensures little_endian { NumbersAreLittleEndian }
    ensures numbers { NumbersComeBack }
    ensures undefined { UndefinedSpreads }
    ensures pointers { PointersAreFragments }
{}
