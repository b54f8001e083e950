ghost use Rattle.floyd_clight_heap.specs.Laws as laws;

/// Sums of heaplets are commutative and associative where they are defined, the empty heaplet is their unit, and two
/// heaplets have one sum at most.
pub fn sums_of_heaplets()
    ensures commutes { laws.Commutes }
    ensures associates { laws.Associates }
    ensures associates_back { laws.AssociatesBack }
    ensures unit { laws.HasUnit }
    ensures one { laws.SumsAreOne }
{}

/// A part of a heaplet that fits a memory fits it, and what the part has or owns, the whole has or owns.
pub fn parts_of_heaplets()
    ensures fit { laws.PartsFit }
    ensures within { laws.PartsAreWithin }
    ensures owned { laws.PartsAreOwned }
{}

/// The operations of memory beside a frame. Bytes that a heaplet has are read and loaded; bytes are stored where it owns the
/// places; all bytes of a new block can be added to what fitted; a block is freed where a heaplet owns all its bytes; and
/// places that a heaplet has are valid.
pub fn memory_beside_frames()
    ensures read { laws.BytesAreRead }
    ensures shown { laws.BytesAreShown }
    ensures loaded { laws.BytesAreLoaded }
    ensures stored { laws.OwnersStore }
    ensures allocated { laws.NewBlocksAreApart }
    ensures freed { laws.OwnersFree }
    ensures valid { laws.PlacesAreValid }
{}
