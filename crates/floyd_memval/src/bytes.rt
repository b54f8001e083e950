use floyd_int::Value;

/// A byte of memory: undefined, a number, or a part of a value that is no number.
///
/// The eight fragments of a pointer are numbered from 7 at the lowest place down to 0, as CompCert does.
#[derive(Clone, Copy, PartialEq, Eq, Debug)]
pub enum MemByte {
    Undef,
    Byte(u8),
    Fragment(Value, u8),
}

/// How a value is laid down in memory: the size of its bytes, and how they are read back.
#[derive(Clone, Copy, PartialEq, Eq, Debug)]
pub enum Chunk {
    I8,
    U8,
    I16,
    U16,
    I32,
    I64,
    Ptr,
}

impl Chunk {
    ghost use Rattle.std.specs.Prelude.{◌≡◌};
    ghost use Rattle.floyd_memval.specs.Chunks.{chunk_size, is_narrow};

    /// How many bytes the chunk has, which is also its alignment.
    pub fn size(self) -> usize
        ensures { result ≡ chunk_size self }
    {
        match self {
            Chunk::I8 | Chunk::U8 => 1,
            Chunk::I16 | Chunk::U16 => 2,
            Chunk::I32 => 4,
            Chunk::I64 | Chunk::Ptr => 8,
        }
    }

    /// Whether a number at this chunk is a `Vint`, and not a `Vlong`.
    pub fn is_narrow(self) -> bool
        ensures { result ≡ is_narrow self }
    {
        match self {
            Chunk::I8 | Chunk::U8 | Chunk::I16 | Chunk::U16 | Chunk::I32 => true,
            Chunk::I64 | Chunk::Ptr => false,
        }
    }
}
