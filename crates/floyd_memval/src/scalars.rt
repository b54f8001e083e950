ghost use Rattle.std.specs.Prelude.{◌≡◌};
ghost use Rattle.floyd_memval.specs.Chunks.{chunk_of as chunk_of_lem, kind_chunk as kind_chunk_lem};

use crate::bytes::Chunk;
use floyd_ctypes::CType;
use floyd_int::IntKind;

/// The chunk at which values of a scalar type are laid down. Other types have none: a variable of an array or a struct
/// is no value, and void has no variables.
pub fn chunk_of(t: &CType) -> Option<Chunk>
    ensures { result ≡ chunk_of_lem t.now }
{
    match t {
        CType::Int(kind) => Some(kind_chunk(*kind)),
        CType::Pointer(_) => Some(Chunk::Ptr),
        CType::Void | CType::Array(_, _) | CType::Struct(_) | CType::Function(_, _) => None,
    }
}

fn kind_chunk(kind: IntKind) -> Chunk
    ensures { result ≡ kind_chunk_lem kind }
{
    match kind {
        IntKind::I8 => Chunk::I8,
        IntKind::U8 => Chunk::U8,
        IntKind::I16 => Chunk::I16,
        IntKind::U16 => Chunk::U16,
        IntKind::I32 | IntKind::U32 => Chunk::I32,
        IntKind::I64 | IntKind::U64 => Chunk::I64,
    }
}
