ghost use Rattle.std.specs.Prelude.{◌≡◌};
ghost use Rattle.floyd_elab_names.specs.Types.{promote as promoted_lem, rank as rank_lem, usual as usual_lem};

use floyd_int::IntKind;

/// The kind of both operands of arithmetic and comparison: the later of the two promoted kinds, in the order of int,
/// unsigned, long and unsigned long.
pub fn usual(a: IntKind, b: IntKind) -> IntKind
    ensures { result ≡ usual_lem a b }
{
    let (a, b) = (promote(a), promote(b));
    if rank(a) <= rank(b) { b } else { a }
}

/// Kinds below int become int.
pub fn promote(kind: IntKind) -> IntKind
    ensures { result ≡ promoted_lem kind }
{
    match kind {
        IntKind::I8 | IntKind::U8 | IntKind::I16 | IntKind::U16 | IntKind::I32 => IntKind::I32,
        IntKind::U32 => IntKind::U32,
        IntKind::I64 => IntKind::I64,
        IntKind::U64 => IntKind::U64,
    }
}

fn rank(kind: IntKind) -> u8
    ensures { result ≡ rank_lem kind }
{
    match kind {
        IntKind::I8 | IntKind::U8 | IntKind::I16 | IntKind::U16 | IntKind::I32 => 0,
        IntKind::U32 => 1,
        IntKind::I64 => 2,
        IntKind::U64 => 3,
    }
}
