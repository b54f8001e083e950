ghost use Rattle.std.specs.Prelude.{◌≡◌};
ghost use Rattle.floyd_ctypes.specs.Has.{has as has_lem, has_kind as has_kind_lem, has_pointer as has_pointer_lem, signed_within as signed_within_lem};

use crate::ctype::CType;
use floyd_int::{IntKind, Value};

/// Whether a variable of the type may hold the value (Verifiable C's `tc_val`). Of void this asks for the undefined
/// value, which a function without a result gives.
pub fn has(t: &CType, v: &Value) -> bool
    ensures { result ≡ has_lem t.now v.now }
{
    match t {
        CType::Void => matches!(v, Value::Vundef),
        CType::Int(kind) => has_kind(*kind, *v),
        CType::Pointer(_) => has_pointer(*v),
        CType::Array(_, _) | CType::Struct(_) | CType::Function(_, _) => false,
    }
}

fn has_kind(kind: IntKind, v: Value) -> bool
    ensures { result ≡ has_kind_lem kind v }
{
    match v {
        Value::Vint(bits) => match kind {
            IntKind::I8 => signed_within(1 << 7, bits),
            IntKind::U8 => bits < 1 << 8,
            IntKind::I16 => signed_within(1 << 15, bits),
            IntKind::U16 => bits < 1 << 16,
            IntKind::I32 | IntKind::U32 => true,
            IntKind::I64 | IntKind::U64 => false,
        },
        Value::Vlong(_) => matches!(kind, IntKind::I64 | IntKind::U64),
        Value::Vundef | Value::Vptr(_, _) => false,
    }
}

/// Whether the bits, read with a sign, lie between `-m` and `m - 1`.
fn signed_within(m: u32, bits: u32) -> bool
    ensures { result ≡ signed_within_lem m bits }
{
    bits < m || bits > u32::MAX - m
}

fn has_pointer(v: Value) -> bool
    ensures { result ≡ has_pointer_lem v }
{
    match v {
        Value::Vptr(_, _) => true,
        Value::Vlong(bits) => bits == 0,
        Value::Vundef | Value::Vint(_) => false,
    }
}
