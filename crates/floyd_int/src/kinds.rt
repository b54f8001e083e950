/// A kind of integer of C: its width in bits, and whether it is signed.
#[derive(Clone, Copy, PartialEq, Eq, Debug)]
pub enum IntKind {
    I8,
    U8,
    I16,
    U16,
    I32,
    U32,
    I64,
    U64,
}

impl IntKind {
    ghost use Rattle.std.specs.Prelude.{◌≡◌, IsTrue, ◌↔◌};
    ghost use Rattle.floyd_int.specs.Kind.{width, is_signed, least, greatest, InRange};

    /// How many bits an integer of this kind has.
    pub fn width(self) -> u32
        ensures { result ≡ width self }
    {
        match self {
            IntKind::I8 | IntKind::U8 => 8,
            IntKind::I16 | IntKind::U16 => 16,
            IntKind::I32 | IntKind::U32 => 32,
            IntKind::I64 | IntKind::U64 => 64,
        }
    }

    /// Signed kinds are read in two's complement.
    pub fn is_signed(self) -> bool
        ensures { result ≡ is_signed self }
    {
        match self {
            IntKind::I8 | IntKind::I16 | IntKind::I32 | IntKind::I64 => true,
            IntKind::U8 | IntKind::U16 | IntKind::U32 | IntKind::U64 => false,
        }
    }

    /// The least value of this kind.
    pub fn least(self) -> i128
        ensures { result ≡ least self }
    {
        match self {
            IntKind::I8 => i8::MIN as i128,
            IntKind::I16 => i16::MIN as i128,
            IntKind::I32 => i32::MIN as i128,
            IntKind::I64 => i64::MIN as i128,
            IntKind::U8 | IntKind::U16 | IntKind::U32 | IntKind::U64 => 0,
        }
    }

    /// The greatest value of this kind.
    pub fn greatest(self) -> i128
        ensures { result ≡ greatest self }
    {
        match self {
            IntKind::I8 => i8::MAX as i128,
            IntKind::U8 => u8::MAX as i128,
            IntKind::I16 => i16::MAX as i128,
            IntKind::U16 => u16::MAX as i128,
            IntKind::I32 => i32::MAX as i128,
            IntKind::U32 => u32::MAX as i128,
            IntKind::I64 => i64::MAX as i128,
            IntKind::U64 => u64::MAX as i128,
        }
    }

    /// Whether `z` is a value of this kind.
    pub fn contains(self, z: i128) -> bool
        ensures { IsTrue result ↔ InRange self z }
    {
        self.least() <= z && z <= self.greatest()
    }
}

/// A value of Clight: undefined, 32 or 64 bits, or a pointer as a block and an offset in bytes.
#[derive(Clone, Copy, PartialEq, Eq, Debug)]
pub enum Value {
    Vundef,
    Vint(u32),
    Vlong(u64),
    Vptr(u32, u64),
}

/// A binary operator on integers of one kind.
#[derive(Clone, Copy, PartialEq, Eq, Debug)]
pub enum IntOp {
    Add,
    Sub,
    Mul,
    Div,
    Rem,
    And,
    Or,
    Xor,
    Shl,
    Shr,
    Eq,
    Ne,
    Lt,
    Le,
    Gt,
    Ge,
}
