ghost use Rattle.std.specs.Prelude.{◌≡◌, ◌+◌, ◌-◌, ◌^◌, ◌≤◌, ◌<◌};
ghost use Rattle.floyd_ctypes.specs.Layout.{natural as natural_lem, nothing_laid, after, offset_after, padded, round_up as round_up_lem};

/// How a type lies in memory: its size and its alignment, both in bytes.
#[derive(Clone, Copy, PartialEq, Eq, Debug)]
pub struct Layout {
    pub size: u64,
    pub align: u64,
}

impl Layout {
    /// Of so many bytes, aligned to their number.
    pub(crate) fn natural(bytes: u64) -> Layout
        ensures { result ≡ natural_lem bytes }
    {
        Layout {
            size: bytes,
            align: bytes,
        }
    }

    /// What no fields take.
    pub(crate) fn of_nothing() -> Layout
        ensures { result ≡ nothing_laid }
    {
        Layout { size: 0, align: 1 }
    }

    /// Where a field of that layout begins after what is laid.
    pub(crate) fn offset_of_next(self, next: Layout) -> u64
        requires some { 1 ≤ next.align }
        requires few { next.align ≤ 8 }
        requires room { self.size + 8 ≤ 2 ^ 64 }
        ensures value { result ≡ offset_after self next }
        ensures near { result ≤ self.size + 7 }
    {
        round_up(self.size, next.align)
    }

    /// What is laid, with a field of that layout after it.
    pub(crate) fn with_next(self, next: Layout) -> Layout
        requires some { 1 ≤ next.align }
        requires few { next.align ≤ 8 }
        requires room { self.size + 8 + next.size ≤ 2 ^ 64 }
        ensures value { result ≡ after self next }
        ensures near { result.size ≤ self.size + 7 + next.size }
    {
        Layout {
            size: self.offset_of_next(next) + next.size,
            align: self.align.max(next.align),
        }
    }

    /// What is laid, with the padding at its end.
    pub(crate) fn with_padding(self) -> Layout
        requires some { 1 ≤ self.align }
        requires few { self.align ≤ 8 }
        requires room { self.size + 8 ≤ 2 ^ 64 }
        ensures { result ≡ padded self }
    {
        Layout {
            size: round_up(self.size, self.align),
            align: self.align,
        }
    }
}

/// The first multiple of the alignment that is not below `n`.
fn round_up(n: u64, align: u64) -> u64
    requires some { 1 ≤ align }
    requires room { n + align ≤ 2 ^ 64 }
    ensures value { result ≡ round_up_lem n align }
    ensures near { result ≤ n + (align - 1) }
{
    (n + (align - 1)) / align * align
}
