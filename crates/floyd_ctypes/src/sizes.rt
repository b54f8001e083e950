ghost use Rattle.std.specs.Prelude.{◌≡◌, ◌≤◌, ◌*◌, nat_le, IsTrue, IfSome};
ghost use Rattle.floyd_ctypes.specs.Layout.{layout, size, align, offset, arrays_fit as arrays_fit_lem, type_fits, kind_size as kind_size_lem};

use crate::ctype::CType;
use crate::layout::Layout;
use crate::table::StructTable;
use floyd_int::IntKind;
use floyd_text::Name;

/// The greatest size of an object in bytes.
pub const MAX_OBJECT: u64 = 4294967295;

impl StructTable {
    /// The size and the alignment of the type. Void, functions and what contains an incomplete struct have none; a tag
    /// that was not declared counts as incomplete.
    pub fn layout_of(&self, t: &CType) -> Option<Layout>
        requires { IsTrue (arrays_fit_lem self.now t.now) }
        ensures value { result ≡ layout self.now t.now }
        ensures align { IfSome result (λ l. (1 ≤ l.align) × (l.align ≤ 8)) }
    {
        match t {
            CType::Void | CType::Function(_, _) => None,
            CType::Int(kind) => Some(Layout::natural(kind_size(*kind))),
            CType::Pointer(_) => Some(Layout::natural(8)),
            CType::Array(element, number) => {
                let element = self.layout_of(element.get())?;
                Some(Layout {
                    size: element.size * *number,
                    align: element.align,
                })
            }
            CType::Struct(tag) => {
                let laid = self.laid(tag)?;
                Some(laid.layout)
            }
        }
    }

    /// The size of the type in bytes, where it has one.
    pub fn size_of(&self, t: &CType) -> Option<u64>
        requires { IsTrue (arrays_fit_lem self.now t.now) }
        ensures { result ≡ size self.now t.now }
    {
        let layout = self.layout_of(t)?;
        Some(layout.size)
    }

    /// The alignment of the type in bytes, where it has one.
    pub fn align_of(&self, t: &CType) -> Option<u64>
        ensures { result ≡ align self.now t.now }
    {
        match t {
            CType::Void | CType::Function(_, _) => None,
            CType::Int(kind) => Some(kind_size(*kind)),
            CType::Pointer(_) => Some(8),
            CType::Array(element, _) => self.align_of(element.get()),
            CType::Struct(tag) => {
                let laid = self.laid(tag)?;
                Some(laid.layout.align)
            }
        }
    }

    /// The offset in bytes of the first field of that name in a complete struct.
    pub fn offset_of(&self, tag: &Name, field: &Name) -> Option<u64>
        ensures { result ≡ offset self.now tag.now field.now }
    {
        let laid = self.laid(tag)?;
        let place = laid.places.get(field)?;
        Some(place.offset)
    }

    /// Whether no array in the type is larger than an object may be. What the type points to does not count.
    pub fn arrays_fit(&self, t: &CType) -> bool
        ensures { result ≡ arrays_fit_lem self.now t.now }
    {
        match t {
            CType::Array(element, number) => {
                if !self.arrays_fit(element.get()) {
                    return false;
                }
                match self.layout_of(element.get()) {
                    Some(layout) => product_fits(layout.size, *number),
                    None => true,
                }
            }
            _ => true,
        }
    }

    /// Whether no array in the type is larger than an object may be, nor is the type itself, where it has a size.
    pub fn fits(&self, t: &CType) -> bool
        ensures { result ≡ type_fits self.now t.now }
    {
        if !self.arrays_fit(t) {
            return false;
        }
        match self.layout_of(t) {
            Some(layout) => layout.size <= MAX_OBJECT,
            None => true,
        }
    }
}

/// Whether so many elements of that size fit into an object.
fn product_fits(size: u64, number: u64) -> bool
    ensures { result ≡ nat_le (size * number) MAX_OBJECT }
{
    match size.checked_mul(number) {
        Some(bytes) => bytes <= MAX_OBJECT,
        None => false,
    }
}

/// The size in bytes of an integer of that kind, which is its alignment too.
fn kind_size(kind: IntKind) -> u64
    ensures value { result ≡ kind_size_lem kind }
    ensures some { 1 ≤ result }
    ensures few { result ≤ 8 }
{
    match kind {
        IntKind::I8 | IntKind::U8 => 1,
        IntKind::I16 | IntKind::U16 => 2,
        IntKind::I32 | IntKind::U32 => 4,
        IntKind::I64 | IntKind::U64 => 8,
    }
}
