use floyd_int::IntKind;
use floyd_text::Name;
use sqlite_items::Items;

/// The contents of a variable, or of a part of it, at the start.
pub enum Initial {
    /// Nothing is written: zeros, and pointers that are null.
    Absent,
    /// The integer of the kind with these bits.
    Int(IntKind, u64),
    Null,
    /// The address of a variable or a function.
    Address(Name),
    /// The address of an element of an array, so many bytes behind its start.
    Element(Name, u128),
    /// Of an array its elements, of a struct its fields in order. The last ones may be left out, and then nothing is
    /// written of them.
    Parts(InitialList),
}

impl Drop for Initial {
    fn drop(self) {
        match self {
            Initial::Absent => {}
            Initial::Int(_, _) => {}
            Initial::Null => {}
            Initial::Address(name) => drop(name),
            Initial::Element(name, _) => drop(name),
            Initial::Parts(initials) => drop(initials),
        }
    }
}

/// Contents in order.
pub type InitialList = Items<Initial>;
