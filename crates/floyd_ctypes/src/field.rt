use crate::ctype::CType;
use floyd_text::Name;
use sqlite_items::Items;

/// A field of a struct.
pub struct Field {
    pub name: Name,
    pub ty: CType,
}

impl Drop for Field {
    fn drop(self) {
        let Field { name, ty } = self;
        drop(name);
        drop(ty);
    }
}

/// The fields of a struct in order.
pub type FieldList = Items<Field>;
