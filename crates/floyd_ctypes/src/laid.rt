use crate::field::FieldList;
use crate::layout::Layout;
use floyd_text::Name;
use indexmap::IndexMap;

/// A field's index among the fields of its struct, and its offset.
#[derive(Clone, Copy, Debug)]
pub(crate) struct FieldPlace {
    pub(crate) index: usize,
    pub(crate) offset: u64,
}

/// A complete struct: its fields, how it lies in memory, and the place of the first field of each name.
pub(crate) struct Laid {
    pub(crate) fields: FieldList,
    pub(crate) layout: Layout,
    pub(crate) places: IndexMap<Name, FieldPlace>,
}

impl Drop for Laid {
    fn drop(self) {
        let Laid {
            fields,
            layout,
            places,
        } = self;
        drop(fields);
        drop(layout);
        drop(places);
    }
}
