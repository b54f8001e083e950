ghost use Rattle.std.specs.Prelude.{◌≡◌, ◌<◌, ◌^◌, ℕ, List, length, All, IsTrue, IfOk, IfSome, OnOk, if◌then◌else◌, bytes_eq};
ghost use Rattle.std.specs.Option.{option_copied};
ghost use Rattle.indexmap.specs.IndexMap.{get};
ghost use Rattle.floyd_ctypes.specs.Structs.{fields_of as fields_of_lem, field_of as field_of_lem};
ghost use Rattle.floyd_ctypes.specs.Layout.{layout, fields_layout, type_fits, nothing_laid, IsLaidOut};
ghost use Rattle.floyd_ctypes.specs.Stored.{place_from, either};

use crate::field::{Field, FieldList};
use crate::laid::FieldPlace;
use crate::layout::Layout;
use crate::table::StructTable;
use floyd_text::Name;
use indexmap::IndexMap;
use std::alloc::AllocError;

impl StructTable {
    /// The fields of a complete struct, in order.
    pub fn fields_of(&self, tag: &Name) -> Option<&FieldList>
        ensures value { option_copied result ≡ fields_of_lem self.now tag.now }
        ensures laid { IfSome result (λ fields. IsLaidOut self.now tag.now fields.now) }
    {
        let laid = self.laid(tag)?;
        Some(&laid.fields)
    }

    /// The first field of that name in a complete struct.
    pub fn field_of(&self, tag: &Name, name: &Name) -> Option<&Field>
        ensures value { option_copied result ≡ field_of_lem self.now tag.now name.now }
        ensures fits { IfSome result (λ f. IsTrue (type_fits self.now f.now.ty)) }
    {
        let laid = self.laid(tag)?;
        let place = laid.places.get(name)?;
        laid.fields.get(place.index)
    }

    /// How a struct of these fields lies in memory, if the type of each has a size.
    pub(crate) fn layout_of_fields(&self, fields: &[Field]) -> Option<Layout>
        requires few { length fields.now < 2 ^ 31 }
        requires fits { All (λ f. IsTrue (type_fits self.now f.ty)) fields.now }
        ensures value { result ≡ fields_layout (layout self.now) fields.now }
    {
        let mut laid = Layout::of_nothing();
        'fields: for field in fields {
            let next = self.layout_of(&field.ty)?;
            laid = laid.with_next(next);
        }
        Some(laid.with_padding())
    }

    /// The index and the offset of the first field of each name, up to the first field whose type has no size.
    pub(crate) fn places_of_fields(
        &self,
        fields: &[Field],
    ) -> Result<IndexMap<Name, FieldPlace>, AllocError>
        requires few { length fields.now < 2 ^ 31 }
        requires fits { All (λ f. IsTrue (type_fits self.now f.ty)) fields.now }
        ensures { IfOk result (λ places. (name : List ℕ) → get bytes_eq places name ≡ place_from (layout self.now) 0 nothing_laid fields.now name) }
    {
        let mut places = IndexMap::new(self.alloc());
        let mut laid = Layout::of_nothing();
        'fields: for (index, field) in fields.iter().enumerate() {
            let Some(next) = self.layout_of(&field.ty) else {
                return Ok(places);
            };
            let offset = laid.offset_of_next(next);
            note(&mut places, &field.name, FieldPlace { index, offset })?;
            laid = laid.with_next(next);
        }
        Ok(places)
    }
}

/// Notes the place of a field, unless there is one of that name.
fn note(
    places: &mut IndexMap<Name, FieldPlace>,
    name: &Name,
    place: FieldPlace,
) -> Result<(), AllocError>
    ensures { OnOk result ((q : List ℕ) → get bytes_eq places.new q ≡ either (get bytes_eq places.old q) (if bytes_eq q name.now then Some place else None)) }
{
    if !places.contains_key(name) {
        places.insert(name.share()?, place)?;
    }
    Ok(())
}
