//! The fields of a struct so far, or the parameters of a function.
ghost use Rattle.std.specs.Prelude.{◌≡◌, ◌++◌, ◌∷◌, [], ℕ, List, IfOk};
ghost use Rattle.floyd_elab_names.specs.Scopes.{is_among};
ghost use Rattle.floyd_elab_names.specs.Declarators.{field_names, field_types};

use floyd_ctypes::{Field, FieldList, TypeList};
use floyd_text::Name;
use indexmap::IndexSet;
use sqlite_items::Items;
use std::alloc::{AllocError, Global};
use std::marker::Model;

/// Fields in order, whose names are found at once.
pub(crate) struct Fields {
    items: FieldList,
    names: IndexSet<Name>,
}

impl Drop for Fields {
    fn drop(self) {
        let Fields { items, names } = self;
        drop(items);
        drop(names);
    }
}

impl Model for Fields {
    ghost use Rattle.std.specs.Prelude.{◌≡◌, ℕ, List};
    ghost use Rattle.floyd_ctypes.specs.declared.field.Field.{Field};
    ghost use Rattle.floyd_ctypes.specs.contracts.field.Field as field;
    ghost use Rattle.std.specs.Coded.{codes};

    ghost Value = { List Field };

    ghost coded = { Prim.hlevel (codes, field.the_row.coded) };

    ghost use Rattle.floyd_elab_names.specs.Scopes.{is_among};
    ghost use Rattle.floyd_elab_names.specs.Declarators.{field_names};

    ghost view = { λ f. f.items };

    ghost invariant = { λ f. (q : List ℕ) → is_among q f.names.keys ≡ is_among q (field_names f.items) };
}

impl Fields {
    pub(crate) fn new(alloc: Global) -> Fields
        ensures { result ≡ [] }
    {
        Fields {
            items: Items::new(alloc),
            names: IndexSet::new(alloc),
        }
    }

    /// Whether one of them has the name.
    pub(crate) fn has(&self, name: &Name) -> bool
        ensures { result ≡ is_among name.now (field_names self.now) }
    {
        self.names.contains(name)
    }

    /// With one more at the end.
    pub(crate) fn with(self, field: Field) -> Result<Fields, AllocError>
        ensures { IfOk result (λ f. f ≡ self ++ field ∷ []) }
    {
        let Fields {
            mut items,
            mut names,
        } = self;
        names.insert(field.name.share()?)?;
        items.push(field)?;
        Ok(Fields { items, names })
    }

    pub(crate) fn into_items(self) -> FieldList
        ensures { result ≡ self }
    {
        let Fields { items, names } = self;
        drop(names);
        items
    }

    /// Their types.
    pub(crate) fn types(&self, alloc: Global) -> Result<TypeList, AllocError>
        ensures { IfOk result (λ ts. ts ≡ field_types self.now) }
    {
        let mut types = Items::new(alloc);
        'fields: for field in self.items.as_slice() {
            types.push(field.ty.share(alloc)?)?;
        }
        Ok(types)
    }
}
