ghost use Rattle.std.specs.Prelude.{◌≡◌, ◌<◌, ◌^◌, [], length, All, IsTrue, IfSome, IfNone, IfOk, None, Some, OnOk, OnErr, ℕ, List, slice_get, bytes_eq};
ghost use Rattle.std.specs.List.{IsDistinct};
ghost use Rattle.std.specs.Option.{option_copied};
ghost use Rattle.indexmap.specs.IndexMap.{insert_entry};
ghost use Rattle.floyd_ctypes.specs.Stored.{PutsEntry};
ghost use Rattle.floyd_ctypes.specs.Structs.{tags, has_tag, is_complete as is_complete_lem, fields_of};
ghost use Rattle.floyd_ctypes.specs.Layout.{layout, fields_layout, type_fits, IsLaidOut};
ghost use Rattle.floyd_ctypes.specs.declared.field.Field.{Field};
ghost use Rattle.floyd_ctypes.specs.Define.{declared, completed, refusal, Answers};

use crate::define::DefineStop;
use crate::field::{Field, FieldList};
use crate::laid::Laid;
use crate::layout::Layout;
use floyd_text::{Name, Shared};
use indexmap::IndexMap;
use std::alloc::{AllocError, Global};
use std::marker::Model;

/// The structs of a program by tag, in the order in which their tags were first seen.
pub struct StructTable {
    structs: IndexMap<Name, Option<Shared<Laid>>>,
    alloc: Global,
}

impl Drop for StructTable {
    fn drop(self) {
        let StructTable { structs, alloc } = self;
        drop(structs);
        drop(alloc);
    }
}

impl Model for StructTable {
    ghost use Rattle.floyd_ctypes.specs.Stored.{seen, IsTable};
    ghost use Rattle.floyd_ctypes.specs.Structs.{Structs};
    ghost use Rattle.std.specs.Coded.{codes};
    ghost use Rattle.floyd_ctypes.specs.contracts.ctype.CType as ctype;

    ghost Value = { Structs };

    ghost coded = { Prim.hlevel (codes, ctype.the_row.coded) };

    ghost view = { λ t. seen t.structs.entries };

    ghost invariant = { λ t. IsTable t.structs.entries };
}

impl StructTable {
    ghost use Rattle.floyd_ctypes.specs.Stored.{IsLaid};

    pub fn new(alloc: Global) -> StructTable
        ensures { result ≡ [] }
    {
        StructTable {
            structs: IndexMap::new(alloc),
            alloc,
        }
    }

    /// The same table. What is kept of each struct is shared and not copied.
    pub fn share(&self) -> Result<StructTable, AllocError>
        ensures { IfOk result (λ t. t ≡ self.now) }
    {
        Ok(StructTable {
            structs: copied(self.alloc, &self.structs)?,
            alloc: self.alloc,
        })
    }

    /// Does nothing: its clause says what is known of all structs of a table at once.
    pub fn laws(&self)
        ensures { (tag : List ℕ) (fields : List Field) → fields_of self.now tag ≡ Some fields → IsLaidOut self.now tag fields }
    {
        let _structs = &self.structs;
    }

    /// The number of tags.
    pub fn len(&self) -> usize
        ensures value { result ≡ length self.now }
        ensures unique { IsDistinct bytes_eq (tags self.now) }
    {
        self.structs.len()
    }

    /// The tag at that index, in the order in which they were declared.
    pub fn tag_at(&self, index: usize) -> Option<&Name>
        ensures { option_copied result ≡ slice_get (tags self.now) index }
    {
        let (tag, _kept) = self.structs.get_index(index)?;
        Some(tag)
    }

    /// Whether the tag was declared.
    pub fn contains(&self, tag: &Name) -> bool
        ensures { result ≡ has_tag self.now tag.now }
    {
        self.structs.contains_key(tag)
    }

    pub(crate) fn alloc(&self) -> Global {
        self.alloc
    }

    /// What is kept of a complete struct.
    pub(crate) fn laid(&self, tag: &Name) -> Option<&Laid>
        ensures some { IfSome result (λ laid. IsLaid self.now tag.now laid.now) }
        ensures none { IfNone result (fields_of self.now tag.now ≡ None) }
    {
        let kept = self.structs.get(tag)?;
        lent(kept)
    }

    /// Whether the struct of that tag is complete.
    pub fn is_complete(&self, tag: &Name) -> bool
        ensures { result ≡ is_complete_lem self.now tag.now }
    {
        self.laid(tag).is_some()
    }

    /// Adds the tag as that of an incomplete struct, or changes nothing where it is there.
    pub fn declare(&mut self, tag: &Name) -> Result<(), AllocError>
        ensures ok { OnOk result (self.new ≡ declared self.old tag.now) }
        ensures err { OnErr result (self.new ≡ self.old) }
    {
        if !self.contains(tag) {
            put(self.alloc, &mut self.structs, tag, None)?;
        }
        Ok(())
    }

    /// How the struct lies in memory once it has these fields, or why it cannot get them.
    #[tactic(auto, using(crate::proofs::Refusals::laid_unrefused, crate::proofs::Refusals::unlaid_refused))]
    fn layout_to_be(&self, tag: &Name, fields: &[Field]) -> Result<Layout, DefineStop>
        requires few { length fields.now < 2 ^ 31 }
        requires fits { All (λ f. IsTrue (type_fits self.now f.ty)) fields.now }
        ensures answer { Answers result (refusal self.now tag.now fields.now) }
        ensures value { IfOk result (λ l. fields_layout (layout self.now) fields.now ≡ Some l) }
    {
        if self.is_complete(tag) {
            return Err(DefineStop::Again);
        }
        match self.layout_of_fields(fields) {
            Some(layout) => Ok(layout),
            None => Err(DefineStop::Incomplete),
        }
    }

    /// Gives the struct its fields. After a refusal the table is as before.
    pub fn complete(&mut self, tag: &Name, fields: FieldList) -> Result<(), DefineStop>
        requires there { IsTrue (has_tag self.old tag.now) }
        requires some { 0 < length fields }
        requires few { length fields < 2 ^ 31 }
        requires fits { All (λ f. IsTrue (type_fits self.old f.ty)) fields }
        ensures ok { OnOk result (self.new ≡ completed self.old tag.now fields) }
        ensures err { OnErr result (self.new ≡ self.old) }
        ensures answer { Answers result (refusal self.old tag.now fields) }
    {
        let layout = self.layout_to_be(tag, fields.as_slice())?;
        let places = self.places_of_fields(fields.as_slice())?;
        let laid = Laid {
            fields,
            layout,
            places,
        };
        put(self.alloc, &mut self.structs, tag, Some(laid))?;
        Ok(())
    }
}

/// Keeps this for the tag, which goes last if it is new.
fn put(
    alloc: Global,
    structs: &mut IndexMap<Name, Option<Shared<Laid>>>,
    tag: &Name,
    kept: Option<Laid>,
) -> Result<(), AllocError>
    ensures ok { OnOk result (structs.new.entries ≡ insert_entry bytes_eq structs.old.entries tag.now kept) }
    ensures updates { OnOk result (PutsEntry structs.old.entries tag.now kept structs.new.entries) }
    ensures err { OnErr result (structs.new.entries ≡ structs.old.entries) }
{
    match kept {
        Some(laid) => put_shared(structs, tag, Some(Shared::new(alloc, laid)?)),
        None => put_shared(structs, tag, None),
    }
}

/// The same of what is shared.
fn put_shared(
    structs: &mut IndexMap<Name, Option<Shared<Laid>>>,
    tag: &Name,
    kept: Option<Shared<Laid>>,
) -> Result<(), AllocError>
    ensures ok { OnOk result (structs.new.entries ≡ insert_entry bytes_eq structs.old.entries tag.now kept) }
    ensures updates { OnOk result (PutsEntry structs.old.entries tag.now kept structs.new.entries) }
    ensures err { OnErr result (structs.new.entries ≡ structs.old.entries) }
{
    let _before = structs.insert(tag.share()?, kept)?;
    Ok(())
}

/// The same structs.
fn copied(
    alloc: Global,
    structs: &IndexMap<Name, Option<Shared<Laid>>>,
) -> Result<IndexMap<Name, Option<Shared<Laid>>>, AllocError>
    ensures { IfOk result (λ copy. copy.entries ≡ structs.now.entries) }
{
    let mut copy = IndexMap::new(alloc);
    'structs: for (tag, kept) in structs.iter() {
        put_shared(&mut copy, tag, shared(kept)?)?;
    }
    Ok(copy)
}

fn lent(kept: &Option<Shared<Laid>>) -> Option<&Laid>
    ensures { option_copied result ≡ kept.now }
{
    match kept {
        Some(laid) => Some(laid.get()),
        None => None,
    }
}

fn shared(kept: &Option<Shared<Laid>>) -> Result<Option<Shared<Laid>>, AllocError>
    ensures { IfOk result (λ k. k ≡ kept.now) }
{
    match kept {
        Some(laid) => Ok(Some(laid.share()?)),
        None => Ok(None),
    }
}
