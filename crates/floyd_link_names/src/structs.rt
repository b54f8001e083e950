//! The earliest struct that two sources define with different fields.
ghost use Rattle.std.specs.Prelude.{◌≡◌, [], None, IfOk, OnOk, ◌&&◌, bytes_eq};
ghost use Rattle.floyd_elab_names.specs.Types.{same_type as same_type_lem};
ghost use Rattle.floyd_link_names.specs.StructsDiffer as specs;
ghost use Rattle.floyd_link_names.specs.StructClauses as clauses;
ghost use Rattle.floyd_link_names.specs.Duplicates.{first_from};

use crate::refusals::sooner;
use floyd_assert_trees::Table;
use floyd_clight::{ClightUnit, StructDef};
use floyd_ctypes::{Field, FieldList};
use floyd_elab_names::same_type;
use floyd_specread_sources::put_new;
use floyd_text::{Code, Refusal, Shown};
use sqlite_items::Items;
use std::alloc::{AllocError, Global};

fn same_field(a: &Field, b: &Field) -> bool
    ensures { result ≡ (bytes_eq a.now.name b.now.name && same_type_lem a.now.ty b.now.ty) }
{
    a.name == b.name && same_type(&a.ty, &b.ty)
}

/// Whether the fields are the same, in the same order.
fn same_fields(a: &[Field], b: &[Field]) -> bool
    ensures { result ≡ specs.same_fields a.now b.now }
{
    let mut left = a;
    let mut right = b;
    'fields: while let Some((field, more)) = left.split_first() {
        match right.split_first() {
            None => return false,
            Some((other, others)) => {
                if !same_field(field, other) {
                    return false;
                }
                left = more;
                right = others;
            }
        }
    }
    right.is_empty()
}

fn share_field(alloc: Global, field: &Field) -> Result<Field, AllocError>
    ensures { IfOk result (λ f. f ≡ field.now) }
{
    let name = field.name.share()?;
    let ty = field.ty.share(alloc)?;
    Ok(Field { name, ty })
}

fn share_fields(alloc: Global, fields: &[Field]) -> Result<FieldList, AllocError>
    ensures { IfOk result (λ all. all ≡ fields.now) }
{
    let mut all = Items::new(alloc);
    'fields: for field in fields {
        all.push(share_field(alloc, field)?)?;
    }
    Ok(all)
}

/// Whether the tag is there with other fields.
fn lies_otherwise(table: &Table<FieldList>, def: &StructDef) -> bool
    ensures { result ≡ clauses.lies_otherwise_by table.now def.now }
{
    match table.get(&def.tag) {
        None => false,
        Some(fields) => !same_fields(def.fields.as_slice(), fields.as_slice()),
    }
}

fn differs_at(def: &StructDef) -> Result<Refusal, AllocError>
    ensures { IfOk result (λ r. r ≡ specs.differs_at def.now) }
{
    let shown = Shown::Name(def.tag.share()?);
    Ok(Refusal::at(Code::StructDiffers, def.place, shown))
}

/// The earliest of one before and those at tags that are there with other fields.
fn of_structs(
    table: &Table<FieldList>,
    defs: &[StructDef],
    first: Option<Refusal>,
) -> Result<Option<Refusal>, AllocError>
    ensures { IfOk result (λ r. r ≡ first_from first (clauses.structs_by table.now defs.now)) }
{
    let mut found = first;
    let mut rest = defs;
    'structs: while let Some((def, more)) = rest.split_first() {
        if lies_otherwise(table, def) {
            found = sooner(found, Some(differs_at(def)?));
        }
        rest = more;
    }
    Ok(found)
}

/// Adds each struct, unless its tag is there.
fn put_structs(
    alloc: Global,
    table: &mut Table<FieldList>,
    defs: &[StructDef],
) -> Result<(), AllocError>
    ensures { OnOk result (table.new ≡ clauses.with_fields defs.now table.old) }
{
    let mut rest = defs;
    'structs: while let Some((def, more)) = rest.split_first() {
        let tag = def.tag.share()?;
        put_new(table, tag, share_fields(alloc, def.fields.as_slice())?)?;
        rest = more;
    }
    Ok(())
}

/// The earliest of all sources, with a table of what those before each define.
fn of_sources(alloc: Global, units: &[ClightUnit]) -> Result<Option<Refusal>, AllocError>
    ensures { IfOk result (λ r. r ≡ clauses.sources_by None [] units.now) }
{
    let mut table = Table::new(alloc);
    let mut found = None;
    let mut rest = units;
    'units: while let Some((unit, more)) = rest.split_first() {
        found = of_structs(&table, unit.structs.as_slice(), found)?;
        put_structs(alloc, &mut table, unit.structs.as_slice())?;
        rest = more;
    }
    Ok(found)
}

/// The refusal, if there is one, at the earliest tag whose definition differs from an earlier source's.
#[tactic(auto, using(crate::proofs::StructLemmas::found_with_tables))]
pub fn struct_differs(alloc: Global, units: &[ClightUnit]) -> Result<Option<Refusal>, AllocError>
    ensures exact { IfOk result (λ r. r ≡ specs.struct_differs units.now) }
{
    of_sources(alloc, units)
}
