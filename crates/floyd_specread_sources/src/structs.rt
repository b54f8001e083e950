//! Structs.
ghost use Rattle.std.specs.Prelude.{◌≡◌, ◌++◌, ◌∷◌, [], IfOk, OnOk, IsTrue};
ghost use Rattle.floyd_ctypes.specs.Structs.{has_tag};
ghost use Rattle.floyd_specread_sources.specs.Sources as specs;

use floyd_clight::StructDef;
use floyd_ctypes::{DefineStop, Field, FieldList, StructTable};
use sqlite_items::Items;
use std::alloc::{AllocError, Global};

/// The same field.
fn share_field(alloc: Global, field: &Field) -> Result<Field, AllocError>
    ensures { IfOk result (λ f. f ≡ field.now) }
{
    let name = field.name.share()?;
    let ty = field.ty.share(alloc)?;
    Ok(Field { name, ty })
}

/// The same fields.
fn share_fields(alloc: Global, fields: &[Field]) -> Result<FieldList, AllocError>
    ensures { IfOk result (λ all. all ≡ fields.now) }
{
    let mut all = Items::new(alloc);
    'fields: for field in fields {
        all.push(share_field(alloc, field)?)?;
    }
    Ok(all)
}

/// Completes a struct that is declared, unless it is complete or cannot be.
fn complete(alloc: Global, structs: &mut StructTable, def: &StructDef) -> Result<(), AllocError>
    requires there { IsTrue (has_tag structs.old def.now.tag) }
    requires lies { specs.FieldsLie structs.old def.now.fields }
    ensures { OnOk result (structs.new ≡ specs.with_fields def.now structs.old) }
{
    let fields = share_fields(alloc, def.fields.as_slice())?;
    let done = structs.complete(&def.tag, fields);
    match &done {
        Err(DefineStop::Memory) => Err(AllocError),
        _ => Ok(()),
    }
}

/// Adds a struct.
#[tactic(auto, using(crate::proofs::StructLemmas::declared_is_there))]
fn put_struct(alloc: Global, structs: &mut StructTable, def: &StructDef) -> Result<(), AllocError>
    requires { specs.StructLies structs.old def.now }
    ensures { OnOk result (structs.new ≡ specs.with_struct def.now structs.old) }
{
    structs.declare(&def.tag)?;
    complete(alloc, structs, def)
}

/// The structs that a source completes.
pub fn structs_of(alloc: Global, defs: &[StructDef]) -> Result<StructTable, AllocError>
    requires { specs.StructsLie defs.now [] }
    ensures { IfOk result (λ structs. structs ≡ specs.with_structs defs.now []) }
{
    let mut structs = StructTable::new(alloc);
    let mut rest = defs;
    'structs: while let Some((def, more)) = rest.split_first() {
        put_struct(alloc, &mut structs, def)?;
        rest = more;
    }
    Ok(structs)
}
