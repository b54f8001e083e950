//! Layout of types, and the values of scalar types.
ghost use Rattle.std.specs.Prelude.{All, IsTrue};
ghost use Rattle.floyd_ctypes.specs.Layout.{type_fits};

use crate::words::{Stop, kind_of, number, says, some_number, value_of, word};
use floyd_ctypes::{CType, DefineStop, Field, FieldList, StructTable, has};
use floyd_int::IntKind;
use floyd_text::{Name, Shared};
use sqlite_items::Items;
use std::alloc::Global;

fn name_of(alloc: Global, word: &str) -> Result<Name, Stop> {
    Ok(Name::from_slice(alloc, word.as_bytes())?)
}

/// A type without elements: a kind, `*`, `void`, `fn` or a tag.
fn single_of(alloc: Global, word: &str) -> Result<CType, Stop> {
    if let Some(kind) = kind_of(word) {
        return Ok(CType::Int(kind));
    }
    match word {
        "void" => Ok(CType::Void),
        "*" => Ok(CType::Pointer(Shared::new(alloc, CType::Void)?)),
        "fn" => Ok(CType::Function(Items::new(alloc), Shared::new(alloc, CType::Void)?)),
        _ => Ok(CType::Struct(name_of(alloc, word)?)),
    }
}

fn type_of(alloc: Global, word: &str, elements: &str) -> Result<CType, Stop> {
    let single = single_of(alloc, word)?;
    match some_number(elements, 10)? {
        None => Ok(single),
        Some(n) => Ok(CType::Array(Shared::new(alloc, single)?, n)),
    }
}

/// Whether all fields keep the conditions of `complete`.
fn all_fit(table: &StructTable, fields: &[Field]) -> bool
    ensures { IsTrue result → All (λ f. IsTrue (type_fits table.now f.ty)) fields.now }
{
    'fields: for field in fields {
        if !table.fits(&field.ty) {
            return false;
        }
    }
    true
}

/// How a struct was completed.
#[derive(Clone, Copy, PartialEq, Eq)]
enum Completed {
    Done,
    Incomplete,
    Again,
    Other,
}

/// `complete`, after its conditions are looked at.
fn complete(table: &mut StructTable, tag: &Name, fields: FieldList) -> Result<Completed, Stop> {
    if !table.contains(tag)
        || fields.is_empty()
        || fields.len() >= 1 << 31
        || !all_fit(table, fields.as_slice())
    {
        return Err(Stop::Unreadable);
    }
    let done = table.complete(tag, fields);
    match &done {
        Ok(()) => Ok(Completed::Done),
        Err(DefineStop::Incomplete) => Ok(Completed::Incomplete),
        Err(DefineStop::Again) => Ok(Completed::Again),
        Err(DefineStop::Memory) => Err(Stop::Memory),
    }
}

/// Fields of so many words each: a name, a type and a number of elements first.
fn fields_of(alloc: Global, words: &[&str], each: usize) -> Result<FieldList, Stop> {
    let mut fields = Items::new(alloc);
    if each == 0 {
        return Ok(fields);
    }
    'fields: for part in words.chunks(each) {
        fields.push(Field {
            name: name_of(alloc, word(part, 0)?)?,
            ty: type_of(alloc, word(part, 1)?, word(part, 2)?)?,
        })?;
    }
    Ok(fields)
}

/// Whether the type has that size and alignment.
fn has_layout(
    table: &StructTable,
    ty: &CType,
    size: Option<u64>,
    align: Option<u64>,
) -> Result<bool, Stop> {
    if !table.arrays_fit(ty) {
        return Err(Stop::Unreadable);
    }
    Ok(table.size_of(ty) == size && table.align_of(ty) == align)
}

/// Whether each field has its offset.
fn have_offsets(
    alloc: Global,
    table: &StructTable,
    tag: &Name,
    words: &[&str],
) -> Result<bool, Stop> {
    'fields: for part in words.chunks(4) {
        let field = name_of(alloc, word(part, 0)?)?;
        if table.offset_of(tag, &field) != Some(number(word(part, 3)?, 10)?) {
            return Ok(false);
        }
    }
    Ok(true)
}

/// `struct TAG SIZE ALIGN` and of each field `NAME TYPE ELEMENTS OFFSET`.
fn struct_agrees(alloc: Global, table: &mut StructTable, row: &[&str]) -> Result<bool, Stop> {
    let tag = name_of(alloc, word(row, 1)?)?;
    let size = number(word(row, 2)?, 10)?;
    let align = number(word(row, 3)?, 10)?;
    let words = row.get(4..).unwrap_or(&[]);
    table.declare(&tag)?;
    let done = complete(table, &tag, fields_of(alloc, words, 4)?)?;
    let ty = CType::Struct(tag.share()?);
    Ok(
        done == Completed::Done
            && has_layout(table, &ty, Some(size), Some(align))?
            && have_offsets(alloc, table, &tag, words)?,
    )
}

/// `refused TAG incomplete` or `again`, and of each field `NAME TYPE ELEMENTS`.
fn refused_agrees(alloc: Global, table: &mut StructTable, row: &[&str]) -> Result<bool, Stop> {
    let tag = name_of(alloc, word(row, 1)?)?;
    let before = table.is_complete(&tag);
    let wanted = match word(row, 2)? {
        "incomplete" => Completed::Incomplete,
        "again" => Completed::Again,
        _ => Completed::Other,
    };
    let fields = fields_of(alloc, row.get(3..).unwrap_or(&[]), 3)?;
    let done = complete(table, &tag, fields)?;
    Ok(done == wanted && table.is_complete(&tag) == before)
}

/// One more struct of the row, with so many fields of that type.
fn link(
    alloc: Global,
    table: &mut StructTable,
    tag: &Name,
    before: &CType,
    copies: u64,
) -> Result<Completed, Stop> {
    let mut fields = Items::new(alloc);
    'copies: for i in 0..copies {
        fields.push(Field {
            name: name_of(alloc, format!(in alloc; "f{i}")?.as_str())?,
            ty: before.share(alloc)?,
        })?;
    }
    table.declare(tag)?;
    complete(table, tag, fields)
}

/// `chain WORD STRUCTS COPIES SIZE`.
fn chain_agrees(alloc: Global, table: &mut StructTable, row: &[&str]) -> Result<bool, Stop> {
    let begin = word(row, 1)?;
    let structs = number(word(row, 2)?, 10)?;
    let copies = number(word(row, 3)?, 10)?;
    let size = number(word(row, 4)?, 10)?;
    let mut before = CType::Int(IntKind::I32);
    'structs: for i in 0..structs {
        let tag = name_of(alloc, format!(in alloc; "{begin}{i}")?.as_str())?;
        if link(alloc, table, &tag, &before, copies)? != Completed::Done {
            return Ok(false);
        }
        before = CType::Struct(tag);
    }
    has_layout(table, &before, Some(size), Some(4))
}

/// `type TYPE ELEMENTS SIZE ALIGN`.
fn type_agrees(alloc: Global, table: &StructTable, row: &[&str]) -> Result<bool, Stop> {
    let ty = type_of(alloc, word(row, 1)?, word(row, 2)?)?;
    let size = some_number(word(row, 3)?, 10)?;
    let align = some_number(word(row, 4)?, 10)?;
    has_layout(table, &ty, size, align)
}

/// `offset TAG FIELD OFFSET`.
fn offset_agrees(alloc: Global, table: &StructTable, row: &[&str]) -> Result<bool, Stop> {
    let tag = name_of(alloc, word(row, 1)?)?;
    let field = name_of(alloc, word(row, 2)?)?;
    Ok(table.offset_of(&tag, &field) == some_number(word(row, 3)?, 10)?)
}

/// `declare TAG`, which is seen then.
fn declare_agrees(alloc: Global, table: &mut StructTable, row: &[&str]) -> Result<bool, Stop> {
    let tag = name_of(alloc, word(row, 1)?)?;
    table.declare(&tag)?;
    Ok(table.contains(&tag) && !table.is_complete(&tag))
}

/// Whether the row answers as it says.
pub fn agrees(alloc: Global, table: &mut StructTable, row: &[&str]) -> Result<bool, Stop> {
    match word(row, 0)? {
        "struct" => struct_agrees(alloc, table, row),
        "refused" => refused_agrees(alloc, table, row),
        "chain" => chain_agrees(alloc, table, row),
        "type" => type_agrees(alloc, table, row),
        "offset" => offset_agrees(alloc, table, row),
        "declare" => declare_agrees(alloc, table, row),
        _ => Err(Stop::Unreadable),
    }
}

/// `TYPE VALUE yes`, or `no`.
pub fn scalar_agrees(alloc: Global, row: &[&str]) -> Result<bool, Stop> {
    let ty = single_of(alloc, word(row, 0)?)?;
    Ok(says(word(row, 2)?, has(&ty, &value_of(word(row, 1)?)?)))
}
