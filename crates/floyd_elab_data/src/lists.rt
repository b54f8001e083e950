//! Initial contents of a global variable.
ghost use Rattle.std.specs.Prelude.{◌≡◌, []};
ghost use Rattle.std.specs.Option.{unwrap_or};
ghost use Rattle.floyd_text.specs.Gives.{Gives};
ghost use Rattle.floyd_ctypes.specs.Structs.{fields_of};
ghost use Rattle.floyd_ctypes.specs.declared.ctype.CType.TheVariants.{Struct};
ghost use Rattle.floyd_cparse_trees.specs.declared.declarations.Initialiser.TheVariants as written;
ghost use Rattle.floyd_elab_names.specs.declared.tags.Tags.{Tags as Kept};
ghost use Rattle.floyd_elab_names.specs.Types.{array_of};
ghost use Rattle.floyd_elab_data.specs.Contents.{contents as contents_lem};
ghost use Rattle.floyd_elab_data.specs.ItemClauses.{list_parts, no_parts};

use crate::constants::{misfit, scalar_contents};
use floyd_clight::Initial;
use floyd_cparse_trees::Initialiser;
use floyd_ctypes::{CType, Field, StructTable};
use floyd_elab_names::{Names, Tags};
use floyd_text::{Halt, Name, Place};
use sqlite_items::Items;
use std::alloc::Global;

/// The contents of an object of a type. What does not fit is ill typed at the given place of the `=`, or at the brace of
/// the list that it stands in.
pub fn contents(
    alloc: Global,
    names: &Names,
    tags: &Tags,
    place: Place,
    t: &CType,
    initialiser: &Initialiser,
) -> Result<Initial, Halt>
    ensures exact { Gives (λ c. (c, tags.now)) result (contents_lem names.now place t.now initialiser.now tags.now) }
{
    contents_of(alloc, names, tags, initialiser, place, t)
}

/// The same. What the calls go down stands first.
#[cycle(contents)]
fn contents_of(
    alloc: Global,
    names: &Names,
    tags: &Tags,
    initialiser: &Initialiser,
    place: Place,
    t: &CType,
) -> Result<Initial, Halt>
    ensures exact { Gives (λ c. (c, tags.now)) result (contents_lem names.now place t.now initialiser.now tags.now) }
{
    match initialiser {
        Initialiser::Constant(c) => scalar_contents(alloc, names, tags, place, t, c),
        Initialiser::List {
            place: brace,
            items,
        } => {
            let blame = Blame {
                around: place,
                brace: *brace,
            };
            list_contents(alloc, names, tags, items.as_slice(), blame, t)
        }
    }
}

/// Where a list is blamed: around it where its type takes none, and at its brace.
#[derive(Clone, Copy)]
struct Blame {
    around: Place,
    brace: Place,
}

/// The elements of an array.
#[derive(Clone, Copy)]
struct Elements<'a> {
    ctype: &'a CType,
    number: u64,
}

/// The contents that a list gives an array or a struct.
#[cycle(contents)]
fn list_contents(
    alloc: Global,
    names: &Names,
    tags: &Tags,
    items: &[Initialiser],
    blame: Blame,
    t: &CType,
) -> Result<Initial, Halt>
    ensures exact { Gives (λ c. (c, tags.now)) result (contents_lem names.now blame.around t.now (written.List blame.brace items.now) tags.now) }
{
    match t {
        CType::Int(_) | CType::Pointer(_) => Err(misfit(blame.around)),
        CType::Array(element, number) => {
            let elements = Elements {
                ctype: element.get(),
                number: *number,
            };
            array_contents(alloc, names, tags, items, blame.brace, elements)
        }
        CType::Struct(tag) => struct_contents(alloc, names, tags, items, blame.brace, tag),
        CType::Void | CType::Function(_, _) => no_contents(alloc, items, blame.brace),
    }
}

/// What has no parts takes no items.
fn no_contents(alloc: Global, items: &[Initialiser], brace: Place) -> Result<Initial, Halt>
    ensures exact { (tags : Kept) → Gives (λ c. (c, tags)) result (no_parts brace items.now tags) }
{
    if !items.is_empty() {
        return Err(misfit(brace));
    }
    Ok(Initial::Parts(Items::new(alloc)))
}

/// The elements of an array.
#[cycle(contents)]
fn array_contents(
    alloc: Global,
    names: &Names,
    tags: &Tags,
    items: &[Initialiser],
    brace: Place,
    elements: Elements<'_>,
) -> Result<Initial, Halt>
    ensures exact { Gives (λ c. (c, tags.now)) result (list_parts names.now brace (array_of elements.entry.ctype.now elements.entry.number) items.now tags.now) }
{
    if items.len() as u64 > elements.number {
        return Err(misfit(brace));
    }
    let mut parts = Items::new(alloc);
    'items: for item in items {
        let part = contents_of(alloc, names, tags, item, brace, elements.ctype)?;
        parts.push(part)?;
    }
    Ok(Initial::Parts(parts))
}

/// The fields of a complete struct. An incomplete one has none.
fn fields_or_none<'a>(structs: &'a StructTable, tag: &Name) -> &'a [Field]
    ensures { result.now ≡ unwrap_or (fields_of structs.now tag.now) [] }
{
    match structs.fields_of(tag) {
        Some(fields) => fields.as_slice(),
        None => &[],
    }
}

/// The fields of a struct.
#[cycle(contents)]
fn struct_contents(
    alloc: Global,
    names: &Names,
    tags: &Tags,
    items: &[Initialiser],
    brace: Place,
    tag: &Name,
) -> Result<Initial, Halt>
    ensures exact { Gives (λ c. (c, tags.now)) result (list_parts names.now brace (Struct tag.now) items.now tags.now) }
{
    let fields = fields_or_none(&tags.structs, tag);
    if items.len() > fields.len() {
        return Err(misfit(brace));
    }
    let mut parts = Items::new(alloc);
    'items: for (at, item) in items.iter().enumerate() {
        let part = contents_of(alloc, names, tags, item, brace, &fields[at].ty)?;
        parts.push(part)?;
    }
    Ok(Initial::Parts(parts))
}
