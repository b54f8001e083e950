//! Structs from the rows of a table.
use crate::completing::complete;
use floyd_ctypes::{CType, Field, FieldList, StructTable};
use floyd_text::Shared;
use floyd_tree::Shape;
use sqlite_items::Items;
use std::alloc::Global;
use tests_terms::{Stop, Tree, part, shape_of};

/// An element type's array with so many elements.
fn array_of(alloc: Global, element: CType, count: &Tree) -> Result<CType, Stop> {
    let element = Shared::new(alloc, element)?;
    Ok(CType::Array(element, u64::from(count.count()?)))
}

/// A type of C of this shape, which is a kind of integers, a struct, or a pointer to anything.
fn single_of(alloc: Global, shape: &Shape) -> Result<CType, Stop> {
    match shape {
        Shape::Int(kind) => Ok(CType::Int(*kind)),
        Shape::Struct(tag) => Ok(CType::Struct(tag.share()?)),
        Shape::Pointer(_) => Ok(CType::Pointer(Shared::new(alloc, CType::Void)?)),
        _ => Err(Stop::Unreadable),
    }
}

/// `SHAPE`, or `(array ELEMENT COUNT)`.
fn ctype_of(alloc: Global, tree: &Tree) -> Result<CType, Stop> {
    match tree {
        Tree::Word(_) => single_of(alloc, &shape_of(alloc, tree)?),
        Tree::Group(parts) => match parts.as_slice() {
            [_, element, count] => array_of(alloc, ctype_of(alloc, element)?, count),
            _ => single_of(alloc, &shape_of(alloc, tree)?),
        },
    }
}

/// `(.NAME TYPE)` for each; the dot is part of the name, as in paths.
fn fields_of(alloc: Global, trees: &[Tree]) -> Result<FieldList, Stop> {
    let mut fields = Items::new(alloc);
    'trees: for tree in trees {
        fields.push(Field {
            name: part(tree.parts(), 0)?.name()?,
            ty: ctype_of(alloc, part(tree.parts(), 1)?)?,
        })?;
    }
    Ok(fields)
}

/// `TAG (.NAME TYPE) ..`.
pub fn add_struct(alloc: Global, table: &mut StructTable, trees: &[Tree]) -> Result<(), Stop> {
    let tag = part(trees, 0)?.name()?;
    let fields = fields_of(alloc, trees.get(1..).unwrap_or(&[]))?;
    table.declare(&tag)?;
    complete(table, &tag, fields)
}
