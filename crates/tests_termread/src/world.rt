//! What the names of the tables stand for.
ghost use Rattle.std.specs.Prelude.{◌<◌, ◌^◌, All, IsTrue, length};
ghost use Rattle.floyd_ctypes.specs.Structs.{has_tag};
ghost use Rattle.floyd_ctypes.specs.Layout.{type_fits};

use crate::sorts::{binders_of, sort_of};
use floyd_assert_trees::{
    Binder, Defs, Fun, FunBody, Funspec, Names, Postcondition, Precondition, Pred, PredBody, Table,
};
use floyd_ctypes::{CType, Field, FieldList, StructTable};
use floyd_int::IntKind;
use floyd_termread::Variables;
use floyd_text::{Name, Place, Shared};
use floyd_tree::{AType, Shape, Sort};
use sqlite_items::Items;
use std::alloc::{AllocError, Global};

#[derive(Drop)]
pub(crate) struct World {
    pub variables: Variables,
    pub defs: Defs,
    pub specs: Table<Funspec>,
}

const NOWHERE: Place = Place {
    file: 0,
    line: 0,
    column: 0,
};

fn empty(alloc: Global) -> World {
    World {
        variables: Variables::new(alloc),
        defs: Defs {
            structs: StructTable::new(alloc),
            globals: Names::new(alloc),
            funs: Table::new(alloc),
            preds: Table::new(alloc),
            lemmas: Table::new(alloc),
            proved: Names::new(alloc),
            home: 0,
        },
        specs: Table::new(alloc),
    }
}

/// Adds to a table, unless the name is there.
fn add<T: Drop>(
    table: &mut Table<T>,
    alloc: Global,
    name: &str,
    item: T,
) -> Result<(), AllocError> {
    let name = Name::from_slice(alloc, name.as_bytes())?;
    if table.get(&name).is_some() {
        return Ok(());
    }
    table.add(name, item)
}

fn bind(variables: &mut Variables, binder: &Binder) -> Result<(), AllocError> {
    variables.bind(binder.name.share()?, binder.sort.share()?)?;
    Ok(())
}

fn add_variables(alloc: Global, world: &mut World, text: &str) -> Result<(), AllocError> {
    let all = binders_of(alloc, text)?;
    'each: for binder in all.as_slice() {
        bind(&mut world.variables, binder)?;
    }
    Ok(())
}

/// `NAME SORT; BINDERS .`
fn add_fun(alloc: Global, world: &mut World, text: &str) -> Result<(), AllocError> {
    let (name, rest) = text.split_once(' ').unwrap_or((text, ""));
    let (result, binders) = rest.split_once("; ").unwrap_or(("Z", rest));
    let fun = Fun {
        place: NOWHERE,
        module: 0,
        arguments: binders_of(alloc, binders)?,
        result: sort_of(alloc, result)?.unwrap_or(Sort::Z),
        body: FunBody::Cases(Items::new(alloc)),
        calls: Items::new(alloc),
    };
    add(&mut world.defs.funs, alloc, name, fun)
}

/// `NAME BINDERS .`
fn add_pred(alloc: Global, world: &mut World, text: &str) -> Result<(), AllocError> {
    let (name, binders) = text.split_once(' ').unwrap_or((text, ""));
    let pred = Pred {
        place: NOWHERE,
        module: 0,
        opaque: false,
        arguments: binders_of(alloc, binders)?,
        body: PredBody::Cases(Items::new(alloc)),
        calls: Items::new(alloc),
    };
    add(&mut world.defs.preds, alloc, name, pred)
}

fn add_spec(alloc: Global, world: &mut World, name: &str) -> Result<(), AllocError> {
    let spec = Funspec {
        name: None,
        with: Items::new(alloc),
        params: Items::new(alloc),
        result: AType::new(Shared::new(alloc, Shape::Void)?, Items::new(alloc)),
        pre: Precondition {
            props: Items::new(alloc),
            params: Items::new(alloc),
            globals: Items::new(alloc),
            parts: Items::new(alloc),
        },
        post: Postcondition {
            existentials: Items::new(alloc),
            props: Items::new(alloc),
            value: None,
            parts: Items::new(alloc),
        },
    };
    add(&mut world.specs, alloc, name, spec)
}

/// A struct with one field of type `int`.
fn one_field(alloc: Global, name: &str) -> Result<FieldList, AllocError> {
    let mut fields = Items::new(alloc);
    fields.push(Field {
        name: Name::from_slice(alloc, name.as_bytes())?,
        ty: CType::Int(IntKind::I32),
    })?;
    Ok(fields)
}

fn all_fit(table: &StructTable, fields: &[Field]) -> bool
    ensures { IsTrue result → All (λ f. IsTrue (type_fits table.now f.ty)) fields.now }
{
    'fields: for field in fields {
        if !table.fits(&field.ty) {
            return false;
        }
    }
    true
}

/// `TAG FIELD`
fn add_struct(alloc: Global, structs: &mut StructTable, text: &str) -> Result<(), AllocError> {
    let (tag, field) = text.split_once(' ').unwrap_or((text, ""));
    let tag = Name::from_slice(alloc, tag.as_bytes())?;
    let fields = one_field(alloc, field)?;
    structs.declare(&tag)?;
    if structs.contains(&tag)
        && !fields.is_empty()
        && fields.len() < 1 << 31
        && all_fit(structs, fields.as_slice())
    {
        return complete(structs, &tag, fields);
    }
    Ok(())
}

fn complete(structs: &mut StructTable, tag: &Name, fields: FieldList) -> Result<(), AllocError>
    requires there { IsTrue (has_tag structs.old tag.now) }
    requires some { 0 < length fields }
    requires few { length fields < 2 ^ 31 }
    requires fits { All (λ f. IsTrue (type_fits structs.old f.ty)) fields }
{
    match structs.complete(tag, fields) {
        Ok(()) => Ok(()),
        Err(_) => Err(AllocError),
    }
}

fn add_line(alloc: Global, world: &mut World, line: &str) -> Result<(), AllocError> {
    let (word, text) = line.split_once(' ').unwrap_or((line, ""));
    match word.as_bytes() {
        b"variables" => add_variables(alloc, world, text),
        b"fun" => add_fun(alloc, world, text),
        b"pred" => add_pred(alloc, world, text),
        b"spec" => add_spec(alloc, world, text),
        b"global" => add(&mut world.defs.globals, alloc, text, ()),
        b"struct" => add_struct(alloc, &mut world.defs.structs, text),
        _ => Ok(()),
    }
}

/// The names of a table, line by line.
pub(crate) fn world_of(alloc: Global, text: &str) -> Result<World, AllocError> {
    let mut world = empty(alloc);
    'lines: for line in text.lines() {
        add_line(alloc, &mut world, line)?;
    }
    Ok(world)
}
