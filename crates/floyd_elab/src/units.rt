//! What a file stands for, once all of it was read.
ghost use Rattle.std.specs.Prelude.{◌≡◌, ◌++◌, ◌∷◌, [], IfOk, OnOk, reverse, map};
ghost use Rattle.floyd_elab.specs.Units.{struct_of as struct_of_lem, unit_of as unit_of_lem};
ghost use Rattle.floyd_elab.specs.UnitClauses.{all_fields, not_among};

use crate::file::File;
use crate::tables::Definitions;
use floyd_clight::{ClightUnit, StructDef, StructList, Variable, VariableList};
use floyd_cparse_trees::Identifier;
use floyd_ctypes::{Field, FieldList, StructTable};
use floyd_elab_names::Tags;
use sqlite_items::Items;
use std::alloc::{AllocError, Global};

/// The same fields.
fn share_fields(alloc: Global, fields: &[Field]) -> Result<FieldList, AllocError>
    ensures { IfOk result (λ all. all ≡ fields.now) }
{
    let mut all = Items::new(alloc);
    'fields: for field in fields {
        all.push(Field {
            name: field.name.share()?,
            ty: field.ty.share(alloc)?,
        })?;
    }
    Ok(all)
}

/// The fields of a tag. One that is not complete has none.
fn fields_of(
    alloc: Global,
    structs: &StructTable,
    tag: &Identifier,
) -> Result<FieldList, AllocError>
    ensures { IfOk result (λ fields. fields ≡ all_fields structs.now tag.now) }
{
    match structs.fields_of(&tag.name) {
        Some(fields) => share_fields(alloc, fields.as_slice()),
        None => Ok(Items::new(alloc)),
    }
}

/// The struct of a tag.
fn struct_of(
    alloc: Global,
    structs: &StructTable,
    tag: &Identifier,
) -> Result<StructDef, AllocError>
    ensures { IfOk result (λ s. s ≡ struct_of_lem structs.now tag.now) }
{
    Ok(StructDef {
        tag: tag.name.share()?,
        place: tag.place,
        fields: fields_of(alloc, structs, tag)?,
    })
}

/// The structs in the order in which they were completed.
fn all_structs(alloc: Global, tags: &Tags) -> Result<StructList, AllocError>
    ensures { IfOk result (λ structs. structs ≡ map (struct_of_lem tags.now.structs) tags.now.completed) }
{
    let mut structs = Items::new(alloc);
    'tags: for tag in tags.completed.as_slice() {
        structs.push(struct_of(alloc, &tags.structs, tag)?)?;
    }
    Ok(structs)
}

/// Puts a variable at the end, unless it is among the defined ones.
fn keep(
    defined: &Definitions<Variable>,
    only: &mut VariableList,
    variable: Variable,
) -> Result<(), AllocError>
    ensures { OnOk result (only.new ≡ only.old ++ not_among defined.now (variable ∷ [])) }
{
    if defined.has(&variable.name) {
        return Ok(());
    }
    only.push(variable)?;
    Ok(())
}

/// The variables that are not among the defined ones, the last one first.
fn only_declared(
    alloc: Global,
    defined: &Definitions<Variable>,
    mut mentioned: VariableList,
) -> Result<VariableList, AllocError>
    ensures { IfOk result (λ only. reverse only ≡ not_among defined.now mentioned) }
{
    let mut only = Items::new(alloc);
    'mentioned: while let Some(variable) = mentioned.pop() {
        keep(defined, &mut only, variable)?;
    }
    Ok(only)
}

/// Puts variables behind others, the last one first.
fn put_back(variables: &mut VariableList, mut more: VariableList) -> Result<(), AllocError>
    ensures { OnOk result (variables.new ≡ variables.old ++ reverse more) }
{
    'more: while let Some(variable) = more.pop() {
        variables.push(variable)?;
    }
    Ok(())
}

/// The variables that are defined, and behind them those that are only declared.
fn variables_of(
    alloc: Global,
    defined: Definitions<Variable>,
    mentioned: VariableList,
) -> Result<VariableList, AllocError>
    ensures { IfOk result (λ all. all ≡ defined ++ not_among defined mentioned) }
{
    let only = only_declared(alloc, &defined, mentioned)?;
    let mut variables = defined.into_items();
    put_back(&mut variables, only)?;
    Ok(variables)
}

/// What the file stands for, with these structs.
fn unit_with(alloc: Global, file: File, structs: StructList) -> Result<ClightUnit, AllocError>
    ensures { IfOk result (λ unit. unit ≡ record (unit_of_lem file) { structs = structs }) }
{
    let (defined, mentioned, functions, bodies) = file.into_parts();
    let variables = variables_of(alloc, defined, mentioned)?;
    Ok(ClightUnit {
        structs,
        variables,
        declared: functions,
        defined: bodies.into_items(),
    })
}

/// What the file stands for.
pub(crate) fn unit_of(alloc: Global, file: File) -> Result<ClightUnit, AllocError>
    ensures { IfOk result (λ unit. unit ≡ unit_of_lem file) }
{
    let structs = all_structs(alloc, &file.tags)?;
    unit_with(alloc, file, structs)
}
