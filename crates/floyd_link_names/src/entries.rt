//! The names that a source declares and defines.
ghost use Rattle.std.specs.Prelude.{◌≡◌, ◌++◌, filter, map, IfOk, OnOk};
ghost use Rattle.floyd_ctypes.specs.declared.ctype.CType.{Function};
ghost use Rattle.floyd_link_names.specs.Names as specs;

use floyd_clight::{ClightUnit, Declared, Defined, Local, Variable};
use floyd_ctypes::{CType, TypeList};
use floyd_text::{Name, Place, Shared};
use sqlite_items::Items;
use std::alloc::{AllocError, Global};

/// A variable or a function as a source has it, with its type. `place` is that of its name.
pub struct Entry {
    pub name: Name,
    pub place: Place,
    pub ctype: CType,
}

impl Drop for Entry {
    fn drop(self) {
        let Entry {
            name,
            place: _,
            ctype,
        } = self;
        drop(name);
        drop(ctype);
    }
}

/// Names in order.
pub type EntryList = Items<Entry>;

fn of_variable(alloc: Global, variable: &Variable) -> Result<Entry, AllocError>
    ensures { IfOk result (λ e. e ≡ specs.of_variable variable.now) }
{
    let name = variable.name.share()?;
    let ctype = variable.ctype.share(alloc)?;
    Ok(Entry {
        name,
        place: variable.place,
        ctype,
    })
}

/// The same types.
fn share_types(alloc: Global, types: &[CType]) -> Result<TypeList, AllocError>
    ensures { IfOk result (λ all. all ≡ types.now) }
{
    let mut all = Items::new(alloc);
    'types: for ctype in types {
        all.push(ctype.share(alloc)?)?;
    }
    Ok(all)
}

fn parameter_types(alloc: Global, parameters: &[Local]) -> Result<TypeList, AllocError>
    ensures { IfOk result (λ all. all ≡ specs.parameter_types parameters.now) }
{
    let mut all = Items::new(alloc);
    'parameters: for parameter in parameters {
        all.push(parameter.ctype.share(alloc)?)?;
    }
    Ok(all)
}

fn function_type(
    alloc: Global,
    parameters: TypeList,
    result_type: &CType,
) -> Result<CType, AllocError>
    ensures { IfOk result (λ t. t ≡ Function parameters result_type.now) }
{
    let result_type = Shared::new(alloc, result_type.share(alloc)?)?;
    Ok(CType::Function(parameters, result_type))
}

fn of_declared(alloc: Global, function: &Declared) -> Result<Entry, AllocError>
    ensures { IfOk result (λ e. e ≡ specs.of_declared function.now) }
{
    let name = function.name.share()?;
    let parameters = share_types(alloc, function.parameters.as_slice())?;
    let ctype = function_type(alloc, parameters, &function.result)?;
    Ok(Entry {
        name,
        place: function.place,
        ctype,
    })
}

fn of_defined(alloc: Global, function: &Defined) -> Result<Entry, AllocError>
    ensures { IfOk result (λ e. e ≡ specs.of_defined function.now) }
{
    let name = function.name.share()?;
    let parameters = parameter_types(alloc, function.parameters.as_slice())?;
    let ctype = function_type(alloc, parameters, &function.result)?;
    Ok(Entry {
        name,
        place: function.place,
        ctype,
    })
}

fn add_variables(
    alloc: Global,
    entries: &mut EntryList,
    variables: &[Variable],
) -> Result<(), AllocError>
    ensures { OnOk result (entries.new ≡ entries.old ++ map specs.of_variable variables.now) }
{
    let mut rest = variables;
    'variables: while let Some((variable, more)) = rest.split_first() {
        entries.push(of_variable(alloc, variable)?)?;
        rest = more;
    }
    Ok(())
}

fn add_with_contents(
    alloc: Global,
    entries: &mut EntryList,
    variables: &[Variable],
) -> Result<(), AllocError>
    ensures { OnOk result (entries.new ≡ entries.old ++ map specs.of_variable (filter specs.has_contents variables.now)) }
{
    let mut rest = variables;
    'variables: while let Some((variable, more)) = rest.split_first() {
        if variable.contents.is_some() {
            entries.push(of_variable(alloc, variable)?)?;
        }
        rest = more;
    }
    Ok(())
}

fn add_declared(
    alloc: Global,
    entries: &mut EntryList,
    functions: &[Declared],
) -> Result<(), AllocError>
    ensures { OnOk result (entries.new ≡ entries.old ++ map specs.of_declared functions.now) }
{
    let mut rest = functions;
    'functions: while let Some((function, more)) = rest.split_first() {
        entries.push(of_declared(alloc, function)?)?;
        rest = more;
    }
    Ok(())
}

fn add_defined(
    alloc: Global,
    entries: &mut EntryList,
    functions: &[Defined],
) -> Result<(), AllocError>
    ensures { OnOk result (entries.new ≡ entries.old ++ map specs.of_defined functions.now) }
{
    let mut rest = functions;
    'functions: while let Some((function, more)) = rest.split_first() {
        entries.push(of_defined(alloc, function)?)?;
        rest = more;
    }
    Ok(())
}

/// The names that a source declares: its variables and then its functions.
pub fn declared_in(alloc: Global, unit: &ClightUnit) -> Result<EntryList, AllocError>
    ensures { IfOk result (λ es. es ≡ specs.declared_in unit.now) }
{
    let mut entries = Items::new(alloc);
    add_variables(alloc, &mut entries, unit.variables.as_slice())?;
    add_declared(alloc, &mut entries, unit.declared.as_slice())?;
    Ok(entries)
}

/// The names that a source defines: its variables and then its functions.
pub fn defined_in(alloc: Global, unit: &ClightUnit) -> Result<EntryList, AllocError>
    ensures { IfOk result (λ es. es ≡ specs.defined_in unit.now) }
{
    let mut entries = Items::new(alloc);
    add_with_contents(alloc, &mut entries, unit.variables.as_slice())?;
    add_defined(alloc, &mut entries, unit.defined.as_slice())?;
    Ok(entries)
}
