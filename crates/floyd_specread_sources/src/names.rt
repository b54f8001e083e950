//! Names of a source.
ghost use Rattle.std.specs.Prelude.{◌≡◌, [], IfOk, OnOk};
ghost use Rattle.floyd_specread_sources.specs.Sources as specs;

use crate::tables::put_new;
use floyd_assert_trees::{Names, Table};
use floyd_clight::{ClightUnit, Declared, Defined, Variable};
use std::alloc::{AllocError, Global};

fn put_variables(names: &mut Names, variables: &[Variable]) -> Result<(), AllocError>
    ensures { OnOk result (names.new ≡ specs.with_variables variables.now names.old) }
{
    let mut rest = variables;
    'variables: while let Some((variable, more)) = rest.split_first() {
        let name = variable.name.share()?;
        put_new(names, name, ())?;
        rest = more;
    }
    Ok(())
}

fn put_functions(names: &mut Names, functions: &[Declared]) -> Result<(), AllocError>
    ensures { OnOk result (names.new ≡ specs.with_functions functions.now names.old) }
{
    let mut rest = functions;
    'functions: while let Some((function, more)) = rest.split_first() {
        let name = function.name.share()?;
        put_new(names, name, ())?;
        rest = more;
    }
    Ok(())
}

/// The names that `gv` may take: those of the variables and of the functions that a source declares.
pub fn globals_of(alloc: Global, unit: &ClightUnit) -> Result<Names, AllocError>
    ensures { IfOk result (λ names. names ≡ specs.globals unit.now) }
{
    let mut names = Table::new(alloc);
    put_variables(&mut names, unit.variables.as_slice())?;
    put_functions(&mut names, unit.declared.as_slice())?;
    Ok(names)
}

/// The names of the functions that have a body.
pub fn bodies_of(alloc: Global, functions: &[Defined]) -> Result<Names, AllocError>
    ensures { IfOk result (λ names. names ≡ specs.with_bodies functions.now []) }
{
    let mut names = Table::new(alloc);
    let mut rest = functions;
    'functions: while let Some((function, more)) = rest.split_first() {
        let name = function.name.share()?;
        put_new(&mut names, name, ())?;
        rest = more;
    }
    Ok(names)
}
