//! The names of a linked program.
ghost use Rattle.std.specs.Prelude.{◌≡◌, IfOk, OnOk};
ghost use Rattle.floyd_link_modules.specs.Modules as specs;

use floyd_assert_trees::{Names, Table};
use floyd_goal_meaning::{LinkedFunction, LinkedVariable};
use floyd_specread_sources::put_new;
use std::alloc::{AllocError, Global};

fn put_variables(names: &mut Names, variables: &[LinkedVariable]) -> Result<(), AllocError>
    ensures { OnOk result (names.new ≡ specs.with_variables variables.now names.old) }
{
    let mut rest = variables;
    'variables: while let Some((variable, more)) = rest.split_first() {
        let name = variable.name.share()?;
        put_new(names, name, ())?;
        rest = more;
    }
    Ok(())
}

fn put_functions(names: &mut Names, functions: &[LinkedFunction]) -> Result<(), AllocError>
    ensures { OnOk result (names.new ≡ specs.with_functions functions.now names.old) }
{
    let mut rest = functions;
    'functions: while let Some((function, more)) = rest.split_first() {
        let name = function.name.share()?;
        put_new(names, name, ())?;
        rest = more;
    }
    Ok(())
}

/// The names of a program's variables and functions.
pub fn program_names(
    alloc: Global,
    variables: &[LinkedVariable],
    functions: &[LinkedFunction],
) -> Result<Names, AllocError>
    ensures exact { IfOk result (λ names. names ≡ specs.program_names variables.now functions.now) }
{
    let mut names = Table::new(alloc);
    put_variables(&mut names, variables)?;
    put_functions(&mut names, functions)?;
    Ok(names)
}
