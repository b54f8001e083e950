ghost use Rattle.std.specs.Prelude.{◌≡◌, ◌++◌, IfOk, OnOk};
ghost use Rattle.std.specs.List.{flat_map};
ghost use Rattle.floyd_soundness.specs.Accepted.{name_if, proved_name, trusted_name};

use floyd_assert_trees::NameList;
use floyd_goal_meaning::LinkedFunction;
use floyd_text::Name;
use std::alloc::{AllocError, Global};

fn put_name(names: &mut NameList, wanted: bool, name: &Name) -> Result<(), AllocError>
    ensures { OnOk result (names.new ≡ names.old ++ name_if wanted name.now) }
{
    if wanted {
        names.push(name.share()?)?;
    }
    Ok(())
}

/// The names of functions with a body.
pub(crate) fn proved_names(
    alloc: Global,
    functions: &[LinkedFunction],
) -> Result<NameList, AllocError>
    ensures { IfOk result (λ names. names ≡ flat_map proved_name functions.now) }
{
    let mut names = NameList::new(alloc);
    'functions: for function in functions {
        put_name(&mut names, function.body.is_some(), &function.name)?;
    }
    Ok(names)
}

/// The names of external functions that have a specification.
pub(crate) fn trusted_names(
    alloc: Global,
    functions: &[LinkedFunction],
) -> Result<NameList, AllocError>
    ensures { IfOk result (λ names. names ≡ flat_map trusted_name functions.now) }
{
    let mut names = NameList::new(alloc);
    'functions: for function in functions {
        let wanted = function.body.is_none() && function.own.is_some();
        put_name(&mut names, wanted, &function.name)?;
    }
    Ok(names)
}
