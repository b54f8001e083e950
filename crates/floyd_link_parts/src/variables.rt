//! The variables of a linked program.
ghost use Rattle.std.specs.Prelude.{◌≡◌, ◌++◌, [], filter, map, unwrap_or, IfOk, OnOk};
ghost use Rattle.floyd_clight.specs.declared.initial.Initial.{Absent};
ghost use Rattle.floyd_link_names.specs.Names.{has_contents};
ghost use Rattle.floyd_link_parts.specs.Parts as specs;
ghost use Rattle.floyd_link_parts.specs.PartClauses as clauses;

use crate::sharing::share_initial;
use floyd_clight::{ClightUnit, Initial, Variable};
use floyd_goal_meaning::{LinkedVariable, LinkedVariableList};
use sqlite_items::Items;
use std::alloc::{AllocError, Global};

fn contents_of(alloc: Global, contents: &Option<Initial>) -> Result<Initial, AllocError>
    ensures { IfOk result (λ c. c ≡ unwrap_or contents.now Absent) }
{
    match contents {
        None => Ok(Initial::Absent),
        Some(contents) => share_initial(alloc, contents),
    }
}

fn linked_variable(alloc: Global, variable: &Variable) -> Result<LinkedVariable, AllocError>
    ensures { IfOk result (λ v. v ≡ specs.linked_variable variable.now) }
{
    let name = variable.name.share()?;
    let ctype = variable.ctype.share(alloc)?;
    let contents = contents_of(alloc, &variable.contents)?;
    Ok(LinkedVariable {
        name,
        ctype,
        contents,
        read_only: false,
    })
}

/// Adds those that are defined.
fn add_variables(
    alloc: Global,
    all: &mut LinkedVariableList,
    variables: &[Variable],
) -> Result<(), AllocError>
    ensures { OnOk result (all.new ≡ all.old ++ map specs.linked_variable (filter has_contents variables.now)) }
{
    let mut rest = variables;
    'variables: while let Some((variable, more)) = rest.split_first() {
        if variable.contents.is_some() {
            all.push(linked_variable(alloc, variable)?)?;
        }
        rest = more;
    }
    Ok(())
}

fn all_variables(alloc: Global, units: &[ClightUnit]) -> Result<LinkedVariableList, AllocError>
    ensures { IfOk result (λ all. all ≡ clauses.variables_behind [] units.now) }
{
    let mut all = Items::new(alloc);
    let mut rest = units;
    'units: while let Some((unit, more)) = rest.split_first() {
        add_variables(alloc, &mut all, unit.variables.as_slice())?;
        rest = more;
    }
    Ok(all)
}

/// The variables that the sources define, module by module in the order of their definitions.
#[tactic(auto, using(crate::proofs::PartLemmas::variables_alike))]
pub fn linked_variables(
    alloc: Global,
    units: &[ClightUnit],
) -> Result<LinkedVariableList, AllocError>
    ensures exact { IfOk result (λ all. all ≡ specs.linked_variables units.now) }
{
    all_variables(alloc, units)
}
