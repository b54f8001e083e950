//! Names that a source mentions.
ghost use Rattle.std.specs.Prelude.{◌≡◌, IfOk, OnOk, is_some, bytes_eq, List, [], ℕ};
ghost use Rattle.std.specs.Map.{lookup};
ghost use Rattle.floyd_link_mentions.specs.Mentions.{mentions as mentions_lem};
ghost use Rattle.floyd_link_mentions.specs.MentionClauses as clauses;

use crate::contents::put_initial;
use crate::statements::put_statement;
use floyd_assert_trees::{Names, Table};
use floyd_clight::{ClightUnit, Defined, Variable};
use std::alloc::{AllocError, Global};

fn put_functions(names: &mut Names, functions: &[Defined]) -> Result<(), AllocError>
    ensures { OnOk result (names.new ≡ clauses.with_functions functions.now names.old) }
{
    let mut rest = functions;
    'functions: while let Some((function, more)) = rest.split_first() {
        put_statement(names, &function.body)?;
        rest = more;
    }
    Ok(())
}

fn put_variables(names: &mut Names, variables: &[Variable]) -> Result<(), AllocError>
    ensures { OnOk result (names.new ≡ clauses.with_variables variables.now names.old) }
{
    let mut rest = variables;
    'variables: while let Some((variable, more)) = rest.split_first() {
        put_initial(names, &variable.contents)?;
        rest = more;
    }
    Ok(())
}

fn table_of(alloc: Global, unit: &ClightUnit) -> Result<Names, AllocError>
    ensures { IfOk result (λ names. names ≡ clauses.with_unit unit.now []) }
{
    let mut names = Table::new(alloc);
    put_functions(&mut names, unit.defined.as_slice())?;
    put_variables(&mut names, unit.variables.as_slice())?;
    Ok(names)
}

/// The names of the file that stand in a body of the source, or in the contents of a variable.
#[tactic(auto, using(crate::proofs::MentionLemmas::unit_mentions))]
pub fn mentions_of(alloc: Global, unit: &ClightUnit) -> Result<Names, AllocError>
    ensures exact { IfOk result (λ names. (x : List ℕ) → is_some (lookup (bytes_eq x) names) ≡ mentions_lem x unit.now) }
{
    table_of(alloc, unit)
}
