//! Names in statements.
ghost use Rattle.std.specs.Prelude.{◌≡◌, OnOk};
ghost use Rattle.floyd_link_mentions.specs.MentionClauses as clauses;

use crate::expressions::{put_expression, put_expressions, put_value};
use floyd_assert_trees::Names;
use floyd_clight::{Case, Stmt};
use std::alloc::AllocError;

/// Adds the names of the file in a statement.
#[cycle(mention)]
#[tactic(auto, using(crate::proofs::RowLemmas::statements_seq, crate::proofs::RowLemmas::at_switch, crate::proofs::RowLemmas::at_if, crate::proofs::RowLemmas::at_loop))]
pub fn put_statement(names: &mut Names, s: &Stmt) -> Result<(), AllocError>
    ensures { OnOk result (names.new ≡ clauses.with_statement s.now names.old) }
{
    match s {
        Stmt::Skip => Ok(()),
        Stmt::Set(_, e) => put_expression(names, e),
        Stmt::Assign(place, e) => {
            put_expression(names, place)?;
            put_expression(names, e)
        }
        Stmt::Call(_, callee, arguments) => {
            put_expression(names, callee)?;
            put_expressions(names, arguments.as_slice())
        }
        Stmt::Seq(parts) => put_list(names, parts.as_slice()),
        Stmt::If(test, met, unmet) => {
            put_expression(names, test)?;
            put_statement(names, met.get())?;
            put_statement(names, unmet.get())
        }
        Stmt::Loop(first, second) => {
            put_statement(names, first.get())?;
            put_statement(names, second.get())
        }
        Stmt::Break => Ok(()),
        Stmt::Continue => Ok(()),
        Stmt::Return(value) => put_value(names, value),
        Stmt::Switch(e, cases) => {
            put_expression(names, e)?;
            put_cases(names, cases.as_slice())
        }
    }
}

#[cycle(mention)]
fn put_list(names: &mut Names, parts: &[Stmt]) -> Result<(), AllocError>
    ensures { OnOk result (names.new ≡ clauses.with_list parts.now names.old) }
{
    'parts: for part in parts {
        put_statement(names, part)?;
    }
    Ok(())
}

#[cycle(mention)]
fn put_cases(names: &mut Names, cases: &[Case]) -> Result<(), AllocError>
    ensures { OnOk result (names.new ≡ clauses.with_bodies cases.now names.old) }
{
    'cases: for case in cases {
        put_statement(names, case.body.get())?;
    }
    Ok(())
}
