//! Names in expressions.
ghost use Rattle.std.specs.Prelude.{◌≡◌, OnOk};
ghost use Rattle.floyd_link_mentions.specs.MentionClauses as clauses;

use floyd_assert_trees::Names;
use floyd_clight::{Binding, Expr};
use floyd_specread_sources::put_new;
use floyd_text::Name;
use std::alloc::AllocError;

fn put_binding(names: &mut Names, binding: Binding, name: &Name) -> Result<(), AllocError>
    ensures { OnOk result (names.new ≡ clauses.with_binding binding name.now names.old) }
{
    match binding {
        Binding::Block => Ok(()),
        Binding::File => {
            let name = name.share()?;
            put_new(names, name, ())
        }
    }
}

/// Adds the names of the file in an expression.
#[tactic(auto, using(crate::proofs::RowLemmas::at_deref, crate::proofs::RowLemmas::at_address, crate::proofs::RowLemmas::at_unary, crate::proofs::RowLemmas::at_binary, crate::proofs::RowLemmas::at_cast, crate::proofs::RowLemmas::at_field))]
pub fn put_expression(names: &mut Names, e: &Expr) -> Result<(), AllocError>
    ensures { OnOk result (names.new ≡ clauses.with_expression e.now names.old) }
{
    match e {
        Expr::Const(_, _) => Ok(()),
        Expr::Temp(_, _) => Ok(()),
        Expr::Var(binding, name, _) => put_binding(names, *binding, name),
        Expr::Deref(operand, _) => put_expression(names, operand.get()),
        Expr::AddrOf(operand, _) => put_expression(names, operand.get()),
        Expr::Unary(_, operand, _) => put_expression(names, operand.get()),
        Expr::Binary(_, left, right, _) => {
            put_expression(names, left.get())?;
            put_expression(names, right.get())
        }
        Expr::Cast(operand, _) => put_expression(names, operand.get()),
        Expr::Field(operand, _, _) => put_expression(names, operand.get()),
        Expr::SizeOf(_, _) => Ok(()),
    }
}

/// Adds those in several expressions.
pub fn put_expressions(names: &mut Names, all: &[Expr]) -> Result<(), AllocError>
    ensures { OnOk result (names.new ≡ clauses.with_expressions all.now names.old) }
{
    let mut rest = all;
    'expressions: while let Some((e, more)) = rest.split_first() {
        put_expression(names, e)?;
        rest = more;
    }
    Ok(())
}

/// Adds those in an expression, if there is one.
pub fn put_value(names: &mut Names, value: &Option<Expr>) -> Result<(), AllocError>
    ensures { OnOk result (names.new ≡ clauses.with_value value.now names.old) }
{
    match value {
        None => Ok(()),
        Some(e) => put_expression(names, e),
    }
}
