//! Expressions.
ghost use Rattle.std.specs.Prelude.{◌≡◌, ◌&&◌, ℕ, List, OnOk};
ghost use Rattle.std.specs.List.{list_any};
ghost use Rattle.std.specs.Option.{option_copied};
ghost use Rattle.floyd_elab_addresses.specs.Addresses.{ends_in_address as ends_in_address_lem, is_named, is_variable, in_expression, in_initialiser, in_option};
ghost use Rattle.floyd_elab_addresses.specs.PartClauses.{is_address as is_address_lem};
ghost use Rattle.floyd_elab_addresses.specs.SetClauses.{Adds};

use crate::taken::Taken;
use floyd_cparse_trees::{CExpr, Identifier, Prefix, PrefixOp};
use floyd_text::Place;
use std::alloc::AllocError;

impl Taken {
    /// Adds the variables to which `&` is applied in an expression. Its nesting bounds the depth of the calls.
    #[cycle(expression)]
    pub fn expression(&mut self, e: &CExpr) -> Result<(), AllocError>
        ensures { OnOk result (Adds (λ x. in_expression x e.now) self.old self.new) }
    {
        match e {
            CExpr::Name(_) | CExpr::Literal(_) | CExpr::SizeOf { .. } => Ok(()),
            CExpr::Parenthesised(inner) => self.expression(inner.get()),
            CExpr::Prefixed { prefixes, operand } => {
                self.address(prefixes.as_slice(), operand.get())?;
                self.expression(operand.get())
            }
            CExpr::PostfixStep { operand, .. } | CExpr::Member { operand, .. } => {
                self.expression(operand.get())
            }
            CExpr::Call {
                function,
                arguments,
                ..
            } => {
                self.expression(function.get())?;
                self.arguments(arguments.as_slice())
            }
            CExpr::Index {
                array: first,
                index: second,
                ..
            }
            | CExpr::Binary {
                left: first,
                right: second,
                ..
            }
            | CExpr::Assign {
                target: first,
                value: second,
                ..
            } => {
                self.expression(first.get())?;
                self.expression(second.get())
            }
            CExpr::Conditional {
                condition,
                then,
                otherwise,
                ..
            } => {
                self.expression(condition.get())?;
                self.expression(then.get())?;
                self.expression(otherwise.get())
            }
        }
    }

    #[cycle(expression)]
    fn arguments(&mut self, arguments: &[CExpr]) -> Result<(), AllocError>
        ensures { OnOk result (Adds (λ x. list_any (in_expression x) arguments.now) self.old self.new) }
    {
        'arguments: for argument in arguments {
            self.expression(argument)?;
        }
        Ok(())
    }

    /// Adds the variable that is the operand of these prefixes, where the last of them is `&`.
    fn address(&mut self, prefixes: &[Prefix], operand: &CExpr) -> Result<(), AllocError>
        ensures { OnOk result (Adds (λ x. ends_in_address_lem prefixes.now && is_variable x operand.now) self.old self.new) }
    {
        if !ends_in_address(prefixes) {
            return Ok(());
        }
        match variable(operand) {
            Some(identifier) => self.add(&identifier.name),
            None => Ok(()),
        }
    }

    pub fn optional(&mut self, e: &Option<CExpr>) -> Result<(), AllocError>
        ensures { OnOk result (Adds (λ x. in_option x e.now) self.old self.new) }
    {
        match e {
            Some(e) => self.expression(e),
            None => Ok(()),
        }
    }

    pub fn initialiser(&mut self, right: &Option<(Place, CExpr)>) -> Result<(), AllocError>
        ensures { OnOk result (Adds (λ x. in_initialiser x right.now) self.old self.new) }
    {
        match right {
            Some((_, e)) => self.expression(e),
            None => Ok(()),
        }
    }
}

fn ends_in_address(prefixes: &[Prefix]) -> bool
    ensures { result ≡ ends_in_address_lem prefixes.now }
{
    match prefixes.last() {
        Some(last) => is_address(last),
        None => false,
    }
}

fn is_address(prefix: &Prefix) -> bool
    ensures { result ≡ is_address_lem prefix.now }
{
    matches!(prefix, Prefix::Op(PrefixOp::Address, _))
}

/// The variable that an expression is, in parentheses or not.
fn variable(e: &CExpr) -> Option<&Identifier>
    ensures { (x : List ℕ) → is_variable x e.now ≡ is_named x (option_copied result) }
{
    match e {
        CExpr::Name(identifier) => Some(identifier),
        CExpr::Parenthesised(inner) => variable(inner.get()),
        _ => None,
    }
}
