//! Expressions as they are built from their parts.
ghost use Rattle.std.specs.Prelude.{◌≡◌, ◌<◌, ◌+◌, IfOk};
ghost use Rattle.floyd_cparse_expressions.specs.Expressions as e;
ghost use Rattle.floyd_cparse_trees.specs.declared.expressions.CExpr.TheVariants as w;
ghost use Rattle.floyd_cparse_expressions.specs.declared.values.Form.TheVariants as form;

use crate::values::{Arguments, Assigning, Chain, Ending, Form, Infix, Operand, Target};
use floyd_cparse_trees::{CExpr, Identifier, Literal, MemberOp, Prefix, StepOp, TypeName};
use floyd_text::Place;
use sqlite_items::{Boxed, Items};
use std::alloc::{AllocError, Global};

fn plain_end(count: u32) -> Ending
    ensures { result ≡ e.plain_end count }
{
    Ending {
        count,
        form: Form::Unary,
        effect: false,
        type_name: false,
    }
}

fn effect_end(count: u32) -> Ending
    ensures { result ≡ e.effect_end count }
{
    Ending {
        count,
        form: Form::Effect,
        effect: true,
        type_name: false,
    }
}

fn size_end(count: u32) -> Ending
    ensures { result ≡ e.size_end count }
{
    Ending {
        count,
        form: Form::Unary,
        effect: false,
        type_name: true,
    }
}

fn wide(end: Ending) -> Ending
    ensures { result ≡ record end { form = form.Wide } }
{
    Ending {
        form: Form::Wide,
        ..end
    }
}

/// With a prefix before what ends so.
fn with_prefix(prefix: &Prefix, end: Ending) -> Ending
    ensures { result ≡ e.with_prefix prefix.now end }
{
    match prefix {
        Prefix::Step(_, _) => Ending {
            form: Form::Effect,
            effect: true,
            ..end
        },
        Prefix::Op(_, _) | Prefix::Cast(_, _) => Ending {
            form: Form::Unary,
            ..end
        },
    }
}

fn end_with_prefixes(prefixes: &[Prefix], end: Ending) -> Ending
    ensures { result ≡ e.end_with_prefixes prefixes.now end }
{
    let mut end = end;
    let mut at = prefixes.len();
    'each: while at > 0 {
        at -= 1;
        end = with_prefix(&prefixes[at], end);
    }
    end
}

pub(crate) fn with_prefixes(
    alloc: Global,
    prefixes: Items<Prefix>,
    x: Operand,
) -> Result<Operand, AllocError>
    ensures { IfOk result (λ y. y ≡ e.with_prefixes prefixes x) }
{
    if prefixes.is_empty() {
        return Ok(x);
    }
    let end = end_with_prefixes(prefixes.as_slice(), x.end);
    let operand = Boxed::new(alloc, x.tree)?;
    Ok(Operand {
        tree: CExpr::Prefixed { prefixes, operand },
        end,
    })
}

pub(crate) fn binary_of(
    alloc: Global,
    op: Infix,
    x: Operand,
    y: Operand,
) -> Result<Operand, AllocError>
    ensures { IfOk result (λ z. z ≡ e.binary_of op x y) }
{
    let end = wide(y.end);
    Ok(Operand {
        tree: CExpr::Binary {
            left: Boxed::new(alloc, x.tree)?,
            op: op.op,
            place: op.place,
            right: Boxed::new(alloc, y.tree)?,
        },
        end,
    })
}

pub(crate) fn choice_of(
    alloc: Global,
    condition: Operand,
    place: Place,
    middle: Operand,
    last: Operand,
) -> Result<Operand, AllocError>
    ensures { IfOk result (λ z. z ≡ e.choice_of condition place middle last) }
{
    let end = wide(last.end);
    Ok(Operand {
        tree: CExpr::Conditional {
            condition: Boxed::new(alloc, condition.tree)?,
            place,
            then: Boxed::new(alloc, middle.tree)?,
            otherwise: Boxed::new(alloc, last.tree)?,
        },
        end,
    })
}

fn assign_to(alloc: Global, target: Target, value: CExpr) -> Result<CExpr, AllocError>
    ensures { IfOk result (λ z. z ≡ w.Assign target.tree target.by.op target.by.place value) }
{
    Ok(CExpr::Assign {
        target: Boxed::new(alloc, target.tree)?,
        op: target.by.op,
        place: target.by.place,
        value: Boxed::new(alloc, value)?,
    })
}

fn assign_all(alloc: Global, targets: Items<Target>, value: CExpr) -> Result<CExpr, AllocError>
    ensures { IfOk result (λ z. z ≡ e.assign_all targets value) }
{
    let mut targets = targets;
    let mut value = value;
    'each: while let Some(target) = targets.pop() {
        value = assign_to(alloc, target, value)?;
    }
    Ok(value)
}

pub(crate) fn chain_operand(alloc: Global, chain: Chain) -> Result<Operand, AllocError>
    ensures { IfOk result (λ z. z ≡ e.chain_operand chain) }
{
    let end = chain.last.end;
    let effect = end.effect || !chain.targets.is_empty();
    Ok(Operand {
        tree: assign_all(alloc, chain.targets, chain.last.tree)?,
        end: Ending { effect, ..end },
    })
}

pub(crate) fn assign(
    alloc: Global,
    x: Operand,
    by: Assigning,
    value: Operand,
) -> Result<CExpr, AllocError>
    ensures { IfOk result (λ z. z ≡ e.assign x by value) }
{
    Ok(CExpr::Assign {
        target: Boxed::new(alloc, x.tree)?,
        op: by.op,
        place: by.place,
        value: Boxed::new(alloc, value.tree)?,
    })
}

pub(crate) fn plus_target(chain: Chain, by: Assigning, value: Operand) -> Result<Chain, AllocError>
    ensures { IfOk result (λ z. z ≡ e.plus_target chain (by, value)) }
{
    let mut targets = chain.targets;
    targets.push(Target {
        tree: chain.last.tree,
        by,
    })?;
    Ok(Chain {
        targets,
        last: value,
    })
}

pub(crate) fn first_argument(alloc: Global, first: Operand) -> Result<Arguments, AllocError>
    ensures { IfOk result (λ z. z ≡ e.first_argument first) }
{
    let mut items = Items::new(alloc);
    items.push(first.tree)?;
    Ok(Arguments {
        items,
        end: first.end,
    })
}

pub(crate) fn plus_argument(all: Arguments, next: Operand) -> Result<Arguments, AllocError>
    ensures { IfOk result (λ z. z ≡ e.plus_argument all next) }
{
    let mut items = all.items;
    items.push(next.tree)?;
    Ok(Arguments {
        items,
        end: next.end,
    })
}

pub(crate) fn nothing_given(alloc: Global, count: u32) -> Arguments
    ensures { result ≡ e.nothing_given count }
{
    Arguments {
        items: Items::new(alloc),
        end: plain_end(count),
    }
}

pub(crate) fn subscript_of(
    alloc: Global,
    x: Operand,
    place: Place,
    index: Operand,
) -> Result<Operand, AllocError>
    ensures { IfOk result (λ z. z ≡ e.subscript_of x place index) }
{
    let end = plain_end(index.end.count);
    Ok(Operand {
        tree: CExpr::Index {
            array: Boxed::new(alloc, x.tree)?,
            place,
            index: Boxed::new(alloc, index.tree)?,
        },
        end,
    })
}

pub(crate) fn call_of(
    alloc: Global,
    x: Operand,
    place: Place,
    all: Arguments,
) -> Result<Operand, AllocError>
    ensures { IfOk result (λ z. z ≡ e.call_of x place all) }
{
    let end = effect_end(all.end.count);
    Ok(Operand {
        tree: CExpr::Call {
            function: Boxed::new(alloc, x.tree)?,
            place,
            arguments: all.items,
        },
        end,
    })
}

pub(crate) fn member_of(
    alloc: Global,
    x: Operand,
    op: MemberOp,
    place: Place,
    field: Identifier,
) -> Result<Operand, AllocError>
    requires { x.end.count < 1000 }
    ensures { IfOk result (λ z. z ≡ e.member_of x op place field) }
{
    let end = plain_end(x.end.count + 1);
    Ok(Operand {
        tree: CExpr::Member {
            operand: Boxed::new(alloc, x.tree)?,
            op,
            place,
            field,
        },
        end,
    })
}

pub(crate) fn step_of(
    alloc: Global,
    x: Operand,
    op: StepOp,
    place: Place,
) -> Result<Operand, AllocError>
    requires { x.end.count < 1000 }
    ensures { IfOk result (λ z. z ≡ e.step_of x op place) }
{
    let end = effect_end(x.end.count + 1);
    Ok(Operand {
        tree: CExpr::PostfixStep {
            operand: Boxed::new(alloc, x.tree)?,
            op,
            place,
        },
        end,
    })
}

pub(crate) fn name_operand(name: Identifier, count: u32) -> Operand
    ensures { result ≡ e.name_operand name count }
{
    Operand {
        tree: CExpr::Name(name),
        end: plain_end(count),
    }
}

pub(crate) fn constant(literal: Literal, count: u32) -> Operand
    ensures { result ≡ e.constant literal count }
{
    Operand {
        tree: CExpr::Literal(literal),
        end: plain_end(count),
    }
}

pub(crate) fn parentheses_of(alloc: Global, x: Operand) -> Result<Operand, AllocError>
    ensures { IfOk result (λ z. z ≡ e.parentheses_of x) }
{
    let end = plain_end(x.end.count);
    Ok(Operand {
        tree: CExpr::Parenthesised(Boxed::new(alloc, x.tree)?),
        end,
    })
}

pub(crate) fn size_operand(
    alloc: Global,
    place: Place,
    type_name: TypeName,
    count: u32,
) -> Result<Operand, AllocError>
    ensures { IfOk result (λ z. z ≡ e.size_operand place (type_name, count)) }
{
    Ok(Operand {
        tree: CExpr::SizeOf {
            place,
            type_name: Boxed::new(alloc, type_name)?,
        },
        end: size_end(count),
    })
}
