ghost use Rattle.std.specs.Prelude.{◌≡◌, []};
ghost use Rattle.floyd_text.specs.Gives.{Gives};
ghost use Rattle.floyd_cparse_trees.specs.declared.expressions.CExpr.{Index as IndexOf, SizeOf as SizeOfType, Binary as BinaryOf, Conditional as ConditionalOf};
ghost use Rattle.floyd_cparse_trees.specs.declared.expressions.BinaryOp.TheVariants as binary;
ghost use Rattle.floyd_elab_expressions.specs.Behind.{behind, onto};
ghost use Rattle.floyd_elab_expressions.specs.LogicClauses.{op_of};
ghost use Rattle.floyd_elab_expressions.specs.Expressions.{expression as expression_lem, rvalue as rvalue_lem, with_prefixes as with_prefixes_lem};

use crate::logic::{
    Branches, Choice, Logical, Operands, Part, begin_conditional, begin_logical,
    conditional_result, end_logical,
};
use crate::operands::{Access, cast_of_operand, cast_type, field_of_operand, operator_of_operand};
use crate::operators::{
    binary_operator, identifier, literal, refuse_assignment, refuse_call, refuse_step, subscript,
};
use crate::progress::Progress;
use crate::reads::read;
use crate::translation::Translation;
use floyd_clight::{Expr, StmtList};
use floyd_cparse_trees::{BinaryOp, CExpr, Prefix, TypeName};
use floyd_ctypes::CType;
use floyd_ctyping::{Operand, sized_type};
use floyd_elab_names::Names;
use floyd_int::{IntKind, IntOp};
use floyd_text::{Halt, Place};
use sqlite_items::Items;
use std::alloc::Global;

/// An expression, which is not read yet. The statements before it go to the end of `out`.
#[cycle(expression)]
pub fn expression(
    alloc: Global,
    names: &Names,
    e: &CExpr,
    progress: &mut Progress,
    out: &mut StmtList,
) -> Result<Translation, Halt>
    ensures exact { Gives (λ a. (behind out.new a, progress.new)) result (onto out.old (expression_lem names.now e.now progress.old)) }
{
    match e {
        CExpr::Name(i) => identifier(alloc, i, names.meaning_of(&i.name)),
        CExpr::Literal(l) => Ok(literal(l)),
        CExpr::Parenthesised(inner) => expression(alloc, names, inner.get(), progress, out),
        CExpr::Prefixed { prefixes, operand } => with_prefixes(
            alloc,
            names,
            prefixes.as_slice(),
            operand.get(),
            progress,
            out,
        ),
        CExpr::SizeOf { place, type_name } => {
            size_of(alloc, names, *place, type_name.get(), progress)
        }
        CExpr::PostfixStep { operand, place, .. } => {
            let a = expression(alloc, names, operand.get(), progress, out)?;
            refuse_step(alloc, *place, a, progress)
        }
        CExpr::Index {
            array,
            place,
            index,
        } => {
            let parts = Operands {
                left: array.get(),
                place: *place,
                right: index.get(),
            };
            element(alloc, names, parts, progress, out)
        }
        CExpr::Call {
            function,
            place,
            arguments,
        } => {
            let a = expression(alloc, names, function.get(), progress, out)?;
            refuse_call(alloc, *place, arguments.len(), a)
        }
        CExpr::Member {
            operand,
            op,
            place,
            field,
        } => {
            let a = expression(alloc, names, operand.get(), progress, out)?;
            let access = Access {
                op: *op,
                place: *place,
                field,
            };
            field_of_operand(alloc, access, a, progress, out)
        }
        CExpr::Binary {
            left,
            op,
            place,
            right,
        } => {
            let parts = Operands {
                left: left.get(),
                place: *place,
                right: right.get(),
            };
            match op {
                BinaryOp::Int(op) => operation(alloc, names, *op, parts, progress, out),
                BinaryOp::And => logical(alloc, names, Logical::And, parts, progress, out),
                BinaryOp::Or => logical(alloc, names, Logical::Or, parts, progress, out),
            }
        }
        CExpr::Conditional {
            condition,
            place,
            then,
            otherwise,
        } => {
            let parts = Choice {
                condition: condition.get(),
                place: *place,
                then: then.get(),
                otherwise: otherwise.get(),
            };
            conditional(alloc, names, parts, progress, out)
        }
        CExpr::Assign { target, place, .. } => {
            let a = expression(alloc, names, target.get(), progress, out)?;
            refuse_assignment(alloc, *place, a)
        }
    }
}

/// The value of an expression.
#[cycle(expression)]
pub fn rvalue(
    alloc: Global,
    names: &Names,
    e: &CExpr,
    progress: &mut Progress,
    out: &mut StmtList,
) -> Result<Translation, Halt>
    ensures exact { Gives (λ a. (behind out.new a, progress.new)) result (onto out.old (rvalue_lem names.now e.now progress.old)) }
{
    let a = expression(alloc, names, e, progress, out)?;
    read(alloc, &a, progress, out)
}

/// Operators and casts before an operand, the last of which binds first.
#[cycle(expression)]
pub fn with_prefixes(
    alloc: Global,
    names: &Names,
    prefixes: &[Prefix],
    operand: &CExpr,
    progress: &mut Progress,
    out: &mut StmtList,
) -> Result<Translation, Halt>
    ensures exact { Gives (λ a. (behind out.new a, progress.new)) result (onto out.old (with_prefixes_lem names.now prefixes.now (expression_lem names.now operand.now) progress.old)) }
{
    let Some((first, rest)) = prefixes.split_first() else {
        return expression(alloc, names, operand, progress, out);
    };
    match first {
        Prefix::Op(op, place) => {
            let a = with_prefixes(alloc, names, rest, operand, progress, out)?;
            operator_of_operand(alloc, *op, *place, a, progress, out)
        }
        Prefix::Step(_, place) => {
            let a = with_prefixes(alloc, names, rest, operand, progress, out)?;
            refuse_step(alloc, *place, a, progress)
        }
        Prefix::Cast(n, place) => {
            let t = cast_type(alloc, names, *place, n, progress)?;
            let a = with_prefixes(alloc, names, rest, operand, progress, out)?;
            cast_of_operand(alloc, *place, &t, a, progress, out)
        }
    }
}

/// An operator between two operands.
#[cycle(expression)]
fn operation(
    alloc: Global,
    names: &Names,
    op: IntOp,
    parts: Operands<'_>,
    progress: &mut Progress,
    out: &mut StmtList,
) -> Result<Translation, Halt>
    ensures exact { Gives (λ a. (behind out.new a, progress.new)) result (onto out.old (expression_lem names.now (BinaryOf parts.entry.left.now (binary.Int op) parts.entry.place parts.entry.right.now) progress.old)) }
{
    let a = rvalue(alloc, names, parts.left, progress, out)?;
    let b = rvalue(alloc, names, parts.right, progress, out)?;
    binary_operator(alloc, op, parts.place, &a, &b, progress)
}

/// An element of an array.
#[cycle(expression)]
fn element(
    alloc: Global,
    names: &Names,
    parts: Operands<'_>,
    progress: &mut Progress,
    out: &mut StmtList,
) -> Result<Translation, Halt>
    ensures exact { Gives (λ a. (behind out.new a, progress.new)) result (onto out.old (expression_lem names.now (IndexOf parts.entry.left.now parts.entry.place parts.entry.right.now) progress.old)) }
{
    let a = rvalue(alloc, names, parts.left, progress, out)?;
    let i = rvalue(alloc, names, parts.right, progress, out)?;
    subscript(alloc, parts.place, &a, &i, progress)
}

/// `a && b` and `a || b`: the second is only tested where the first does not decide.
#[cycle(expression)]
fn logical(
    alloc: Global,
    names: &Names,
    op: Logical,
    parts: Operands<'_>,
    progress: &mut Progress,
    out: &mut StmtList,
) -> Result<Translation, Halt>
    ensures exact { Gives (λ a. (behind out.new a, progress.new)) result (onto out.old (expression_lem names.now (BinaryOf parts.entry.left.now (op_of op) parts.entry.place parts.entry.right.now) progress.old)) }
{
    let a = rvalue(alloc, names, parts.left, progress, out)?;
    let first = begin_logical(alloc, parts, &a, progress)?;
    let mut before = Items::new(alloc);
    let value = rvalue(alloc, names, parts.right, progress, &mut before)?;
    let second = Part { before, value };
    end_logical(alloc, op, parts, first, second, out)
}

/// `a ? b : c`: both branches set the next temporary.
#[cycle(expression)]
fn conditional(
    alloc: Global,
    names: &Names,
    parts: Choice<'_>,
    progress: &mut Progress,
    out: &mut StmtList,
) -> Result<Translation, Halt>
    ensures exact { Gives (λ a. (behind out.new a, progress.new)) result (onto out.old (expression_lem names.now (ConditionalOf parts.entry.condition.now parts.entry.place parts.entry.then.now parts.entry.otherwise.now) progress.old)) }
{
    let c = rvalue(alloc, names, parts.condition, progress, out)?;
    let choice = begin_conditional(alloc, parts, &c, progress)?;
    let mut before = Items::new(alloc);
    let value = rvalue(alloc, names, parts.then, progress, &mut before)?;
    let first = Part { before, value };
    let mut before = Items::new(alloc);
    let value = rvalue(alloc, names, parts.otherwise, progress, &mut before)?;
    let second = Part { before, value };
    let branches = Branches { first, second };
    conditional_result(alloc, parts.place, choice, branches, progress, out)
}

/// The size of a type.
fn size_of(
    alloc: Global,
    names: &Names,
    place: Place,
    n: &TypeName,
    progress: &mut Progress,
) -> Result<Translation, Halt>
    ensures exact { Gives (λ a. (behind [] a, progress.new)) result (expression_lem names.now (SizeOfType place n.now) progress.old) }
{
    let t = sized_type(alloc, names, &mut progress.tags, place, n)?;
    Ok(Translation {
        expr: Expr::SizeOf(t, CType::Int(IntKind::U64)),
        operand: Operand::value(CType::Int(IntKind::U64)),
    })
}
