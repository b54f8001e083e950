//! Expressions and their types, in the order in which the text has their parts.
ghost use Rattle.std.specs.Prelude.{◌≡◌};
ghost use Rattle.floyd_cparse_trees.specs.declared.expressions.BinaryOp.TheVariants as binary;
ghost use Rattle.floyd_elab_names.specs.Refusing.{GivesWith};
ghost use Rattle.floyd_ctyping.specs.Expressions.{literal_operand as literal_operand_lem, sized_type as sized_type_lem, prefixed_operand as prefixed_lem, binary_operand as joined_lem, element_operand as indexed_lem, conditional_operand as chosen_lem, operand_of as typed_lem};

use crate::judge::{binary_type, common_type, element_type};
use crate::operand::Operand;
use crate::operations::{
    cast_to, check_test, gives_object, gives_value, member, misfit, name_operand,
    nested_assignment, nested_call, nested_step, prefix_operator, standing_of,
};
use floyd_cparse_trees::{BinaryOp, CExpr, Literal, Prefix, TypeName};
use floyd_ctypes::CType;
use floyd_elab_names::{Names, Site, Tags, has_size, type_named};
use floyd_int::IntKind;
use floyd_text::{Halt, Place};
use std::alloc::Global;

/// A type that has a size, as `sizeof` names it at that place.
pub fn sized_type(
    alloc: Global,
    names: &Names,
    tags: &mut Tags,
    place: Place,
    n: &TypeName,
) -> Result<CType, Halt>
    ensures { GivesWith (λ t. t) result tags.new (sized_type_lem names.now place n.now tags.old) }
{
    let t = type_named(alloc, names, tags, &Site::sizeof(place), n)?;
    if !has_size(&tags.structs, &t) {
        return Err(misfit(place));
    }
    Ok(t)
}

fn literal_operand(l: &Literal) -> Operand
    ensures { result ≡ literal_operand_lem l.now }
{
    Operand {
        ctype: CType::Int(l.kind),
        standing: standing_of(l.value),
    }
}

/// An expression as its operator sees it.
#[cycle(walk)]
pub(crate) fn operand_of(
    alloc: Global,
    names: &Names,
    tags: &mut Tags,
    e: &CExpr,
) -> Result<Operand, Halt>
    ensures exact { GivesWith (λ a. a) result tags.new (typed_lem names.now e.now tags.old) }
{
    match e {
        CExpr::Name(i) => name_operand(alloc, i, names.meaning_of(&i.name)),
        CExpr::Literal(l) => Ok(literal_operand(l)),
        CExpr::Parenthesised(inner) => operand_of(alloc, names, tags, inner.get()),
        CExpr::Prefixed { prefixes, operand } => {
            prefixed_operand(alloc, names, tags, prefixes.as_slice(), operand.get())
        }
        CExpr::SizeOf { place, type_name } => {
            sized_type(alloc, names, tags, *place, type_name.get())?;
            Ok(Operand::value(CType::Int(IntKind::U64)))
        }
        CExpr::PostfixStep { operand, place, .. } => {
            let a = operand_of(alloc, names, tags, operand.get())?;
            nested_step(alloc, tags, *place, &a)
        }
        CExpr::Index {
            array,
            place,
            index,
        } => element(alloc, names, tags, array.get(), *place, index.get()),
        CExpr::Call {
            function,
            place,
            arguments,
        } => {
            let a = operand_of(alloc, names, tags, function.get())?;
            nested_call(alloc, *place, arguments.len(), &a)
        }
        CExpr::Member {
            operand,
            op,
            place,
            field,
        } => {
            let a = operand_of(alloc, names, tags, operand.get())?;
            member(alloc, tags, *op, *place, field, &a)
        }
        CExpr::Binary {
            left,
            op,
            place,
            right,
        } => {
            let operator = Operator {
                op: *op,
                place: *place,
            };
            binary_operand(alloc, names, tags, left.get(), operator, right.get())
        }
        CExpr::Conditional {
            condition,
            place,
            then,
            otherwise,
        } => {
            let choice = Choice {
                condition: condition.get(),
                then: then.get(),
                otherwise: otherwise.get(),
            };
            conditional(alloc, names, tags, *place, choice)
        }
        CExpr::Assign { target, place, .. } => {
            let a = operand_of(alloc, names, tags, target.get())?;
            nested_assignment(*place, &a)
        }
    }
}

/// Operators and casts before an operand, the last of which binds first. The type of a cast comes before the operand.
#[cycle(walk)]
fn prefixed_operand(
    alloc: Global,
    names: &Names,
    tags: &mut Tags,
    prefixes: &[Prefix],
    operand: &CExpr,
) -> Result<Operand, Halt>
    ensures exact { GivesWith (λ a. a) result tags.new (prefixed_lem names.now prefixes.now (typed_lem names.now operand.now) tags.old) }
{
    let Some((first, rest)) = prefixes.split_first() else {
        return operand_of(alloc, names, tags, operand);
    };
    match first {
        Prefix::Op(op, place) => {
            let a = prefixed_operand(alloc, names, tags, rest, operand)?;
            prefix_operator(alloc, *op, *place, &a)
        }
        Prefix::Step(_, place) => {
            let a = prefixed_operand(alloc, names, tags, rest, operand)?;
            nested_step(alloc, tags, *place, &a)
        }
        Prefix::Cast(n, place) => {
            let t = type_named(alloc, names, tags, &Site::parenthesis(*place), n)?;
            let a = prefixed_operand(alloc, names, tags, rest, operand)?;
            cast_to(alloc, *place, &t, &a)
        }
    }
}

/// An operator between two operands, and its place.
#[derive(Clone, Copy)]
struct Operator {
    op: BinaryOp,
    place: Place,
}

/// The parts of `a ? b : c`.
#[derive(Clone, Copy)]
struct Choice<'a> {
    condition: &'a CExpr,
    then: &'a CExpr,
    otherwise: &'a CExpr,
}

/// An operator between two operands.
#[cycle(walk)]
fn binary_operand(
    alloc: Global,
    names: &Names,
    tags: &mut Tags,
    left: &CExpr,
    operator: Operator,
    right: &CExpr,
) -> Result<Operand, Halt>
    ensures exact { GivesWith (λ a. a) result tags.new (joined_lem names.now operator.op operator.place (typed_lem names.now left.now) (typed_lem names.now right.now) tags.old) }
{
    match operator.op {
        BinaryOp::Int(op) => {
            let a = operand_of(alloc, names, tags, left)?;
            let b = operand_of(alloc, names, tags, right)?;
            gives_value(
                operator.place,
                binary_type(alloc, &tags.structs, op, &a, &b)?,
            )
        }
        BinaryOp::And | BinaryOp::Or => logical(alloc, names, tags, left, operator.place, right),
    }
}

/// `a && b` and `a || b`: each test is judged directly behind it.
#[cycle(walk)]
fn logical(
    alloc: Global,
    names: &Names,
    tags: &mut Tags,
    left: &CExpr,
    place: Place,
    right: &CExpr,
) -> Result<Operand, Halt>
    ensures exact { GivesWith (λ a. a) result tags.new (joined_lem names.now binary.And place (typed_lem names.now left.now) (typed_lem names.now right.now) tags.old) }
{
    let a = operand_of(alloc, names, tags, left)?;
    check_test(alloc, place, &a)?;
    let b = operand_of(alloc, names, tags, right)?;
    check_test(alloc, place, &b)?;
    Ok(Operand::value(CType::Int(IntKind::I32)))
}

/// An element of an array.
#[cycle(walk)]
fn element(
    alloc: Global,
    names: &Names,
    tags: &mut Tags,
    array: &CExpr,
    place: Place,
    index: &CExpr,
) -> Result<Operand, Halt>
    ensures exact { GivesWith (λ a. a) result tags.new (indexed_lem names.now place (typed_lem names.now array.now) (typed_lem names.now index.now) tags.old) }
{
    let a = operand_of(alloc, names, tags, array)?;
    let i = operand_of(alloc, names, tags, index)?;
    gives_object(place, element_type(alloc, &tags.structs, &a, &i)?)
}

/// `a ? b : c`.
#[cycle(walk)]
fn conditional(
    alloc: Global,
    names: &Names,
    tags: &mut Tags,
    place: Place,
    choice: Choice<'_>,
) -> Result<Operand, Halt>
    ensures exact { GivesWith (λ a. a) result tags.new (chosen_lem names.now place (typed_lem names.now choice.entry.condition.now) (typed_lem names.now choice.entry.then.now) (typed_lem names.now choice.entry.otherwise.now) tags.old) }
{
    let c = operand_of(alloc, names, tags, choice.condition)?;
    check_test(alloc, place, &c)?;
    let a = operand_of(alloc, names, tags, choice.then)?;
    let b = operand_of(alloc, names, tags, choice.otherwise)?;
    gives_value(place, common_type(alloc, &a, &b)?)
}
