ghost use Rattle.std.specs.Prelude.{◌≡◌};
ghost use Rattle.floyd_clight.specs.Types.{type_of};
ghost use Rattle.floyd_fieldpath.specs.Written.{on_ok};
ghost use Rattle.floyd_text.specs.Gives.{RuleGives};
ghost use Rattle.floyd_symexpr_paths.specs.Places.{object_value as object_value_lem};
ghost use Rattle.floyd_symexpr.specs.Expressions.{behind_type as behind_type_lem, elements as elements_lem, read, sum_behind as sum_behind_lem};

use crate::names::{
    constant_of, has_array_type, has_pointer_type, is_add, is_null_cast, kind_of, size_of,
    temporary,
};
use crate::operations::{
    Argument, Setting, element_at, field_of, first_element, object_term, operated_cast,
    operated_one, operated_two,
};
use floyd_clight::Expr;
use floyd_ctypes::CType;
use floyd_symexpr_paths::{Lvalue, address_row, elements_at, no_part, pointed, variable};
use floyd_symexpr_rows::{Needs, not_number, null_pointer};
use floyd_text::{RuleStop, Steps};
use floyd_tree::Term;
use std::sync::ledger::Ledger;

/// The term of an expression. What it needs is put behind what was needed before.
#[cycle(read)]
pub(crate) fn value<L: Ledger>(
    at: Setting<'_>,
    e: &Expr,
    needs: &mut Needs,
    steps: &mut Steps<L>,
) -> Result<Term, RuleStop>
    ensures exact { RuleGives (λ t. (t, needs.new)) result ((read at.entry.source.now at.entry.structs.now e.now).value needs.old) }
{
    match e {
        Expr::Const(v, t) => constant_of(at.alloc, t, *v, steps),
        Expr::Temp(name, _) => temporary(at.source.locals.as_slice(), name),
        Expr::Var(_, _, _) => value_of_object(at, e, needs, steps),
        Expr::Deref(_, _) => value_of_object(at, e, needs, steps),
        Expr::Field(_, _, _) => value_of_object(at, e, needs, steps),
        Expr::AddrOf(object, _) => {
            let l = place(at, object.get(), needs, steps)?;
            address_row(at.alloc, at.structs, &l, needs, steps)
        }
        Expr::Unary(op, operand, _) => {
            let a = operand.get();
            let v = value(at, a, needs, steps)?;
            let v = Argument {
                expression: a,
                term: &v,
            };
            operated_one(at.alloc, *op, v, needs, steps)
        }
        Expr::Binary(op, left, right, _) => {
            let a = left.get();
            let b = right.get();
            let v = value(at, a, needs, steps)?;
            let w = value(at, b, needs, steps)?;
            let v = Argument {
                expression: a,
                term: &v,
            };
            let w = Argument {
                expression: b,
                term: &w,
            };
            operated_two(at, *op, v, w, needs, steps)
        }
        Expr::Cast(operand, t) => {
            let a = operand.get();
            if is_null_cast(t, a) {
                return null_pointer(at.alloc, steps);
            }
            let v = value(at, a, needs, steps)?;
            let v = Argument {
                expression: a,
                term: &v,
            };
            operated_cast(at.alloc, v, t, needs, steps)
        }
        Expr::SizeOf(of, _) => size_of(at.alloc, at.structs, of, steps),
    }
}

/// The term of an expression that stands for an object.
#[cycle(read)]
fn value_of_object<L: Ledger>(
    at: Setting<'_>,
    e: &Expr,
    needs: &mut Needs,
    steps: &mut Steps<L>,
) -> Result<Term, RuleStop>
    ensures exact { RuleGives (λ t. (t, needs.new)) result (on_ok ((read at.entry.source.now at.entry.structs.now e.now).place needs.old) (λ l. object_value_lem at.entry.structs.now (type_of e.now) l.0 l.1)) }
{
    let l = place(at, e, needs, steps)?;
    object_term(at, e, &l, needs, steps)
}

/// The object that an expression stands for.
#[cycle(read)]
pub(crate) fn place<L: Ledger>(
    at: Setting<'_>,
    e: &Expr,
    needs: &mut Needs,
    steps: &mut Steps<L>,
) -> Result<Lvalue, RuleStop>
    ensures exact { RuleGives (λ l. (l, needs.new)) result ((read at.entry.source.now at.entry.structs.now e.now).place needs.old) }
{
    match e {
        Expr::Var(binding, name, t) => Ok(variable(at.alloc, *binding, name, t, steps)?),
        Expr::Deref(pointer, t) => behind(at, pointer.get(), t, needs, steps),
        Expr::Field(object, name, _) => {
            let a = object.get();
            let whole = place(at, a, needs, steps)?;
            Ok(field_of(at.alloc, a, name, whole, steps)?)
        }
        _ => Err(RuleStop::No(no_part())),
    }
}

/// The object of this type to which the value of an expression leads.
#[cycle(read)]
fn behind<L: Ledger>(
    at: Setting<'_>,
    e: &Expr,
    t: &CType,
    needs: &mut Needs,
    steps: &mut Steps<L>,
) -> Result<Lvalue, RuleStop>
    ensures exact { RuleGives (λ l. (l, needs.new)) result ((read at.entry.source.now at.entry.structs.now e.now).behind t.now needs.old) }
{
    match e {
        Expr::Binary(op, left, right, _) => {
            if is_add(*op) {
                return sum_behind(at, left.get(), right.get(), t, needs, steps);
            }
            behind_type(at, e, t, needs, steps)
        }
        _ => behind_type(at, e, t, needs, steps),
    }
}

/// The same of what is no sum.
#[cycle(read)]
fn behind_type<L: Ledger>(
    at: Setting<'_>,
    e: &Expr,
    t: &CType,
    needs: &mut Needs,
    steps: &mut Steps<L>,
) -> Result<Lvalue, RuleStop>
    ensures exact { RuleGives (λ l. (l, needs.new)) result (behind_type_lem (type_of e.now) (read at.entry.source.now at.entry.structs.now e.now).place (read at.entry.source.now at.entry.structs.now e.now).value t.now needs.old) }
{
    if has_array_type(e) {
        let l = place(at, e, needs, steps)?;
        return Ok(first_element(at.alloc, t, l, steps)?);
    }
    let v = value(at, e, needs, steps)?;
    Ok(pointed(at.alloc, v, t)?)
}

/// The elements of an array, or the objects of this type to which a pointer leads.
#[cycle(read)]
fn elements<L: Ledger>(
    at: Setting<'_>,
    e: &Expr,
    t: &CType,
    needs: &mut Needs,
    steps: &mut Steps<L>,
) -> Result<Lvalue, RuleStop>
    ensures exact { RuleGives (λ l. (l, needs.new)) result (elements_lem at.entry.source.now at.entry.structs.now (type_of e.now) t.now (read at.entry.source.now at.entry.structs.now e.now) needs.old) }
{
    if has_array_type(e) {
        return place(at, e, needs, steps);
    }
    if has_pointer_type(e) {
        let v = value(at, e, needs, steps)?;
        return Ok(elements_at(at.alloc, v, t)?);
    }
    Err(RuleStop::No(not_number()))
}

/// The object behind the sum of a number and an address.
#[cycle(read)]
fn sum_behind<L: Ledger>(
    at: Setting<'_>,
    a: &Expr,
    b: &Expr,
    t: &CType,
    needs: &mut Needs,
    steps: &mut Steps<L>,
) -> Result<Lvalue, RuleStop>
    ensures exact { RuleGives (λ l. (l, needs.new)) result (sum_behind_lem at.entry.source.now at.entry.structs.now (type_of a.now) (type_of b.now) (read at.entry.source.now at.entry.structs.now a.now) (read at.entry.source.now at.entry.structs.now b.now) t.now needs.old) }
{
    if let Some(kind) = kind_of(a) {
        let v = value(at, a, needs, steps)?;
        let l = elements(at, b, t, needs, steps)?;
        return element_at(at.alloc, t, kind, &v, l, steps);
    }
    if let Some(kind) = kind_of(b) {
        let l = elements(at, a, t, needs, steps)?;
        let v = value(at, b, needs, steps)?;
        return element_at(at.alloc, t, kind, &v, l, steps);
    }
    Err(RuleStop::No(not_number()))
}
