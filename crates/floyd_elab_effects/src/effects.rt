//! Assignments, steps and calls, and the right sides of assignments.
ghost use Rattle.std.specs.Prelude.{◌≡◌, List, [], ◌∷◌, ◌++◌, None as Plain, IfOk};
ghost use Rattle.floyd_clight.specs.declared.syntax.Stmt.{Stmt, Call};
ghost use Rattle.floyd_text.specs.Gives.{Gives};
ghost use Rattle.floyd_cparse_trees.specs.declared.expressions.CExpr.{Assign as AssignTo, Prefixed as PrefixedBy, PostfixStep as StepBehind, Call as CallOf};
ghost use Rattle.floyd_elab_names.specs.Scopes.{Scopes};
ghost use Rattle.floyd_elab_expressions.specs.declared.progress.Progress.{Progress as Kept};
ghost use Rattle.floyd_elab_expressions.specs.Behind.{behind, onto, put_behind};
ghost use Rattle.floyd_elab_expressions.specs.Clight.{cast_into as cast_into_lem, store as store_lem};
ghost use Rattle.floyd_elab_expressions.specs.Progress.{pull};
ghost use Rattle.floyd_elab_expressions.specs.Expressions.{rvalue as rvalue_lem};
ghost use Rattle.floyd_elab_effects.specs.CallClauses.{send_operation as send_operation_lem, call_with, on_target};
ghost use Rattle.floyd_elab_effects.specs.Effects.{send_to, update as update_lem, step_op as step_op_lem, literal_one as literal_one_lem, step_effect as step_effect_lem, call_result as call_result_lem, assignment as assignment_lem, first_assignment, right_side as right_side_lem, effect as effect_lem};

use crate::calls::{CallForm, CallParts, judge, parts_of_call};
use floyd_clight::{Expr, Stmt, StmtList};
use floyd_cparse_trees::{CExpr, Prefix, StepOp};
use floyd_ctypes::CType;
use floyd_ctyping::{Operand, fits_into, is_target};
use floyd_elab_expressions::{
    Progress, Translation, binary_operator, cast_into, expression, one, read, rvalue, store,
    with_prefixes,
};
use floyd_elab_names::Names;
use floyd_int::{IntKind, IntOp};
use floyd_text::{Halt, Name, Place};
use std::alloc::{AllocError, Global};

/// What an assignment goes to, and the place of its operator.
#[derive(Clone, Copy)]
pub struct Destination<'a> {
    pub place: Place,
    pub target: &'a Translation,
}

/// An assignment as it is written.
#[derive(Clone, Copy)]
struct Assignment<'a> {
    target: &'a CExpr,
    op: Option<IntOp>,
    place: Place,
    value: &'a CExpr,
}

/// `++` or `--`, and its place.
#[derive(Clone, Copy)]
struct Step {
    op: StepOp,
    place: Place,
}

/// An effect: an assignment, a step or a call. Its statements go to the end of `out`.
pub fn effect(
    alloc: Global,
    names: &Names,
    e: &CExpr,
    progress: &mut Progress,
    out: &mut StmtList,
) -> Result<(), Halt>
    ensures exact { Gives (λ u. (out.new, progress.new)) result (put_behind out.old (effect_lem names.now e.now progress.old)) }
{
    match e {
        CExpr::Assign {
            target,
            op,
            place,
            value,
        } => {
            let parts = Assignment {
                target: target.get(),
                op: *op,
                place: *place,
                value: value.get(),
            };
            assign(alloc, names, parts, progress, out)
        }
        CExpr::PostfixStep { operand, op, place } => {
            let step = Step {
                op: *op,
                place: *place,
            };
            postfix_effect(alloc, names, step, operand.get(), progress, out)
        }
        CExpr::Prefixed { prefixes, operand } => prefix_effect(
            alloc,
            names,
            prefixes.as_slice(),
            operand.get(),
            progress,
            out,
        ),
        CExpr::Call {
            function,
            place,
            arguments,
        } => {
            let form = CallForm {
                function: function.get(),
                place: *place,
                arguments: arguments.as_slice(),
            };
            lone_call(alloc, names, form, progress, out)
        }
        CExpr::Name(_)
        | CExpr::Literal(_)
        | CExpr::Parenthesised(_)
        | CExpr::SizeOf { .. }
        | CExpr::Index { .. }
        | CExpr::Member { .. }
        | CExpr::Binary { .. }
        | CExpr::Conditional { .. } => Ok(()),
    }
}

/// A right side: a call, or an expression.
pub fn right_side(
    alloc: Global,
    names: &Names,
    e: &CExpr,
    progress: &mut Progress,
    out: &mut StmtList,
) -> Result<Translation, Halt>
    ensures exact { Gives (λ a. (behind out.new a, progress.new)) result (onto out.old (right_side_lem names.now e.now progress.old)) }
{
    match e {
        CExpr::Call {
            function,
            place,
            arguments,
        } => {
            let form = CallForm {
                function: function.get(),
                place: *place,
                arguments: arguments.as_slice(),
            };
            used_call(alloc, names, form, progress, out)
        }
        CExpr::Name(_)
        | CExpr::Literal(_)
        | CExpr::Parenthesised(_)
        | CExpr::Prefixed { .. }
        | CExpr::SizeOf { .. }
        | CExpr::PostfixStep { .. }
        | CExpr::Index { .. }
        | CExpr::Member { .. }
        | CExpr::Binary { .. }
        | CExpr::Conditional { .. }
        | CExpr::Assign { .. } => rvalue(alloc, names, e, progress, out),
    }
}

/// The assignment of an initial value to its variable, at the place of the `=`.
pub fn assign_first(
    alloc: Global,
    names: &Names,
    to: Destination<'_>,
    e: &CExpr,
    progress: &mut Progress,
    out: &mut StmtList,
) -> Result<(), Halt>
    ensures exact { Gives (λ u. (out.new, progress.new)) result (put_behind out.old (first_assignment names.now to.entry.place e.now (behind [] to.entry.target.now) progress.old)) }
{
    judge(to.place, is_target(&to.target.operand))?;
    simple_assignment(alloc, names, to, e, progress, out)
}

/// `lv = r` and `lv op= r`.
fn assign(
    alloc: Global,
    names: &Names,
    parts: Assignment<'_>,
    progress: &mut Progress,
    out: &mut StmtList,
) -> Result<(), Halt>
    ensures exact { Gives (λ u. (out.new, progress.new)) result (put_behind out.old (effect_lem names.now (AssignTo parts.entry.target.now parts.entry.op parts.entry.place parts.entry.value.now) progress.old)) }
{
    let target = expression(alloc, names, parts.target, progress, out)?;
    assign_to(alloc, names, parts, &target, progress, out)
}

/// An assignment to what was translated, which is judged before what is assigned.
fn assign_to(
    alloc: Global,
    names: &Names,
    parts: Assignment<'_>,
    target: &Translation,
    progress: &mut Progress,
    out: &mut StmtList,
) -> Result<(), Halt>
    ensures exact { Gives (λ u. (out.new, progress.new)) result (on_target parts.entry.place (assignment_lem names.now parts.entry.place parts.entry.op parts.entry.value.now) (behind out.old target.now) progress.old) }
{
    judge(parts.place, is_target(&target.operand))?;
    let to = Destination {
        place: parts.place,
        target,
    };
    match parts.op {
        None => simple_assignment(alloc, names, to, parts.value, progress, out),
        Some(op) => {
            let operation = Operation { op, to };
            update(alloc, names, operation, parts.value, progress, out)
        }
    }
}

/// `++` and `--` behind an operand.
fn postfix_effect(
    alloc: Global,
    names: &Names,
    step: Step,
    operand: &CExpr,
    progress: &mut Progress,
    out: &mut StmtList,
) -> Result<(), Halt>
    ensures exact { Gives (λ u. (out.new, progress.new)) result (put_behind out.old (effect_lem names.now (StepBehind operand.now step.op step.place) progress.old)) }
{
    let target = expression(alloc, names, operand, progress, out)?;
    step_effect(alloc, step, &target, progress, out)
}

/// `++` and `--` before an operand. Other prefixes are no effect.
fn prefix_effect(
    alloc: Global,
    names: &Names,
    prefixes: &[Prefix],
    operand: &CExpr,
    progress: &mut Progress,
    out: &mut StmtList,
) -> Result<(), Halt>
    ensures exact { Gives (λ u. (out.new, progress.new)) result (put_behind out.old (effect_lem names.now (PrefixedBy prefixes.now operand.now) progress.old)) }
{
    let Some((first, rest)) = prefixes.split_first() else {
        return Ok(());
    };
    match first {
        Prefix::Step(op, place) => {
            let step = Step {
                op: *op,
                place: *place,
            };
            let target = with_prefixes(alloc, names, rest, operand, progress, out)?;
            step_effect(alloc, step, &target, progress, out)
        }
        Prefix::Op(_, _) | Prefix::Cast(_, _) => Ok(()),
    }
}

/// A call whose result is not used.
fn lone_call(
    alloc: Global,
    names: &Names,
    form: CallForm<'_>,
    progress: &mut Progress,
    out: &mut StmtList,
) -> Result<(), Halt>
    ensures exact { Gives (λ u. (out.new, progress.new)) result (put_behind out.old (effect_lem names.now (CallOf form.entry.function.now form.entry.place form.entry.arguments.now) progress.old)) }
{
    let call = parts_of_call(alloc, names, form, progress, out)?;
    push_call(None, call, out)?;
    Ok(())
}

/// A call whose result is used.
fn used_call(
    alloc: Global,
    names: &Names,
    form: CallForm<'_>,
    progress: &mut Progress,
    out: &mut StmtList,
) -> Result<Translation, Halt>
    ensures exact { Gives (λ a. (behind out.new a, progress.new)) result (onto out.old (right_side_lem names.now (CallOf form.entry.function.now form.entry.place form.entry.arguments.now) progress.old)) }
{
    let call = parts_of_call(alloc, names, form, progress, out)?;
    call_result(alloc, call, progress, out)
}

/// The result of a call goes to the next temporary.
fn call_result(
    alloc: Global,
    call: CallParts,
    progress: &mut Progress,
    out: &mut StmtList,
) -> Result<Translation, Halt>
    ensures exact { (scopes : Scopes) → Gives (λ a. (behind out.new a, progress.new)) result (call_result_lem scopes (call_with out.old call) progress.old) }
{
    let t = call.result.share(alloc)?;
    let x = draw_temporary(alloc, &t, progress)?;
    let name = x.share()?;
    push_call(Some(name), call, out)?;
    let own = t.share(alloc)?;
    Ok(Translation {
        expr: Expr::Temp(x, own),
        operand: Operand::value(t),
    })
}

/// A temporary of the next number.
fn draw_temporary(alloc: Global, t: &CType, progress: &mut Progress) -> Result<Name, Halt>
    ensures exact { Gives (λ x. (x, progress.new)) result (pull t.now progress.old) }
{
    let own = t.share(alloc)?;
    progress.pull(alloc, own)
}

/// A call goes to the end of the statements.
fn push_call(x: Option<Name>, call: CallParts, out: &mut StmtList) -> Result<(), AllocError>
    ensures { IfOk result (λ u. out.new ≡ out.old ++ Call x call.callee call.arguments ∷ []) }
{
    out.push(call.into_statement(x))?;
    Ok(())
}

/// `lv = r`, once what it goes to is judged.
fn simple_assignment(
    alloc: Global,
    names: &Names,
    to: Destination<'_>,
    r: &CExpr,
    progress: &mut Progress,
    out: &mut StmtList,
) -> Result<(), Halt>
    ensures exact { Gives (λ u. (out.new, progress.new)) result (assignment_lem names.now to.entry.place Plain r.now (behind out.old to.entry.target.now) progress.old) }
{
    let value = right_side(alloc, names, r, progress, out)?;
    send(alloc, to, &value, out)
}

/// An operator, and what its result goes to.
#[derive(Clone, Copy)]
struct Operation<'a> {
    op: IntOp,
    to: Destination<'a>,
}

/// `lv op= r`: what it goes to is read before the right side.
fn update(
    alloc: Global,
    names: &Names,
    operation: Operation<'_>,
    r: &CExpr,
    progress: &mut Progress,
    out: &mut StmtList,
) -> Result<(), Halt>
    ensures exact { Gives (λ u. (out.new, progress.new)) result (update_lem operation.entry.op operation.entry.to.place (behind out.old operation.entry.to.target.now) (rvalue_lem names.now r.now) progress.old) }
{
    let a = read(alloc, operation.to.target, progress, out)?;
    let b = rvalue(alloc, names, r, progress, out)?;
    send_operation(alloc, operation, &a, &b, progress, out)
}

/// `++` and `--` are `op= 1`.
fn step_effect(
    alloc: Global,
    step: Step,
    target: &Translation,
    progress: &mut Progress,
    out: &mut StmtList,
) -> Result<(), Halt>
    ensures exact { Gives (λ u. (out.new, progress.new)) result (step_effect_lem step.op step.place (behind out.old target.now) progress.old) }
{
    judge(step.place, is_target(&target.operand))?;
    let own = read(alloc, target, progress, out)?;
    let to = Destination {
        place: step.place,
        target,
    };
    let operation = Operation {
        op: step_op(step.op),
        to,
    };
    send_operation(alloc, operation, &own, &literal_one(), progress, out)
}

fn step_op(op: StepOp) -> IntOp
    ensures { result ≡ step_op_lem op }
{
    match op {
        StepOp::Increment => IntOp::Add,
        StepOp::Decrement => IntOp::Sub,
    }
}

fn literal_one() -> Translation
    ensures { (before : List Stmt) → behind before result ≡ record literal_one_lem { before = before } }
{
    Translation {
        expr: one(),
        operand: Operand::value(CType::Int(IntKind::I32)),
    }
}

/// The result of an operator goes to its target.
fn send_operation(
    alloc: Global,
    operation: Operation<'_>,
    a: &Translation,
    b: &Translation,
    progress: &Progress,
    out: &mut StmtList,
) -> Result<(), Halt>
    ensures exact { Gives (λ u. (out.new, progress.now)) result (send_operation_lem operation.entry.op operation.entry.to.place (behind [] operation.entry.to.target.now) (behind [] a.now) (behind out.old b.now) progress.now) }
{
    let sum = binary_operator(alloc, operation.op, operation.to.place, a, b, progress)?;
    send(alloc, operation.to, &sum, out)
}

/// The last statement of an effect: the value, cast where the types differ, goes to its target.
fn send(
    alloc: Global,
    to: Destination<'_>,
    value: &Translation,
    out: &mut StmtList,
) -> Result<(), Halt>
    ensures exact { (progress : Kept) → Gives (λ u. (out.new, progress)) result (send_to to.entry.place (behind [] to.entry.target.now) (behind [] value.now) out.old progress) }
{
    let fits = fits_into(alloc, &to.target.operand.ctype, &value.operand)?;
    judge(to.place, fits)?;
    push_store(alloc, to.target, value, out)?;
    Ok(())
}

/// The value, cast where the types differ, goes to its target.
fn push_store(
    alloc: Global,
    target: &Translation,
    value: &Translation,
    out: &mut StmtList,
) -> Result<(), AllocError>
    ensures { IfOk result (λ u. out.new ≡ out.old ++ store_lem target.now.expr (cast_into_lem target.now.operand.ctype (behind [] value.now)) ∷ []) }
{
    let e = cast_into(alloc, &target.operand.ctype, value)?;
    let stored = store(alloc, &target.expr, e)?;
    out.push(stored)?;
    Ok(())
}
