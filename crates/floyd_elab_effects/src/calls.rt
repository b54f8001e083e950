ghost use Rattle.std.specs.Prelude.{◌≡◌, List, [], None, Some, MatchOption, option_and_then};
ghost use Rattle.floyd_text.specs.Gives.{Gives};
ghost use Rattle.floyd_elab_names.specs.Refusing.{unless};
ghost use Rattle.floyd_elab_names.specs.Refusals.{ill_typed as ill_typed_lem};
ghost use Rattle.floyd_ctyping.specs.Operators.{with_count, signature_of};
ghost use Rattle.floyd_clight.specs.declared.syntax.Stmt.{Stmt as Stated, Call as CallOf};
ghost use Rattle.floyd_elab_expressions.specs.Behind.{behind};
ghost use Rattle.floyd_elab_expressions.specs.declared.progress.Progress.{Progress as Kept};
ghost use Rattle.floyd_elab_effects.specs.CallClauses.{one_argument as one_argument_lem, all_arguments as all_arguments_lem, arguments_to as arguments_to_lem, fit_then, callee_then, call_of, signature_in, one_behind, all_behind, to_behind, call_behind, call_with};

use floyd_clight::{Expr, ExprList, Stmt, StmtList};
use floyd_cparse_trees::CExpr;
use floyd_ctypes::CType;
use floyd_ctyping::fits_into;
use floyd_elab_expressions::{Progress, Translation, cast_into, rvalue};
use floyd_elab_names::{Names, ill_typed, pointee};
use floyd_text::{Halt, Name, Place};
use sqlite_items::Items;
use std::alloc::Global;

/// A call as it is written: what is called, the place of its parenthesis, and what is passed.
#[derive(Clone, Copy)]
pub(crate) struct CallForm<'a> {
    pub(crate) function: &'a CExpr,
    pub(crate) place: Place,
    pub(crate) arguments: &'a [CExpr],
}

/// The type of a parameter, and the place of the call's parenthesis.
#[derive(Clone, Copy)]
struct Parameter<'a> {
    place: Place,
    ctype: &'a CType,
}

/// What is called, what is passed, and the type of the result. The statements before the call stand elsewhere.
pub(crate) struct CallParts {
    pub(crate) callee: Expr,
    pub(crate) arguments: ExprList,
    pub(crate) result: CType,
}

impl CallParts {
    /// The call, which sets this temporary.
    pub(crate) fn into_statement(self, x: Option<Name>) -> Stmt
        ensures { result ≡ CallOf x self.callee self.arguments }
    {
        let CallParts {
            callee,
            arguments,
            result,
        } = self;
        drop(result);
        Stmt::Call(x, callee, arguments)
    }
}

impl Drop for CallParts {
    fn drop(self) {
        let CallParts {
            callee,
            arguments,
            result,
        } = self;
        drop(callee);
        drop(arguments);
        drop(result);
    }
}

/// Refuses what does not fit as ill typed at this place.
pub(crate) fn judge(place: Place, fits: bool) -> Result<(), Halt>
    ensures exact { (progress : Kept) → Gives (λ u. (u, progress)) result (unless (ill_typed_lem place) fits progress) }
{
    if fits {
        Ok(())
    } else {
        Err(Halt::Refused(ill_typed(place)))
    }
}

/// A call of so many arguments. Its callee and their number are judged before them.
pub(crate) fn parts_of_call(
    alloc: Global,
    names: &Names,
    form: CallForm<'_>,
    progress: &mut Progress,
    out: &mut StmtList,
) -> Result<CallParts, Halt>
    ensures exact { Gives (λ c. (call_with out.new c, progress.new)) result (call_behind out.old (call_of names.now form.entry.function.now form.entry.place form.entry.arguments.now progress.old)) }
{
    let f = rvalue(alloc, names, form.function, progress, out)?;
    call_through(alloc, names, form, &f, progress, out)
}

/// A call of what was translated.
fn call_through(
    alloc: Global,
    names: &Names,
    form: CallForm<'_>,
    f: &Translation,
    progress: &mut Progress,
    out: &mut StmtList,
) -> Result<CallParts, Halt>
    ensures exact { Gives (λ c. (call_with out.new c, progress.new)) result (callee_then names.now form.entry.place form.entry.arguments.now (behind out.old f.now) progress.old) }
{
    let callee = f.expr.share(alloc)?;
    let t = f.operand.value_type(alloc)?;
    let (passed, result) = arguments_to(alloc, names, form, &t, progress, out)?;
    Ok(CallParts {
        callee,
        arguments: passed,
        result,
    })
}

/// What is passed to what a value of this type calls, and the type of the result.
fn arguments_to(
    alloc: Global,
    names: &Names,
    form: CallForm<'_>,
    t: &CType,
    progress: &mut Progress,
    out: &mut StmtList,
) -> Result<(ExprList, CType), Halt>
    ensures exact { Gives (λ r. (((out.new, r.0), r.1), progress.new)) result (to_behind out.old (arguments_to_lem names.now form.entry.place t.now form.entry.arguments.now progress.old)) }
{
    match signature(t, form.arguments.len()) {
        Some((parameters, result)) => {
            let own = result.share(alloc)?;
            let all = all_arguments(alloc, names, form, parameters, progress, out)?;
            Ok((all, own))
        }
        None => Err(Halt::Refused(ill_typed(form.place))),
    }
}

/// The parameters and the result of what a value of this type calls, where it has so many parameters.
fn signature(t: &CType, count: usize) -> Option<(&[CType], &CType)>
    ensures { MatchOption result (signature_in count t.now ≡ None) (λ s. signature_in count t.now ≡ Some (s.0.now, s.1.now)) }
{
    match pointee(t) {
        Some(to) => function_signature(to, count),
        None => None,
    }
}

/// The same of a function's type.
#[tactic(auto, using(crate::proofs::CallLemmas::signature_of_function))]
fn function_signature(t: &CType, count: usize) -> Option<(&[CType], &CType)>
    ensures { MatchOption result (option_and_then (with_count count) (signature_of t.now) ≡ None) (λ s. option_and_then (with_count count) (signature_of t.now) ≡ Some (s.0.now, s.1.now)) }
{
    match t {
        CType::Function(parameters, result) => {
            if parameters.len() == count {
                Some((parameters.as_slice(), result.get()))
            } else {
                None
            }
        }
        _ => None,
    }
}

/// Arguments for parameters of these types.
fn all_arguments(
    alloc: Global,
    names: &Names,
    form: CallForm<'_>,
    parameters: &[CType],
    progress: &mut Progress,
    out: &mut StmtList,
) -> Result<ExprList, Halt>
    ensures exact { Gives (λ all. ((out.new, all), progress.new)) result (all_behind out.old [] (all_arguments_lem names.now form.entry.place parameters.now form.entry.arguments.now progress.old)) }
{
    let mut all = Items::new(alloc);
    let mut left = parameters;
    'arguments: for argument in form.arguments {
        let Some((ctype, more)) = left.split_first() else {
            return Ok(all);
        };
        let parameter = Parameter {
            place: form.place,
            ctype,
        };
        let passed = one_argument(alloc, names, parameter, argument, progress, out)?;
        all.push(passed)?;
        left = more;
    }
    Ok(all)
}

/// An argument for a parameter. Its fit is judged directly behind it, at the call's parenthesis.
fn one_argument(
    alloc: Global,
    names: &Names,
    parameter: Parameter<'_>,
    argument: &CExpr,
    progress: &mut Progress,
    out: &mut StmtList,
) -> Result<Expr, Halt>
    ensures exact { Gives (λ e. ((out.new, e), progress.new)) result (one_behind out.old (one_argument_lem names.now parameter.entry.place parameter.entry.ctype.now argument.now progress.old)) }
{
    let a = rvalue(alloc, names, argument, progress, out)?;
    fit_argument(alloc, parameter, &a)
}

/// What is passed for a value that was translated.
fn fit_argument(alloc: Global, parameter: Parameter<'_>, a: &Translation) -> Result<Expr, Halt>
    ensures exact { (before : List Stated) (progress : Kept) → Gives (λ e. ((before, e), progress)) result (fit_then parameter.entry.place parameter.entry.ctype.now (behind before a.now) progress) }
{
    let fits = fits_into(alloc, parameter.ctype, &a.operand)?;
    judge(parameter.place, fits)?;
    Ok(cast_into(alloc, parameter.ctype, a)?)
}
