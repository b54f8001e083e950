ghost use Rattle.floyd_text.specs.Gives.{RuleGives};
ghost use Rattle.floyd_stub_forward.specs.Forward.{evaluate as evaluate_lem};

use floyd_clight::Expr;
use floyd_int::Value;
use floyd_stub_assert::{Locals, Term};
use floyd_stub_goal::wrong_goal;
use floyd_text::{Code, No, RuleStop, Shown};
use std::alloc::Global;

/// The term of an expression: that of an int constant is its number, that of a temporary stands in LOCAL. No other is
/// built yet.
pub fn evaluate(alloc: Global, locals: &Locals, e: &Expr) -> Result<Term, RuleStop>
    ensures { RuleGives (λ t. t) result (evaluate_lem locals.now e.now) }
{
    match e {
        Expr::Const(Value::Vint(bits), _) => Ok(Term::vint(alloc, u64::from(*bits))?),
        Expr::Temp(name, _) => match locals.get(name) {
            Some(term) => Ok(term.share()?),
            None => Err(RuleStop::No(No {
                code: Code::UnknownTemp,
                shown: Shown::Name(name.share()?),
            })),
        },
        _ => Err(RuleStop::No(wrong_goal())),
    }
}
