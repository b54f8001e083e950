ghost use Rattle.std.specs.Prelude.{◌≡◌};
ghost use Rattle.floyd_text.specs.Gives.{Gives};
ghost use Rattle.floyd_elab_expressions.specs.Behind.{behind};
ghost use Rattle.floyd_elab_expressions.specs.Expressions.{read as read_lem, pull_read as pull_read_lem, before_operator as before_operator_lem, before_member as before_member_lem};

use crate::nodes::is_memory;
use crate::progress::Progress;
use crate::translation::Translation;
use floyd_clight::{Expr, Stmt, StmtList};
use floyd_cparse_trees::{MemberOp, PrefixOp};
use floyd_ctyping::Operand;
use floyd_elab_names::is_scalar;
use floyd_text::Halt;
use std::alloc::Global;

/// The value of what was translated: a number or a pointer in memory is read.
pub fn read(
    alloc: Global,
    a: &Translation,
    progress: &mut Progress,
    out: &mut StmtList,
) -> Result<Translation, Halt>
    ensures exact { Gives (λ r. (behind out.new r, progress.new)) result (read_lem (behind out.old a.now) progress.old) }
{
    if is_memory(&a.expr) && is_scalar(&a.operand.ctype) {
        return pull_read(alloc, a, progress, out);
    }
    Ok(a.share(alloc)?)
}

/// Sets the next temporary to it.
fn pull_read(
    alloc: Global,
    a: &Translation,
    progress: &mut Progress,
    out: &mut StmtList,
) -> Result<Translation, Halt>
    ensures exact { Gives (λ r. (behind out.new r, progress.new)) result (pull_read_lem (behind out.old a.now) progress.old) }
{
    let t = a.operand.ctype.share(alloc)?;
    let x = progress.pull(alloc, t.share(alloc)?)?;
    out.push(Stmt::Set(x.share()?, a.expr.share(alloc)?))?;
    Ok(Translation {
        expr: Expr::Temp(x, t.share(alloc)?),
        operand: Operand::value(t),
    })
}

/// What an operator is applied to: `&` does not read it.
pub(crate) fn before_operator(
    alloc: Global,
    op: PrefixOp,
    a: &Translation,
    progress: &mut Progress,
    out: &mut StmtList,
) -> Result<Translation, Halt>
    ensures exact { Gives (λ r. (behind out.new r, progress.new)) result (before_operator_lem op (behind out.old a.now) progress.old) }
{
    match op {
        PrefixOp::Address => Ok(a.share(alloc)?),
        PrefixOp::Minus
        | PrefixOp::Plus
        | PrefixOp::Complement
        | PrefixOp::Not
        | PrefixOp::Dereference => read(alloc, a, progress, out),
    }
}

/// What a field is taken of: `.` does not read the struct before it.
pub(crate) fn before_member(
    alloc: Global,
    op: MemberOp,
    a: &Translation,
    progress: &mut Progress,
    out: &mut StmtList,
) -> Result<Translation, Halt>
    ensures exact { Gives (λ r. (behind out.new r, progress.new)) result (before_member_lem op (behind out.old a.now) progress.old) }
{
    match op {
        MemberOp::Dot => Ok(a.share(alloc)?),
        MemberOp::Arrow => read(alloc, a, progress, out),
    }
}
