ghost use Rattle.std.specs.Prelude.{◌≡◌, IfOk};

use floyd_goal_runs::{Exit, Exits, Return};
use floyd_tree::Term;
use std::alloc::{AllocError, Global};

pub(crate) fn share_exit(exit: &Exit) -> Result<Exit, AllocError>
    ensures { IfOk result (λ e. e ≡ exit.now) }
{
    match exit {
        Exit::None => Ok(Exit::None),
        Exit::To(target) => Ok(Exit::To(target.share()?)),
        Exit::End => Ok(Exit::End),
    }
}

fn share_value(value: &Option<Term>) -> Result<Option<Term>, AllocError>
    ensures { IfOk result (λ v. v ≡ value.now) }
{
    match value {
        None => Ok(None),
        Some(term) => Ok(Some(term.share()?)),
    }
}

pub(crate) fn share_return(alloc: Global, ret: &Return) -> Result<Return, AllocError>
    ensures { IfOk result (λ r. r ≡ ret.now) }
{
    let post = ret.post.share()?;
    let value = share_value(&ret.value)?;
    let result = ret.result.share(alloc)?;
    let blocks = ret.blocks.share()?;
    Ok(Return {
        post,
        value,
        result,
        blocks,
    })
}

/// The same exits with another normal one.
pub(crate) fn with_normal(alloc: Global, exits: &Exits, normal: Exit) -> Result<Exits, AllocError>
    ensures { IfOk result (λ e. e ≡ record exits.now { normal = normal }) }
{
    let brk = share_exit(&exits.brk)?;
    let cont = share_exit(&exits.cont)?;
    let ret = share_return(alloc, &exits.ret)?;
    Ok(Exits {
        normal,
        brk,
        cont,
        ret,
    })
}
