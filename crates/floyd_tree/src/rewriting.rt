ghost use Rattle.std.specs.Prelude.{◌≡◌, ◌+◌, ◌≤◌, ◌<◌, IfOk, length, slice_set};
ghost use Rattle.floyd_tree.specs.Replace.{RewriteGives, rewritten};

use crate::stop::RewriteStop;
use crate::term::{Term, TermList, assemble, copies, head, kids};
use floyd_text::Steps;
use sqlite_items::Items;
use std::alloc::{AllocError, Global};
use std::sync::ledger::Ledger;

/// The term with `new` at the path. The path has the number of a kid for each level, from 0 at the root.
pub fn rewrite_at<L: Ledger>(
    alloc: Global,
    t: &Term,
    path: &[u32],
    new: &Term,
    steps: &mut Steps<L>,
) -> Result<Term, RewriteStop>
    ensures exact { RewriteGives result (rewritten path.now new.now t.now) }
    ensures cost { steps.new ≤ steps.old + length path.now }
{
    let [step, below @ ..] = path else {
        return Ok(new.share()?);
    };
    let step = *step as usize;
    let all = kids(t).as_slice();
    if step >= all.len() {
        return Err(RewriteStop::PathAbsent);
    }
    let kid = rewrite_at(alloc, &all[step], below, new, steps)?;
    let kids = with_kid(alloc, all, step, kid)?;
    let head = head(t).share()?;
    Ok(assemble(alloc, head, kids, steps)?)
}

/// The terms with that kid in its place.
fn with_kid(alloc: Global, terms: &[Term], place: usize, kid: Term) -> Result<TermList, AllocError>
    requires { place < length terms.now }
    ensures { IfOk result (λ all. all ≡ slice_set terms.now place kid) }
{
    let mut all = copies(alloc, terms)?;
    all[place] = kid;
    Ok(Items::from_vec(all))
}
