ghost use Rattle.std.specs.Prelude.{◌≡◌, ◌+◌, ◌^◌, ◌≤◌, ◌++◌, ◌∷◌, [], None, IfOk, IfErr, OnOk};
ghost use Rattle.floyd_tree.specs.Made.{Gives, IsFault, built, fault, faults};
ghost use Rattle.floyd_tree.specs.Plain.{mentions, mentions_in, plains};
ghost use Rattle.floyd_tree_sorts.specs.Prints.{slot};
ghost use Rattle.floyd_tree.specs.Replace.{above, above_in, substituted, substituted_in};
ghost use Rattle.floyd_tree.specs.ReplaceClauses.{Changes, ChangesAll};

use crate::stop::MakeStop;
use crate::term::{Term, TermList, assemble, head, kids};
use floyd_text::{Name, Steps};
use floyd_tree_sorts::slot;
use sqlite_items::Items;
use std::alloc::Global;
use std::sync::ledger::Ledger;

/// The term with `by` in place of the variable. What does not mention the variable is shared.
#[tactic(auto, using(crate::proofs::Parts::unchanged))]
pub fn subst<L: Ledger>(
    alloc: Global,
    t: &Term,
    x: &Name,
    by: &Term,
    steps: &mut Steps<L>,
) -> Result<Term, MakeStop>
    ensures exact { Gives result (built (substituted x.now by.now t.now)) }
    ensures cost { steps.new ≤ steps.old + above x.now t.now }
{
    match change(alloc, t, x, 1 << slot(x), by, steps)? {
        Some(made) => Ok(made),
        None => Ok(t.share()?),
    }
}

/// The term with `by` in place of the variable, where it occurs. The variable is given with its bit.
#[cycle(subst)]
#[tactic(auto, using(crate::proofs::Summaries::not_mentioned, crate::proofs::Summaries::mentions_parts, crate::proofs::Parts::substituted_here, crate::proofs::Parts::substituted_below, crate::proofs::Parts::above_parts))]
fn change<L: Ledger>(
    alloc: Global,
    t: &Term,
    x: &Name,
    bit: u64,
    by: &Term,
    steps: &mut Steps<L>,
) -> Result<Option<Term>, MakeStop>
    requires { bit ≡ 2 ^ slot x.now }
    ensures exact { Changes result (mentions x.now t.now) (substituted x.now by.now t.now) }
    ensures cost { steps.new ≤ steps.old + above x.now t.now }
{
    if t.summary() & bit == 0 {
        return Ok(None);
    }
    if head(t).is_variable(x) {
        return Ok(Some(by.share()?));
    }
    let Some(kids) = change_all(alloc, kids(t).as_slice(), x, bit, by, steps)? else {
        return Ok(None);
    };
    let head = head(t).share()?;
    Ok(Some(assemble(alloc, head, kids, steps)?))
}

/// The same of terms in order, where the variable occurs in one of them.
#[cycle(subst)]
fn change_all<L: Ledger>(
    alloc: Global,
    terms: &[Term],
    x: &Name,
    bit: u64,
    by: &Term,
    steps: &mut Steps<L>,
) -> Result<Option<TermList>, MakeStop>
    requires { bit ≡ 2 ^ slot x.now }
    ensures exact { ChangesAll result (mentions_in x.now (plains terms.now)) (substituted_in x.now by.now (plains terms.now)) }
    ensures cost { steps.new ≤ steps.old + above_in x.now (plains terms.now) }
{
    let mut all = Vec::with_capacity(alloc, terms.len())?;
    let mut some = false;
    'terms: for term in terms {
        if put_change(alloc, term, x, bit, by, &mut all, steps)? {
            some = true;
        }
    }
    if some {
        Ok(Some(Items::from_vec(all)))
    } else {
        Ok(None)
    }
}

/// Puts the term at the end, with `by` in place of the variable, and says whether the variable occurs.
#[cycle(subst)]
#[tactic(auto, using(crate::proofs::Parts::unchanged))]
fn put_change<L: Ledger>(
    alloc: Global,
    term: &Term,
    x: &Name,
    bit: u64,
    by: &Term,
    all: &mut Vec<Term>,
    steps: &mut Steps<L>,
) -> Result<bool, MakeStop>
    requires { bit ≡ 2 ^ slot x.now }
    ensures occurs { IfOk result (λ occurs. occurs ≡ mentions x.now term.now) }
    ensures items { OnOk result (all.new.items ≡ all.old.items ++ substituted x.now by.now term.now ∷ []) }
    ensures ok { OnOk result (fault (substituted x.now by.now term.now) ≡ None) }
    ensures err { IfErr result (λ stop. IsFault stop (fault (substituted x.now by.now term.now))) }
    ensures cost { steps.new ≤ steps.old + above x.now term.now }
{
    match change(alloc, term, x, bit, by, steps)? {
        Some(made) => {
            all.push(made)?;
            Ok(true)
        }
        None => {
            all.push(term.share()?)?;
            Ok(false)
        }
    }
}
