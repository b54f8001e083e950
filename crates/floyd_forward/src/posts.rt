ghost use Rattle.std.specs.Prelude.{◌≡◌, Some, IfOk, drop, []};
ghost use Rattle.std.specs.Option.{option_copied};
ghost use Rattle.floyd_forward.specs.Return.{claim as claim_lem, claimed as claimed_lem, of_value as of_value_lem, returned as returned_lem, with_claim as with_claim_lem};
ghost use Rattle.floyd_goal_changes.specs.Changed.{covering as covering_lem, first_term};
ghost use Rattle.floyd_symexpr_rows.specs.Formulas.{saying};
ghost use Rattle.floyd_text.specs.Gives.{RuleGives};

use floyd_assert::{
    Assertion, Sep, SepList, share_binders, share_formulas, share_locals, share_parts,
};
use floyd_assert_changes::rename_apart_from;
use floyd_goal_runs::{Return, say};
use floyd_text::{RuleStop, Steps};
use floyd_tree::{FormulaHead, FormulaList, Term};
use std::alloc::{AllocError, Global};
use std::sync::ledger::Ledger;

/// The postcondition with RETURN's term as one part more, before the others.
fn covering(alloc: Global, post: &Assertion, term: &Term) -> Result<Assertion, AllocError>
    ensures { IfOk result (λ a. a ≡ covering_lem post.now (Some term.now)) }
{
    let existentials = share_binders(alloc, post.existentials.as_slice())?;
    let props = share_formulas(alloc, post.props.as_slice())?;
    let locals = share_locals(alloc, post.locals.as_slice())?;
    let mut parts = SepList::new(alloc);
    parts.push(Sep::Valid(term.share()?))?;
    parts.append(share_parts(alloc, post.parts.as_slice())?)?;
    Ok(Assertion {
        existentials,
        props,
        locals,
        parts,
    })
}

/// That a value is RETURN's term, which is the first part.
fn claim<L: Ledger>(
    alloc: Global,
    v: &Term,
    parts: &[Sep],
    steps: &mut Steps<L>,
) -> Result<FormulaList, RuleStop>
    ensures exact { RuleGives (λ fs. fs) result (saying [] (claim_lem v.now (first_term parts.now))) }
{
    let mut all = FormulaList::new(alloc);
    if let [Sep::Valid(t), ..] = parts {
        let terms = [v.share()?, t.share()?];
        say(alloc, FormulaHead::Equal, &terms, &mut all, steps)?;
    }
    Ok(all)
}

/// The parts but the first one.
fn but_first(parts: &[Sep]) -> &[Sep]
    ensures { result.now ≡ drop 1 parts.now }
{
    match parts {
        [] => parts,
        [_, rest @ ..] => rest,
    }
}

/// The assertion with these formulas behind PROP, and without its first part.
fn with_claim(alloc: Global, a: &Assertion, more: FormulaList) -> Result<Assertion, AllocError>
    ensures { IfOk result (λ b. b ≡ with_claim_lem a.now more) }
{
    let existentials = share_binders(alloc, a.existentials.as_slice())?;
    let mut props = share_formulas(alloc, a.props.as_slice())?;
    props.append(more)?;
    let locals = share_locals(alloc, a.locals.as_slice())?;
    let parts = share_parts(alloc, but_first(a.parts.as_slice()))?;
    Ok(Assertion {
        existentials,
        props,
        locals,
        parts,
    })
}

/// The assertion, whose first part is RETURN's term, with the claim that this is the value.
#[tactic(auto, using(floyd_symexpr_rows::proofs::SayingLemmas::goes_on, floyd_symexpr_rows::proofs::SayingLemmas::stops))]
fn claimed<L: Ledger>(
    alloc: Global,
    v: &Term,
    a: &Assertion,
    steps: &mut Steps<L>,
) -> Result<Assertion, RuleStop>
    ensures exact { RuleGives (λ b. b) result (claimed_lem v.now a.now) }
{
    let more = claim(alloc, v, a.parts.as_slice(), steps)?;
    Ok(with_claim(alloc, a, more)?)
}

/// The postcondition of a value, which is RETURN's term.
#[tactic(auto, using(floyd_symexpr_rows::proofs::SayingLemmas::goes_on, floyd_symexpr_rows::proofs::SayingLemmas::stops))]
fn of_value<L: Ledger>(
    alloc: Global,
    v: &Term,
    post: &Assertion,
    term: &Term,
    steps: &mut Steps<L>,
) -> Result<Assertion, RuleStop>
    ensures exact { RuleGives (λ b. b) result (of_value_lem v.now post.now term.now) }
{
    let whole = covering(alloc, post, term)?;
    let apart = rename_apart_from(alloc, &whole, v, steps)?;
    claimed(alloc, v, &apart, steps)
}

/// The postcondition of a value, if there is one.
pub(crate) fn returned<L: Ledger>(
    alloc: Global,
    v: Option<&Term>,
    ret: &Return,
    steps: &mut Steps<L>,
) -> Result<Assertion, RuleStop>
    ensures exact { RuleGives (λ b. b) result (returned_lem (option_copied v.entry) ret.now.post ret.now.value) }
{
    let post = ret.post.get();
    let Some(v) = v else {
        return Ok(post.share(alloc)?);
    };
    match &ret.value {
        Some(term) => of_value(alloc, v, post, term, steps),
        None => Ok(post.share(alloc)?),
    }
}
