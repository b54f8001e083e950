ghost use Rattle.std.specs.Prelude.{◌≡◌, IfOk, Some, drop};
ghost use Rattle.floyd_assert_changes.specs.Changed.{AssertionSortsAgree};
ghost use Rattle.floyd_goal_changes.specs.Changed.{ExitSortsAgree, ExitsSortsAgree, covering as covering_lem, exit_with, exits_with, first_term as first_term_lem, return_with, uncovered as uncovered_lem, ways_with};
ghost use Rattle.floyd_text.specs.Gives.{RuleGives};
ghost use Rattle.floyd_truth.specs.Replace.{puts};

use floyd_assert_changes::change_assertion;
use floyd_assert_trees::{
    Assertion, Sep, SepList, share_binders, share_formulas, share_locals, share_parts,
};
use floyd_goal_trees::{Exit, Exits, Return};
use floyd_text::{Name, RuleStop, Shared, Steps};
use floyd_tree::Term;
use std::alloc::{AllocError, Global};
use std::sync::ledger::Ledger;

fn change_exit<L: Ledger>(
    alloc: Global,
    exit: &Exit,
    by: &[(Name, Term)],
    steps: &mut Steps<L>,
) -> Result<Exit, RuleStop>
    requires { ExitSortsAgree (puts by.now) exit.now }
    ensures exact { RuleGives (λ e. e) result (exit_with by.now exit.now) }
{
    match exit {
        Exit::None => Ok(Exit::None),
        Exit::To(assertion) => match change_assertion(alloc, assertion.get(), by, steps) {
            Ok(changed) => Ok(Exit::To(Shared::new(alloc, changed)?)),
            Err(stop) => Err(stop),
        },
        Exit::End => Ok(Exit::End),
    }
}

/// The postcondition with the term as one part more, before the others.
fn before_parts(alloc: Global, post: &Assertion, term: &Term) -> Result<Assertion, AllocError>
    ensures { IfOk result (λ a. a ≡ covering_lem post.now (Some term.now)) }
{
    let existentials = share_binders(alloc, post.existentials.as_slice())?;
    let props = share_formulas(alloc, post.props.as_slice())?;
    let locals = share_locals(alloc, post.locals.as_slice())?;
    let mut parts = SepList::new(alloc);
    parts.push(Sep::Valid(term.share()?))?;
    parts.append(share_parts(alloc, post.parts.as_slice())?)?;
    Ok(Assertion {
        existentials,
        props,
        locals,
        parts,
    })
}

/// The postcondition with RETURN's term, if there is one, as one part more, before the others.
fn covering(alloc: Global, ret: &Return) -> Result<Assertion, AllocError>
    ensures { IfOk result (λ a. a ≡ covering_lem ret.now.post ret.now.value) }
{
    let post = ret.post.get();
    match &ret.value {
        None => post.share(alloc),
        Some(term) => before_parts(alloc, post, term),
    }
}

/// The same with another postcondition and another term.
fn with_post(
    alloc: Global,
    ret: &Return,
    post: Assertion,
    value: Option<Term>,
) -> Result<Return, AllocError>
    ensures { IfOk result (λ r. r ≡ record ret.now { post = post; value = value }) }
{
    let result = ret.result.share(alloc)?;
    let blocks = ret.blocks.share()?;
    let post = Shared::new(alloc, post)?;
    Ok(Return {
        post,
        value,
        result,
        blocks,
    })
}

/// The term of the first part, where it is one as RETURN's term was made.
fn first_term(parts: &[Sep]) -> Result<Option<Term>, AllocError>
    ensures { IfOk result (λ t. t ≡ first_term_lem parts.now) }
{
    match parts {
        [Sep::Valid(term), ..] => Ok(Some(term.share()?)),
        _ => Ok(None),
    }
}

/// The parts but the first one.
fn but_first(parts: &[Sep]) -> &[Sep]
    ensures { result.now ≡ drop 1 parts.now }
{
    match parts {
        [] => parts,
        [_, rest @ ..] => rest,
    }
}

/// The assertion without its first part.
fn without_first(alloc: Global, whole: &Assertion) -> Result<Assertion, AllocError>
    ensures { IfOk result (λ a. a ≡ record whole.now { parts = drop 1 whole.now.parts }) }
{
    let existentials = share_binders(alloc, whole.existentials.as_slice())?;
    let props = share_formulas(alloc, whole.props.as_slice())?;
    let locals = share_locals(alloc, whole.locals.as_slice())?;
    let parts = share_parts(alloc, but_first(whole.parts.as_slice()))?;
    Ok(Assertion {
        existentials,
        props,
        locals,
        parts,
    })
}

/// The postcondition and RETURN's term apart again.
fn uncovered(alloc: Global, ret: &Return, whole: Assertion) -> Result<Return, AllocError>
    ensures { IfOk result (λ r. r ≡ uncovered_lem ret.now ret.now.value whole) }
{
    if ret.value.is_none() {
        return with_post(alloc, ret, whole, None);
    }
    let value = first_term(whole.parts.as_slice())?;
    let post = without_first(alloc, &whole)?;
    with_post(alloc, ret, post, value)
}

/// What must hold where the function returns, with terms in place of variables. RETURN's term stands below the existentials
/// of the postcondition, which are renamed where they would capture.
pub fn change_return<L: Ledger>(
    alloc: Global,
    ret: &Return,
    by: &[(Name, Term)],
    steps: &mut Steps<L>,
) -> Result<Return, RuleStop>
    requires { AssertionSortsAgree (puts by.now) (covering_lem ret.now.post ret.now.value) }
    ensures exact { RuleGives (λ r. r) result (return_with by.now ret.now) }
{
    let whole = covering(alloc, ret)?;
    match change_assertion(alloc, &whole, by, steps) {
        Ok(changed) => Ok(uncovered(alloc, ret, changed)?),
        Err(stop) => Err(stop),
    }
}

/// The other ways in which statements are left, each with terms in place of variables.
fn change_ways<L: Ledger>(
    alloc: Global,
    exits: &Exits,
    ret: Return,
    by: &[(Name, Term)],
    steps: &mut Steps<L>,
) -> Result<Exits, RuleStop>
    requires { ExitsSortsAgree (puts by.now) exits.now }
    ensures exact { RuleGives (λ e. e) result (ways_with by.now exits.now ret) }
{
    let normal = match change_exit(alloc, &exits.normal, by, steps) {
        Ok(normal) => normal,
        Err(stop) => return Err(stop),
    };
    let brk = match change_exit(alloc, &exits.brk, by, steps) {
        Ok(brk) => brk,
        Err(stop) => return Err(stop),
    };
    match change_exit(alloc, &exits.cont, by, steps) {
        Ok(cont) => Ok(Exits {
            normal,
            brk,
            cont,
            ret,
        }),
        Err(stop) => Err(stop),
    }
}

/// What must hold where statements are left, with terms in place of variables.
pub fn change_exits<L: Ledger>(
    alloc: Global,
    exits: &Exits,
    by: &[(Name, Term)],
    steps: &mut Steps<L>,
) -> Result<Exits, RuleStop>
    requires { ExitsSortsAgree (puts by.now) exits.now }
    ensures exact { RuleGives (λ e. e) result (exits_with by.now exits.now) }
{
    match change_return(alloc, &exits.ret, by, steps) {
        Ok(ret) => change_ways(alloc, exits, ret, by, steps),
        Err(stop) => Err(stop),
    }
}
