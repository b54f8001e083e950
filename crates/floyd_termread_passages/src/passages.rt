//! Terms, formulas, types and paths.
ghost use Rattle.std.specs.Prelude.{◌≡◌, IfOk, OnOk};
ghost use Rattle.std.specs.Option.{option_copied};
ghost use Rattle.floyd_termread_forms.specs.Making.{same_wanted};
ghost use Rattle.floyd_termread_scope.specs.Scopes.{env, sort_of};
ghost use Rattle.floyd_termread_passages.specs.PassageClauses as clauses;
ghost use Rattle.floyd_termread_passages.specs.Passages as specs;
ghost use Rattle.floyd_text.specs.Gives.{Gives};

use floyd_termread_formulas::{judge_formula, judge_path};
use floyd_termread_groups::group;
use floyd_termread_scope::{Scope, Variables};
use floyd_termread_terms::{first_place, judge_term, judge_type};
use floyd_termread_trees::Written;
use floyd_termread_wants::{JudgeStop, Wanted};
use floyd_text::{Code, Halt, Place, Refusal, Shown};
use floyd_tree::{AType, Formula, Path, Sort, Term};
use std::alloc::{AllocError, Global};

/// The refusal of a passage in which nothing is refused and which is cut off.
fn cut_short(place: Place, end: Result<u32, Refusal>) -> Refusal
    ensures { result ≡ specs.cut_short place end }
{
    match end {
        Ok(_) => Refusal::at(Code::UnexpectedInSpec, place, Shown::Nothing),
        Err(refusal) => refusal,
    }
}

fn share_shown(shown: &Shown) -> Result<Shown, AllocError>
    ensures { IfOk result (λ s. s ≡ shown.now) }
{
    match shown {
        Shown::Nothing => Ok(Shown::Nothing),
        Shown::Count(count) => Ok(Shown::Count(*count)),
        Shown::Name(name) => Ok(Shown::Name(name.share()?)),
        Shown::Part(part) => Ok(Shown::Part(*part)),
        Shown::Hypothesis(hypothesis) => Ok(Shown::Hypothesis(*hypothesis)),
    }
}

fn share_refusal(refusal: &Refusal) -> Result<Refusal, AllocError>
    ensures { IfOk result (λ r. r ≡ refusal.now) }
{
    let shown = share_shown(&refusal.shown)?;
    Ok(Refusal {
        code: refusal.code,
        rule: refusal.rule,
        place: refusal.place,
        goal: refusal.goal,
        shown,
    })
}

/// Why a passage is not read whose judgement stopped so.
fn halt_of(place: Place, stop: &JudgeStop, end: Result<u32, Refusal>) -> Result<Halt, AllocError>
    ensures { IfOk result (λ h. h ≡ clauses.halt_of place stop.now end) }
{
    match stop {
        JudgeStop::Refused(refusal) => Ok(Halt::Refused(share_refusal(refusal)?)),
        JudgeStop::CutOff => Ok(Halt::Refused(cut_short(place, end))),
        JudgeStop::Memory => Ok(Halt::Memory),
    }
}

fn wanted_for(expected: Option<&Sort>) -> Result<Wanted, AllocError>
    ensures { IfOk result (λ w. w ≡ same_wanted (option_copied expected.entry)) }
{
    match expected {
        Some(sort) => Ok(Wanted::This(sort.share()?)),
        None => Ok(Wanted::Any(None)),
    }
}

/// The term that a passage is, with the number of the token behind it, or the first refusal: 502 at a name that stands
/// for nothing, 503 at what does not fit its place, 802 at what is beyond the limits, all of which stand before the
/// refusal of the grammar that cuts the passage off.
///
/// `end` is the number of the token behind a tree that is whole, or the refusal of the grammar at which it is cut off.
/// With a sort that is expected the term is to have it.
pub fn term_of(
    alloc: Global,
    scope: &Scope<'_>,
    bound: &Variables,
    tree: &Written,
    end: Result<u32, Refusal>,
    expected: Option<&Sort>,
) -> Result<(Term, u32), Halt>
    ensures exact { Gives (λ x. x) result (specs.term_passage (env scope.now bound.now) (option_copied expected.entry) tree.now end) }
{
    let grouped = group(alloc, tree)?;
    let wanted = wanted_for(expected)?;
    match judge_term(alloc, scope, bound, &grouped, &wanted) {
        Ok(term) => match end {
            Ok(next) => Ok((term, next)),
            Err(refusal) => Err(Halt::Refused(refusal)),
        },
        Err(stop) => {
            let place = first_place(&grouped);
            let halt = halt_of(place, &stop, end)?;
            Err(halt)
        }
    }
}

/// The formula that a passage is, with the number of the token behind it, or the first refusal, as a term has them. The
/// variables that are bound are the same behind it, unless it is refused or memory runs out.
pub fn formula_of(
    alloc: Global,
    scope: &Scope<'_>,
    bound: &mut Variables,
    tree: &Written,
    end: Result<u32, Refusal>,
) -> Result<(Formula, u32), Halt>
    ensures exact { Gives (λ x. x) result (specs.formula_passage (env scope.now bound.old) tree.now end) }
    ensures kept { OnOk result (sort_of bound.new ≡ sort_of bound.old) }
{
    let grouped = group(alloc, tree)?;
    match judge_formula(alloc, scope, bound, &grouped) {
        Ok(formula) => match end {
            Ok(next) => Ok((formula, next)),
            Err(refusal) => Err(Halt::Refused(refusal)),
        },
        Err(stop) => {
            let place = first_place(&grouped);
            let halt = halt_of(place, &stop, end)?;
            Err(halt)
        }
    }
}

/// The type that a passage is, with the number of the token behind it, or the first refusal, as a term has them. The sizes
/// of arrays are to be numbers.
pub fn type_of(
    alloc: Global,
    scope: &Scope<'_>,
    bound: &Variables,
    tree: &Written,
    end: Result<u32, Refusal>,
) -> Result<(AType, u32), Halt>
    ensures exact { Gives (λ x. x) result (specs.type_passage (env scope.now bound.now) tree.now end) }
{
    let grouped = group(alloc, tree)?;
    match judge_type(alloc, scope, bound, &grouped) {
        Ok(t) => match end {
            Ok(next) => Ok((t, next)),
            Err(refusal) => Err(Halt::Refused(refusal)),
        },
        Err(stop) => {
            let place = first_place(&grouped);
            let halt = halt_of(place, &stop, end)?;
            Err(halt)
        }
    }
}

/// The path that a passage is, with the number of the token behind it, or the first refusal, as a term has them. Its
/// subscripts are to be numbers.
pub fn path_of(
    alloc: Global,
    scope: &Scope<'_>,
    bound: &Variables,
    tree: &Written,
    end: Result<u32, Refusal>,
) -> Result<(Path, u32), Halt>
    ensures exact { Gives (λ x. x) result (specs.path_passage (env scope.now bound.now) tree.now end) }
{
    let grouped = group(alloc, tree)?;
    match judge_path(alloc, scope, bound, &grouped) {
        Ok(path) => match end {
            Ok(next) => Ok((path, next)),
            Err(refusal) => Err(Halt::Refused(refusal)),
        },
        Err(stop) => {
            let place = first_place(&grouped);
            let halt = halt_of(place, &stop, end)?;
            Err(halt)
        }
    }
}
