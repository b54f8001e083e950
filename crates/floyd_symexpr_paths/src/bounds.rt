ghost use Rattle.std.specs.Prelude.{◌≡◌, [], ◌∷◌, pos, IfOk, if◌then◌else◌, Ok};
ghost use Rattle.floyd_text.specs.Gives.{RuleGives};
ghost use Rattle.floyd_fieldpath.specs.Addresses.{on_type};
ghost use Rattle.floyd_fieldpath.specs.Nested.{literal as literal_lem, path_illegal as path_illegal_lem, type_after as type_after_lem};
ghost use Rattle.floyd_fieldpath.specs.Sums.{plus as plus_lem};
ghost use Rattle.floyd_symexpr_rows.specs.Formulas.{at_most, saying};
ghost use Rattle.floyd_symexpr_paths.specs.Bounds.{bounded_step as bounded_step_lem, bounds as bounds_lem, count as count_lem, step_bounds as step_bounds_lem, within as within_lem};

use crate::lvalue::Taken;
use crate::search::type_after;
use floyd_ctypes::StructTable;
use floyd_fieldpath::{literal, plus};
use floyd_symexpr_rows::{Objects, say_at_most, say_from};
use floyd_text::{Code, No, RuleStop, Shown, Steps};
use floyd_tree::{AType, FormulaList, PathStep, Term};
use std::alloc::{AllocError, Global};
use std::sync::ledger::Ledger;

/// The refusal of a path that has no type.
fn path_illegal() -> No
    ensures { result ≡ path_illegal_lem }
{
    No {
        code: Code::PathIllegal,
        shown: Shown::Nothing,
    }
}

/// The size of an array.
fn count<L: Ledger>(alloc: Global, t: &AType, steps: &mut Steps<L>) -> Result<Term, AllocError>
    ensures { IfOk result (λ n. n ≡ count_lem t.now) }
{
    match t.sizes().get(0) {
        Some(n) => n.share(),
        None => literal(alloc, 0, steps),
    }
}

/// Puts `0 <= i` and `more <= n` behind other formulas.
#[tactic(auto, using(floyd_symexpr_rows::proofs::SayingLemmas::one_more, floyd_symexpr_rows::proofs::SayingLemmas::one_stops))]
fn say_both<L: Ledger>(
    alloc: Global,
    i: &Term,
    more: &Term,
    n: &Term,
    all: &mut FormulaList,
    steps: &mut Steps<L>,
) -> Result<(), RuleStop>
    ensures exact { RuleGives (λ u. all.new) result (saying all.old (at_most (literal_lem (pos 0)) i.now ∷ at_most more.now n.now ∷ [])) }
{
    say_from(alloc, 0, i, all, steps)?;
    say_at_most(alloc, more, n, all, steps)
}

/// The number that is one more.
fn one_more<L: Ledger>(alloc: Global, i: &Term, steps: &mut Steps<L>) -> Result<Term, RuleStop>
    ensures exact { RuleGives (λ t. t) result (plus_lem i.now (literal_lem (pos 1))) }
{
    let one = literal(alloc, 1, steps)?;
    plus(alloc, i, &one, steps)
}

/// Puts behind other formulas that a subscript is at least 0, and below n.
#[tactic(auto, using(floyd_symexpr_rows::proofs::SayingLemmas::goes_on, floyd_symexpr_rows::proofs::SayingLemmas::stops))]
fn say_within<L: Ledger>(
    alloc: Global,
    i: &Term,
    n: &Term,
    all: &mut FormulaList,
    steps: &mut Steps<L>,
) -> Result<(), RuleStop>
    ensures exact { RuleGives (λ u. all.new) result (within_lem i.now n.now all.old) }
{
    let more = one_more(alloc, i, steps)?;
    say_both(alloc, i, &more, n, all, steps)
}

/// The bounds of a step from a type on.
fn say_step<L: Ledger>(
    alloc: Global,
    t: &AType,
    step: &PathStep,
    all: &mut FormulaList,
    steps: &mut Steps<L>,
) -> Result<(), RuleStop>
    ensures exact { RuleGives (λ u. all.new) result (step_bounds_lem t.now step.now all.old) }
{
    match step {
        PathStep::Field(_) => Ok(()),
        PathStep::Subscript(i) => {
            let n = count(alloc, t, steps)?;
            say_within(alloc, i, &n, all, steps)
        }
    }
}

/// The bounds of a step, if they are asked for.
fn say_asked<L: Ledger>(
    alloc: Global,
    t: &AType,
    asked: bool,
    step: &PathStep,
    all: &mut FormulaList,
    steps: &mut Steps<L>,
) -> Result<(), RuleStop>
    ensures exact { RuleGives (λ u. all.new) result (if asked then step_bounds_lem t.now step.now all.old else Ok all.old) }
{
    if !asked {
        return Ok(());
    }
    say_step(alloc, t, step, all, steps)
}

/// The type after a step, or the refusal.
fn type_behind(
    alloc: Global,
    structs: &StructTable,
    t: &AType,
    step: &PathStep,
) -> Result<AType, RuleStop>
    ensures exact { RuleGives (λ u. u) result (on_type (type_after_lem structs.now t.now step.now) (λ after. Ok after)) }
{
    match type_after(alloc, structs, t, step)? {
        Some(after) => Ok(after),
        None => Err(RuleStop::No(path_illegal())),
    }
}

/// The type after a step, whose bounds are put behind other formulas if they are asked for.
#[tactic(auto, using(crate::proofs::BoundLemmas::step_stops, crate::proofs::BoundLemmas::type_stops, crate::proofs::BoundLemmas::step_gives))]
fn bounded_step<L: Ledger>(
    at: Objects<'_>,
    t: &AType,
    asked: bool,
    step: &PathStep,
    all: &mut FormulaList,
    steps: &mut Steps<L>,
) -> Result<AType, RuleStop>
    ensures exact { RuleGives (λ u. (u, all.new)) result (bounded_step_lem at.entry.structs.now t.now asked step.now all.old) }
{
    say_asked(at.alloc, t, asked, step, all, steps)?;
    type_behind(at.alloc, at.structs, t, step)
}

/// The bounds of the subscripts of a form of a path from a type on, but for its first steps.
#[tactic(auto, using(crate::proofs::BoundLemmas::bounds_stop, crate::proofs::BoundLemmas::bounds_on))]
pub(crate) fn say_bounds<L: Ledger>(
    at: Objects<'_>,
    t: &AType,
    skip: usize,
    form: &[Taken],
    all: &mut FormulaList,
    steps: &mut Steps<L>,
) -> Result<(), RuleStop>
    ensures exact { RuleGives (λ u. all.new) result (bounds_lem at.entry.structs.now t.now skip form.now all.old) }
{
    let mut inner = t.share(at.alloc)?;
    let mut left = skip;
    'steps: for taken in form {
        inner = bounded_step(at, &inner, left == 0, &taken.step, all, steps)?;
        left = left.saturating_sub(1);
    }
    Ok(())
}
