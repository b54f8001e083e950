ghost use Rattle.std.specs.Prelude.{◌≡◌, ◌&&◌, IfOk};
ghost use Rattle.floyd_stub_goal.specs.Sides.{is_dropped as is_dropped_lem, is_word as is_word_lem, is_vint as is_vint_lem, joined as joined_lem, kept, conjunction as conjunction_lem, side_goals as side_goals_lem, wrong_goal as wrong_goal_lem};

use crate::goal::{Context, Goal, GoalList, Pure};
use floyd_ctypes::CType;
use floyd_int::IntKind;
use floyd_stub_assert::{Formula, FormulaList, Term};
use floyd_text::{Code, No, Shared, Shown};
use sqlite_items::Items;
use std::alloc::{AllocError, Global};

/// An int or an unsigned int.
fn is_word(t: &CType) -> bool
    ensures { result ≡ is_word_lem t.now }
{
    matches!(t, CType::Int(IntKind::I32 | IntKind::U32))
}

fn is_vint(t: &Term) -> bool
    ensures { result ≡ is_vint_lem t.now }
{
    matches!(t, Term::Vint(_))
}

/// Whether a term is at once one of that type: a Vint of 32 bits is.
pub fn is_typed(t: &CType, a: &Term) -> bool
    ensures { result ≡ (is_word_lem t.now && is_vint_lem a.now) }
{
    is_word(t) && is_vint(a)
}

/// Whether the formula is true at once.
fn is_dropped(f: &Formula) -> bool
    ensures { result ≡ is_dropped_lem f.now }
{
    match f {
        Formula::Equal(a, b) => a.same(b),
        Formula::Hasty(t, a) => is_typed(t, a),
        Formula::True => false,
        Formula::False => false,
        Formula::And(_, _) => false,
    }
}

/// The formula with another one behind it.
fn joined(alloc: Global, f: Formula, more: Option<Formula>) -> Result<Formula, AllocError>
    ensures { IfOk result (λ all. all ≡ joined_lem f more) }
{
    match more {
        None => Ok(f),
        Some(g) => Ok(Formula::And(Shared::new(alloc, f)?, Shared::new(alloc, g)?)),
    }
}

/// All formulas that are not true at once, in one.
fn conjunction(alloc: Global, formulas: FormulaList) -> Result<Option<Formula>, AllocError>
    ensures { IfOk result (λ all. all ≡ conjunction_lem (kept formulas)) }
{
    let mut left = formulas;
    let mut all = None;
    'formulas: while let Some(f) = left.pop() {
        if !is_dropped(&f) {
            all = Some(joined(alloc, f, all)?);
        }
    }
    Ok(all)
}

/// The goal of all formulas that are not true at once, if any.
pub fn side_goals(
    alloc: Global,
    context: Context,
    formulas: FormulaList,
) -> Result<GoalList, AllocError>
    ensures { IfOk result (λ gs. gs ≡ side_goals_lem context (conjunction_lem (kept formulas))) }
{
    let mut goals = Items::new(alloc);
    if let Some(target) = conjunction(alloc, formulas)? {
        goals.push(Goal::Pure(Pure { context, target }))?;
    }
    Ok(goals)
}

/// The refusal of a goal of another kind, or of another next statement.
pub fn wrong_goal() -> No
    ensures { result ≡ wrong_goal_lem }
{
    No {
        code: Code::WrongGoal,
        shown: Shown::Nothing,
    }
}
