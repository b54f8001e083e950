ghost use Rattle.std.specs.Prelude.{◌≡◌, ◌++◌, ◌∷◌, [], IfOk, OnOk, is_some};
ghost use Rattle.std.specs.Option.{unwrap_or};

use floyd_assert_trees::{share_formulas, share_terms};
use floyd_tree::{Formula, FormulaList, Term, TermList};
use std::alloc::{AllocError, Global};

/// Adds the new term, or the old one where there is none, and tells whether there is.
pub(crate) fn push_term(
    all: &mut Vec<Term>,
    new: Option<Term>,
    old: &Term,
) -> Result<bool, AllocError>
    ensures told { IfOk result (λ b. b ≡ is_some new) }
    ensures pushed { OnOk result (all.new.items ≡ all.old.items ++ unwrap_or new old.now ∷ []) }
{
    match new {
        Some(new) => {
            all.push(new)?;
            Ok(true)
        }
        None => {
            all.push(old.share()?)?;
            Ok(false)
        }
    }
}

/// Adds the new formula, or the old one where there is none, and tells whether there is.
pub(crate) fn push_formula(
    all: &mut Vec<Formula>,
    new: Option<Formula>,
    old: &Formula,
) -> Result<bool, AllocError>
    ensures told { IfOk result (λ b. b ≡ is_some new) }
    ensures pushed { OnOk result (all.new.items ≡ all.old.items ++ unwrap_or new old.now ∷ []) }
{
    match new {
        Some(new) => {
            all.push(new)?;
            Ok(true)
        }
        None => {
            all.push(old.share()?)?;
            Ok(false)
        }
    }
}

/// The new terms, or the old ones where there are none.
pub(crate) fn terms_or(
    alloc: Global,
    new: Option<TermList>,
    old: &[Term],
) -> Result<TermList, AllocError>
    ensures { IfOk result (λ ts. ts ≡ unwrap_or new old.now) }
{
    match new {
        Some(new) => Ok(new),
        None => share_terms(alloc, old),
    }
}

/// The new formulas, or the old ones where there are none.
pub(crate) fn formulas_or(
    alloc: Global,
    new: Option<FormulaList>,
    old: &[Formula],
) -> Result<FormulaList, AllocError>
    ensures { IfOk result (λ fs. fs ≡ unwrap_or new old.now) }
{
    match new {
        Some(new) => Ok(new),
        None => share_formulas(alloc, old),
    }
}
