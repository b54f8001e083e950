ghost use Rattle.std.specs.Prelude.{◌≡◌, IfOk};

use crate::assertion::{Local, LocalList};
use crate::binder::{Binder, BinderList};
use crate::sep::{Sep, SepList};
use floyd_tree::{Formula, FormulaList, Term, TermList};
use sqlite_items::Items;
use std::alloc::{AllocError, Global};

/// The same terms, which are not copied.
pub fn share_terms(alloc: Global, terms: &[Term]) -> Result<TermList, AllocError>
    ensures { IfOk result (λ all. all ≡ terms.now) }
{
    let mut all = Vec::with_capacity(alloc, terms.len())?;
    'terms: for term in terms {
        all.push(term.share()?)?;
    }
    Ok(Items::from_vec(all))
}

/// The same formulas, which are not copied.
pub fn share_formulas(alloc: Global, formulas: &[Formula]) -> Result<FormulaList, AllocError>
    ensures { IfOk result (λ all. all ≡ formulas.now) }
{
    let mut all = Vec::with_capacity(alloc, formulas.len())?;
    'formulas: for formula in formulas {
        all.push(formula.share()?)?;
    }
    Ok(Items::from_vec(all))
}

pub fn share_binders(alloc: Global, binders: &[Binder]) -> Result<BinderList, AllocError>
    ensures { IfOk result (λ all. all ≡ binders.now) }
{
    let mut all = Vec::with_capacity(alloc, binders.len())?;
    'binders: for binder in binders {
        all.push(binder.share()?)?;
    }
    Ok(Items::from_vec(all))
}

pub fn share_locals(alloc: Global, locals: &[Local]) -> Result<LocalList, AllocError>
    ensures { IfOk result (λ all. all ≡ locals.now) }
{
    let mut all = Vec::with_capacity(alloc, locals.len())?;
    'locals: for local in locals {
        all.push(local.share()?)?;
    }
    Ok(Items::from_vec(all))
}

pub fn share_parts(alloc: Global, parts: &[Sep]) -> Result<SepList, AllocError>
    ensures { IfOk result (λ all. all ≡ parts.now) }
{
    let mut all = Vec::with_capacity(alloc, parts.len())?;
    'parts: for part in parts {
        all.push(part.share(alloc)?)?;
    }
    Ok(Items::from_vec(all))
}
