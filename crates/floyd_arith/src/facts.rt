ghost use Rattle.std.specs.Prelude.{◌≡◌, IfOk, option_map, pos};
ghost use Rattle.floyd_tree.specs.Plain.{At, Done};
ghost use Rattle.floyd_tree_sorts.specs.declared.heads.Head.TheVariants.{Literal};
ghost use Rattle.floyd_arith.specs.Certificates as spec;
ghost use Rattle.floyd_arith.specs.FactClauses.{fact_seen};
ghost use Rattle.floyd_arith.specs.Linear.{linear_of};

use crate::apart::sum;
use crate::unknowns::Linear;
use floyd_tree::{Formula, FormulaHead, FormulaList, Term, formula_head, formula_terms, sort};
use std::alloc::{AllocError, Global};

/// What a formula says of the difference of its two sides.
#[derive(Clone, Copy)]
pub enum Fact<'a> {
    /// The first side is at most the second.
    AtMost(&'a Term, &'a Term),
    /// The first side is above the second.
    Above(&'a Term, &'a Term),
    Equal(&'a Term, &'a Term),
}

/// What the hypothesis of that number says, from 1; 0 is the negation of the target.
pub fn fact_at<'a>(hyps: &'a FormulaList, target: &'a Formula, number: u32) -> Option<Fact<'a>>
    ensures { option_map fact_seen result ≡ spec.fact_at hyps.now target.now number }
{
    if number == 0 {
        return negation_of(target);
    }
    fact_of(hyps.get(number as usize - 1)?)
}

fn fact_of(formula: &Formula) -> Option<Fact<'_>>
    ensures { option_map fact_seen result ≡ spec.fact_of formula.now }
{
    let [t, u] = formula_terms(formula).as_slice() else {
        return None;
    };
    match formula_head(formula) {
        FormulaHead::AtMost => Some(Fact::AtMost(t, u)),
        FormulaHead::Equal => {
            if sort(t).is_z() {
                Some(Fact::Equal(t, u))
            } else {
                None
            }
        }
        _ => None,
    }
}

fn negation_of(target: &Formula) -> Option<Fact<'_>>
    ensures { option_map fact_seen result ≡ spec.negation_of target.now }
{
    let [t, u] = formula_terms(target).as_slice() else {
        return None;
    };
    match formula_head(target) {
        FormulaHead::AtMost => Some(Fact::Above(t, u)),
        _ => None,
    }
}

/// The difference that is at least 0 or is 0, where every number of it is below the bound.
pub fn difference_of(alloc: Global, fact: &Fact<'_>) -> Result<Option<Linear>, AllocError>
    ensures { IfOk result (λ d. d ≡ linear_of (spec.difference_of (fact_seen fact.now))) }
{
    match fact {
        Fact::AtMost(t, u) => sum(alloc, u, -1, t),
        Fact::Equal(t, u) => sum(alloc, t, -1, u),
        Fact::Above(t, u) => above(alloc, t, u),
    }
}

/// The first side less the second and less 1.
fn above(alloc: Global, t: &Term, u: &Term) -> Result<Option<Linear>, AllocError>
    ensures { IfOk result (λ d. d ≡ linear_of (spec.difference (spec.difference t.now u.now) (At (Literal (pos 1)) Done))) }
{
    let Some(mut difference) = sum(alloc, t, -1, u)? else {
        return Ok(None);
    };
    let Some(one) = Linear::constant(alloc, 1) else {
        return Ok(None);
    };
    if difference.add(-1, &one)? {
        Ok(Some(difference))
    } else {
        Ok(None)
    }
}
