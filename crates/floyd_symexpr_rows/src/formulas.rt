ghost use Rattle.std.specs.Prelude.{◌≡◌, [], ◌∷◌, negsuc, pos};
ghost use Rattle.floyd_int.specs.Kind.{greatest as greatest_lem, least as least_lem, width as width_lem};
ghost use Rattle.floyd_fieldpath.specs.Nested.{literal as literal_lem};
ghost use Rattle.floyd_text.specs.Gives.{RuleGives};
ghost use Rattle.floyd_tree.specs.Formulas.{Says, formulas};
ghost use Rattle.floyd_tree.specs.Plain.{plains};
ghost use Rattle.floyd_symexpr_rows.specs.Formulas.{at_most as at_most_lem, different as different_lem, either as either_lem, equal as equal_lem, is_pointer as is_pointer_lem, of_type as of_type_lem, said as said_lem, saying};
ghost use Rattle.floyd_symexpr_rows.specs.Rows.{range as range_lem};

use floyd_assert_trees::share_terms;
use floyd_fieldpath::literal;
use floyd_folding::too_large;
use floyd_int::IntKind;
use floyd_text::{RuleStop, Steps};
use floyd_tree::{AType, Formula, FormulaHead, FormulaList, MakeStop, Term, make_formula};
use std::alloc::Global;
use std::sync::ledger::Ledger;

/// The formula of this head, these terms and these kids, unless it is beyond the limits.
fn said<L: Ledger>(
    alloc: Global,
    head: FormulaHead,
    terms: &[Term],
    kids: &[Formula],
    steps: &mut Steps<L>,
) -> Result<Formula, RuleStop>
    ensures exact { RuleGives (λ f. f) result (said_lem (Says head (plains terms.now) (formulas kids.now))) }
{
    match make_formula(alloc, head, terms, kids, steps) {
        Ok(f) => Ok(f),
        Err(MakeStop::Memory) => Err(RuleStop::Memory),
        Err(MakeStop::IllSorted) => Err(RuleStop::No(too_large())),
        Err(MakeStop::TooLarge) => Err(RuleStop::No(too_large())),
    }
}

/// A formula of terms alone, put behind others.
fn say<L: Ledger>(
    alloc: Global,
    head: FormulaHead,
    terms: &[Term],
    all: &mut FormulaList,
    steps: &mut Steps<L>,
) -> Result<(), RuleStop>
    ensures exact { RuleGives (λ u. all.new) result (saying all.old (Says head (plains terms.now) (formulas []) ∷ [])) }
{
    let f = said(alloc, head, terms, &[], steps)?;
    all.push(f)?;
    Ok(())
}

/// Puts `a <= b` behind others.
pub fn say_at_most<L: Ledger>(
    alloc: Global,
    a: &Term,
    b: &Term,
    all: &mut FormulaList,
    steps: &mut Steps<L>,
) -> Result<(), RuleStop>
    ensures exact { RuleGives (λ u. all.new) result (saying all.old (at_most_lem a.now b.now ∷ [])) }
{
    let terms = [a.share()?, b.share()?];
    say(alloc, FormulaHead::AtMost, &terms, all, steps)
}

/// Puts `isptr(v)` behind others.
pub fn say_pointer<L: Ledger>(
    alloc: Global,
    v: &Term,
    all: &mut FormulaList,
    steps: &mut Steps<L>,
) -> Result<(), RuleStop>
    ensures exact { RuleGives (λ u. all.new) result (saying all.old (is_pointer_lem v.now ∷ [])) }
{
    let terms = [v.share()?];
    say(alloc, FormulaHead::IsPtr, &terms, all, steps)
}

/// Puts `hasty(t, v)` behind others.
pub fn say_of_type<L: Ledger>(
    alloc: Global,
    t: &AType,
    v: &Term,
    all: &mut FormulaList,
    steps: &mut Steps<L>,
) -> Result<(), RuleStop>
    ensures exact { RuleGives (λ u. all.new) result (saying all.old (of_type_lem t.now v.now ∷ [])) }
{
    let mut terms = share_terms(alloc, t.sizes().as_slice())?;
    terms.push(v.share()?)?;
    let head = FormulaHead::Hasty(t.shape().share()?);
    say(alloc, head, terms.as_slice(), all, steps)
}

/// Puts behind others that a number is at least z.
pub fn say_from<L: Ledger>(
    alloc: Global,
    z: i128,
    n: &Term,
    all: &mut FormulaList,
    steps: &mut Steps<L>,
) -> Result<(), RuleStop>
    ensures exact { RuleGives (λ u. all.new) result (saying all.old (at_most_lem (literal_lem z) n.now ∷ [])) }
{
    let least = literal(alloc, z, steps)?;
    say_at_most(alloc, &least, n, all, steps)
}

/// Puts behind others that a number is at most z.
pub fn say_to<L: Ledger>(
    alloc: Global,
    n: &Term,
    z: i128,
    all: &mut FormulaList,
    steps: &mut Steps<L>,
) -> Result<(), RuleStop>
    ensures exact { RuleGives (λ u. all.new) result (saying all.old (at_most_lem n.now (literal_lem z) ∷ [])) }
{
    let greatest = literal(alloc, z, steps)?;
    say_at_most(alloc, n, &greatest, all, steps)
}

/// Puts behind others that a number is at least the least one of the kind.
fn say_least<L: Ledger>(
    alloc: Global,
    kind: IntKind,
    n: &Term,
    all: &mut FormulaList,
    steps: &mut Steps<L>,
) -> Result<(), RuleStop>
    ensures exact { RuleGives (λ u. all.new) result (saying all.old (at_most_lem (literal_lem (least_lem kind)) n.now ∷ [])) }
{
    say_from(alloc, kind.least(), n, all, steps)
}

/// Puts behind others that a number is at most the greatest one of the kind.
fn say_greatest<L: Ledger>(
    alloc: Global,
    kind: IntKind,
    n: &Term,
    all: &mut FormulaList,
    steps: &mut Steps<L>,
) -> Result<(), RuleStop>
    ensures exact { RuleGives (λ u. all.new) result (saying all.old (at_most_lem n.now (literal_lem (greatest_lem kind)) ∷ [])) }
{
    say_to(alloc, n, kind.greatest(), all, steps)
}

/// Puts behind others that a number is at most the width of the kind.
pub(crate) fn say_width<L: Ledger>(
    alloc: Global,
    kind: IntKind,
    n: &Term,
    all: &mut FormulaList,
    steps: &mut Steps<L>,
) -> Result<(), RuleStop>
    ensures exact { RuleGives (λ u. all.new) result (saying all.old (at_most_lem n.now (literal_lem (pos (width_lem kind))) ∷ [])) }
{
    say_to(alloc, n, i128::from(kind.width()), all, steps)
}

/// Puts behind others that the number is at least the least and at most the greatest of the kind.
pub fn say_range<L: Ledger>(
    alloc: Global,
    kind: IntKind,
    n: &Term,
    all: &mut FormulaList,
    steps: &mut Steps<L>,
) -> Result<(), RuleStop>
    ensures exact { RuleGives (λ u. all.new) result (saying all.old (range_lem kind n.now)) }
{
    say_least(alloc, kind, n, all, steps)?;
    say_greatest(alloc, kind, n, all, steps)
}

/// `a <> b`.
#[tactic(auto, using(crate::proofs::PartLemmas::equation_stops, crate::proofs::PartLemmas::absurd_stops, crate::proofs::PartLemmas::different_gives))]
fn different<L: Ledger>(
    alloc: Global,
    a: &Term,
    b: &Term,
    steps: &mut Steps<L>,
) -> Result<Formula, RuleStop>
    ensures exact { RuleGives (λ f. f) result (said_lem (different_lem a.now b.now)) }
{
    let terms = [a.share()?, b.share()?];
    let equation = said(alloc, FormulaHead::Equal, &terms, &[], steps)?;
    let absurd = said(alloc, FormulaHead::False, &[], &[], steps)?;
    let kids = [equation, absurd];
    said(alloc, FormulaHead::Implies, &[], &kids, steps)
}

/// That a number is not z.
fn differs_from<L: Ledger>(
    alloc: Global,
    n: &Term,
    z: i128,
    steps: &mut Steps<L>,
) -> Result<Formula, RuleStop>
    ensures exact { RuleGives (λ f. f) result (said_lem (different_lem n.now (literal_lem z))) }
{
    let other = literal(alloc, z, steps)?;
    different(alloc, n, &other, steps)
}

/// Puts behind others that a number is not z.
pub(crate) fn say_differs<L: Ledger>(
    alloc: Global,
    n: &Term,
    z: i128,
    all: &mut FormulaList,
    steps: &mut Steps<L>,
) -> Result<(), RuleStop>
    ensures exact { RuleGives (λ u. all.new) result (saying all.old (different_lem n.now (literal_lem z) ∷ [])) }
{
    let f = differs_from(alloc, n, z, steps)?;
    all.push(f)?;
    Ok(())
}

/// Puts a formula or another one behind others.
fn say_either<L: Ledger>(
    alloc: Global,
    left: Formula,
    right: Formula,
    all: &mut FormulaList,
    steps: &mut Steps<L>,
) -> Result<(), RuleStop>
    ensures exact { RuleGives (λ u. all.new) result (saying all.old (either_lem left right ∷ [])) }
{
    let kids = [left, right];
    let f = said(alloc, FormulaHead::Or, &[], &kids, steps)?;
    all.push(f)?;
    Ok(())
}

/// That a number is not the least one of the kind.
fn differs_from_least<L: Ledger>(
    alloc: Global,
    n: &Term,
    kind: IntKind,
    steps: &mut Steps<L>,
) -> Result<Formula, RuleStop>
    ensures exact { RuleGives (λ f. f) result (said_lem (different_lem n.now (literal_lem (least_lem kind)))) }
{
    differs_from(alloc, n, kind.least(), steps)
}

/// Puts behind others that the number is not the least one of the kind, or the divisor not -1.
pub(crate) fn say_no_least<L: Ledger>(
    alloc: Global,
    kind: IntKind,
    a: &Term,
    b: &Term,
    all: &mut FormulaList,
    steps: &mut Steps<L>,
) -> Result<(), RuleStop>
    ensures exact { RuleGives (λ u. all.new) result (saying all.old (either_lem (different_lem a.now (literal_lem (least_lem kind))) (different_lem b.now (literal_lem (negsuc 0))) ∷ [])) }
{
    let left = differs_from_least(alloc, a, kind, steps)?;
    let right = differs_from(alloc, b, -1, steps)?;
    say_either(alloc, left, right, all, steps)
}
