ghost use Rattle.std.specs.Prelude.{◌≡◌, ◌∷◌, [], Some};
ghost use Rattle.floyd_clight.specs.Types.{type_of};
ghost use Rattle.floyd_control.specs.ForwardSwitch.{case_formulas as case_formulas_lem, choice as choice_lem, choice_needs as choice_needs_lem, has_default as has_default_lem, labels_of, no_labels as no_labels_lem, number_of as number_of_lem};
ghost use Rattle.floyd_symexpr_rows.specs.Formulas.{saying};
ghost use Rattle.floyd_text.specs.Gives.{RuleGives};

use crate::labels::label_term;
use floyd_assert::{share_formulas, share_terms};
use floyd_clight::{Case, Expr};
use floyd_conditions::{Reader, different, equal};
use floyd_ctypes::CType;
use floyd_symexpr::{Evaluated, evaluate};
use floyd_symexpr_rows::{Needs, Number, not_number, number, say_range};
use floyd_text::{RuleStop, Steps};
use floyd_tree::{FormulaList, Term};
use std::alloc::Global;
use std::sync::ledger::Ledger;

/// The number of a term of the type.
fn number_of(ctype: &CType, t: &Term) -> Result<Number, RuleStop>
    ensures exact { RuleGives (λ n. n) result (number_of_lem ctype.now t.now) }
{
    match ctype {
        CType::Int(kind) => number(*kind, t),
        _ => Err(RuleStop::No(not_number())),
    }
}

/// The number with what the expression needs, and that it is one of its kind.
#[tactic(auto, using(floyd_symexpr_rows::proofs::SayingLemmas::goes_on, floyd_symexpr_rows::proofs::SayingLemmas::stops))]
fn choice_needs<L: Ledger>(
    alloc: Global,
    v: &Evaluated,
    a: Number,
    steps: &mut Steps<L>,
) -> Result<(Number, Needs), RuleStop>
    ensures exact { RuleGives (λ x. x) result (choice_needs_lem v.now a) }
{
    let mut sides = share_formulas(alloc, v.sides.as_slice())?;
    say_range(alloc, a.kind, &a.term, &mut sides, steps)?;
    let valid = share_terms(alloc, v.valid.as_slice())?;
    Ok((a, Needs { sides, valid }))
}

/// The number that chooses a case, and what it needs.
#[tactic(auto, using(floyd_symexpr_rows::proofs::SayingLemmas::goes_on, floyd_symexpr_rows::proofs::SayingLemmas::stops))]
pub(crate) fn choice<L: Ledger>(
    at: Reader<'_>,
    e: &Expr,
    steps: &mut Steps<L>,
) -> Result<(Number, Needs), RuleStop>
    ensures exact { RuleGives (λ x. x) result (choice_lem at.entry.source.now at.entry.defs.now.structs e.now) }
{
    let v = evaluate(at.alloc, e, at.source, at.blocks, at.defs, steps)?;
    let a = number_of(e.ctype(), &v.term)?;
    choice_needs(at.alloc, &v, a, steps)
}

/// Puts behind others that the number is not this label; the default is no label.
#[tactic(auto, using(floyd_symexpr_rows::proofs::SayingLemmas::goes_on, floyd_symexpr_rows::proofs::SayingLemmas::stops))]
fn say_other<L: Ledger>(
    alloc: Global,
    a: &Number,
    label: Option<u64>,
    all: &mut FormulaList,
    steps: &mut Steps<L>,
) -> Result<(), RuleStop>
    ensures exact { RuleGives (λ u. all.new) result (saying all.old (no_labels_lem a.now (label ∷ []))) }
{
    match label {
        None => Ok(()),
        Some(bits) => {
            let l = label_term(alloc, a, bits, steps)?;
            let f = different(alloc, &a.term, &l, steps)?;
            all.push(f)?;
            Ok(())
        }
    }
}

/// That the number is none of the labels.
pub(crate) fn no_labels<L: Ledger>(
    alloc: Global,
    a: &Number,
    cases: &[Case],
    steps: &mut Steps<L>,
) -> Result<FormulaList, RuleStop>
    ensures exact { RuleGives (λ fs. fs) result (saying [] (no_labels_lem a.now (labels_of cases.now))) }
{
    let mut all = FormulaList::new(alloc);
    let mut rest = cases;
    'cases: while let Some((case, more)) = rest.split_first() {
        say_other(alloc, a, case.label, &mut all, steps)?;
        rest = more;
    }
    Ok(all)
}

/// That the number is this label.
#[tactic(auto, using(floyd_symexpr_rows::proofs::SayingLemmas::goes_on, floyd_symexpr_rows::proofs::SayingLemmas::stops))]
fn is_label<L: Ledger>(
    alloc: Global,
    a: &Number,
    bits: u64,
    steps: &mut Steps<L>,
) -> Result<FormulaList, RuleStop>
    ensures exact { RuleGives (λ fs. fs) result (saying [] (case_formulas_lem a.now [] (Some bits))) }
{
    let l = label_term(alloc, a, bits, steps)?;
    let f = equal(alloc, &a.term, &l, steps)?;
    let mut all = FormulaList::new(alloc);
    all.push(f)?;
    Ok(all)
}

/// What holds where the switch goes on at a case of this label.
pub(crate) fn case_formulas<L: Ledger>(
    alloc: Global,
    a: &Number,
    cases: &[Case],
    label: Option<u64>,
    steps: &mut Steps<L>,
) -> Result<FormulaList, RuleStop>
    ensures exact { RuleGives (λ fs. fs) result (saying [] (case_formulas_lem a.now (labels_of cases.now) label)) }
{
    match label {
        Some(bits) => is_label(alloc, a, bits, steps),
        None => no_labels(alloc, a, cases, steps),
    }
}

/// Whether one of the cases is the default.
pub(crate) fn has_default(cases: &[Case]) -> bool
    ensures { result ≡ has_default_lem (labels_of cases.now) }
{
    let mut rest = cases;
    'cases: while let Some((case, more)) = rest.split_first() {
        if case.label.is_none() {
            return true;
        }
        rest = more;
    }
    false
}
