ghost use Rattle.std.specs.Prelude.{◌∷◌, []};
ghost use Rattle.floyd_assert_changes.specs.Changed.{AssertionSortsAgree, PartsSortsAgree, assertion_with, parts_with};
ghost use Rattle.floyd_assert_changes.specs.Substituted.{formula_with, formulas_with, terms_with};
ghost use Rattle.floyd_text.specs.Gives.{RuleGives};
ghost use Rattle.floyd_tree.specs.Formulas.{formulas};
ghost use Rattle.floyd_tree.specs.Plain.{plains};
ghost use Rattle.floyd_truth.specs.Replace.{AllSortsAgree, FormulaSortsAgree, FormulasSortsAgree, puts};

use crate::assertions::assertion_after;
use crate::changing::Changing;
use crate::parts::parts_after;
use crate::prepare::{put_all, put_bits, refused};
use crate::replace::terms_after;
use crate::replace_formula::{formula_after, formulas_after};
use floyd_assert_trees::{Assertion, Sep, SepList};
use floyd_text::{Name, RuleStop, Steps};
use floyd_tree::{Formula, FormulaList, Term, TermList};
use sqlite_items::Items;
use std::alloc::Global;
use std::sync::ledger::Ledger;

/// Terms with these terms in place of these variables, of all of them at once; of pairs of one name the first counts. What
/// has none of the variables is shared, and each node that is made counts one step. The one refusal is that a term is too
/// large.
pub fn subst_terms<L: Ledger>(
    alloc: Global,
    terms: &[Term],
    by: &[(Name, Term)],
    steps: &mut Steps<L>,
) -> Result<TermList, RuleStop>
    requires { AllSortsAgree (puts by.now) (plains terms.now) }
    ensures exact { RuleGives (λ all. all) result (terms_with by.now terms.now) }
{
    let changes = put_all(alloc, by)?;
    let changing = Changing::All(changes.as_slice(), put_bits(by));
    match terms_after(alloc, terms, &changing, steps) {
        Ok(made) => Ok(Items::from_vec(made)),
        Err(stop) => Err(refused(stop)),
    }
}

/// A formula with these terms in place of these variables, as terms are. A bound name is renamed, from the outermost on,
/// only where it would capture a variable of a new term. By a law of floyd_truth the truth of the result is that of the
/// formula where each of these variables has the value of its term.
pub fn subst_formula<L: Ledger>(
    alloc: Global,
    f: &Formula,
    by: &[(Name, Term)],
    steps: &mut Steps<L>,
) -> Result<Formula, RuleStop>
    requires { FormulaSortsAgree (puts by.now) f.now }
    ensures exact { RuleGives (λ g. g) result (formula_with by.now f.now) }
{
    let changes = put_all(alloc, by)?;
    let changing = Changing::All(changes.as_slice(), put_bits(by));
    match formula_after(alloc, f, &changing, steps) {
        Ok(made) => Ok(made),
        Err(stop) => Err(refused(stop)),
    }
}

/// The same of several formulas.
pub fn subst_formulas<L: Ledger>(
    alloc: Global,
    all: &[Formula],
    by: &[(Name, Term)],
    steps: &mut Steps<L>,
) -> Result<FormulaList, RuleStop>
    requires { FormulasSortsAgree (puts by.now) (formulas all.now) }
    ensures exact { RuleGives (λ made. made) result (formulas_with by.now all.now) }
{
    let changes = put_all(alloc, by)?;
    let changing = Changing::All(changes.as_slice(), put_bits(by));
    match formulas_after(alloc, all, &changing, steps) {
        Ok(made) => Ok(Items::from_vec(made)),
        Err(stop) => Err(refused(stop)),
    }
}

/// Parts with these terms in place of these variables, as terms are: in shares, in sizes of types, in subscripts, in roots
/// and in values and arguments.
#[tactic(auto, using(crate::proofs::Parting::parts_fit_after))]
pub fn subst_parts<L: Ledger>(
    alloc: Global,
    parts: &[Sep],
    by: &[(Name, Term)],
    steps: &mut Steps<L>,
) -> Result<SepList, RuleStop>
    requires { PartsSortsAgree (puts by.now) parts.now }
    ensures exact { RuleGives (λ made. made) result (parts_with by.now parts.now) }
{
    let changes = put_all(alloc, by)?;
    let changing = Changing::All(changes.as_slice(), put_bits(by));
    match parts_after(alloc, parts, &changing, steps) {
        Ok(made) => Ok(Items::from_vec(made)),
        Err(stop) => Err(refused(stop)),
    }
}

/// An assertion with these terms in place of these variables, of all of them at once. An existential is renamed, from the
/// left, only where it would capture, to a name that no other existential has; below the existentials all is as in formulas
/// and parts.
pub fn change_assertion<L: Ledger>(
    alloc: Global,
    a: &Assertion,
    by: &[(Name, Term)],
    steps: &mut Steps<L>,
) -> Result<Assertion, RuleStop>
    requires { AssertionSortsAgree (puts by.now) a.now }
    ensures exact { RuleGives (λ made. made) result (assertion_with by.now a.now) }
{
    let changes = put_all(alloc, by)?;
    match assertion_after(alloc, a, changes.as_slice(), put_bits(by), steps) {
        Ok(made) => Ok(made),
        Err(stop) => Err(refused(stop)),
    }
}

/// An assertion with this term in place of this variable.
pub fn subst_assertion<L: Ledger>(
    alloc: Global,
    a: &Assertion,
    x: &Name,
    by: &Term,
    steps: &mut Steps<L>,
) -> Result<Assertion, RuleStop>
    requires { AssertionSortsAgree (puts ((x.now, by.now) ∷ [])) a.now }
    ensures exact { RuleGives (λ made. made) result (assertion_with ((x.now, by.now) ∷ []) a.now) }
{
    let mut pairs = Vec::new(alloc);
    pairs.push((x.share()?, by.share()?))?;
    change_assertion(alloc, a, pairs.as_slice(), steps)
}
