ghost use Rattle.std.specs.Prelude.{◌≡◌, OnOk};
ghost use Rattle.floyd_assert_changes.specs.ChangesClauses.{changes, changes_of};
ghost use Rattle.floyd_assert_changes.specs.NamesClauses.{binder_names, formula_names, formulas_names, head_names, new_term_names, term_names, terms_names, with_name};
ghost use Rattle.floyd_tree.specs.Formulas.{formulas};
ghost use Rattle.floyd_tree.specs.Plain.{plains};

use crate::changing::{Becomes, Change, Changing};
use floyd_assert_trees::Names;
use floyd_text::Name;
use floyd_tree::{
    Formula, FormulaHead, Head, Term, formula_head, formula_kids, formula_terms, head, kids,
};
use std::alloc::AllocError;

/// Adds the name, where it is not there.
pub fn add_name(names: &mut Names, x: &Name) -> Result<(), AllocError>
    ensures { OnOk result (names.new ≡ with_name x.now names.old) }
{
    if names.get(x).is_none() {
        names.add(x.share()?, ())?;
    }
    Ok(())
}

/// Adds the variables of the new terms.
pub fn add_new_terms(names: &mut Names, changing: &Changing) -> Result<(), AllocError>
    ensures { OnOk result (names.new ≡ new_term_names (changes changing.now) names.old) }
{
    match changing {
        Changing::All(all, _) => add_changes(names, all),
        Changing::Under(_, _, outer, _) => add_new_terms(names, outer),
    }
}

pub fn add_changes(names: &mut Names, all: &[Change]) -> Result<(), AllocError>
    ensures { OnOk result (names.new ≡ new_term_names (changes_of all.now) names.old) }
{
    'changes: for change in all {
        if let Becomes::Put(term) = &change.becomes {
            add_term(names, term)?;
        }
    }
    Ok(())
}

/// Adds the variables of a term.
#[cycle(term_names)]
#[tactic(auto, using(crate::proofs::Naming::term_names_parts, crate::proofs::Heights::heights_below))]
pub fn add_term(names: &mut Names, t: &Term) -> Result<(), AllocError>
    ensures { OnOk result (names.new ≡ term_names t.now names.old) }
{
    add_variable(names, head(t))?;
    add_terms(names, kids(t).as_slice())
}

fn add_variable(names: &mut Names, head: &Head) -> Result<(), AllocError>
    ensures { OnOk result (names.new ≡ head_names head.now names.old) }
{
    match head {
        Head::Variable(x, _) => add_name(names, x),
        _ => Ok(()),
    }
}

#[cycle(term_names)]
#[tactic(auto, using(crate::proofs::Heights::height_at))]
pub fn add_terms(names: &mut Names, terms: &[Term]) -> Result<(), AllocError>
    ensures { OnOk result (names.new ≡ terms_names (plains terms.now) names.old) }
{
    'terms: for term in terms {
        add_term(names, term)?;
    }
    Ok(())
}

/// Adds the variables of a formula, and the names that are bound in it.
#[cycle(formula_names)]
#[tactic(auto, using(crate::proofs::Naming::formula_names_parts, crate::proofs::Heights::formulas_below))]
pub fn add_formula(names: &mut Names, f: &Formula) -> Result<(), AllocError>
    ensures { OnOk result (names.new ≡ formula_names f.now names.old) }
{
    add_binder(names, formula_head(f))?;
    add_terms(names, formula_terms(f).as_slice())?;
    add_formulas(names, formula_kids(f).as_slice())
}

fn add_binder(names: &mut Names, head: &FormulaHead) -> Result<(), AllocError>
    ensures { OnOk result (names.new ≡ binder_names head.now names.old) }
{
    match head {
        FormulaHead::Forall(x, _) => add_name(names, x),
        FormulaHead::Exists(x, _) => add_name(names, x),
        _ => Ok(()),
    }
}

#[cycle(formula_names)]
#[tactic(auto, using(crate::proofs::Heights::formula_height_at))]
pub fn add_formulas(names: &mut Names, all: &[Formula]) -> Result<(), AllocError>
    ensures { OnOk result (names.new ≡ formulas_names (formulas all.now) names.old) }
{
    'formulas: for formula in all {
        add_formula(names, formula)?;
    }
    Ok(())
}
