ghost use Rattle.std.specs.Prelude.{◌≡◌, Some, true, IfOk, IfErr, OnOk, map};
ghost use Rattle.std.specs.List.{list_all};
ghost use Rattle.std.specs.Option.{option_copied};
ghost use Rattle.floyd_assert_changes.specs.ChangesClauses.{IsChanging, changes, head_named, name_bound};
ghost use Rattle.floyd_assert_changes.specs.FittingClauses.{StopsWhere};
ghost use Rattle.floyd_tree.specs.Formulas.{form_of, formulas, formulas_of};
ghost use Rattle.floyd_tree.specs.MadeFormulas.{formula_fits};
ghost use Rattle.floyd_truth.specs.Replace.{FormulaSortsAgree, FormulasSortsAgree, changes_below, head_after, replaced_formula};

use crate::changing::{Changing, bits};
use crate::fresh::renamed;
use crate::prepare::bits_with;
use crate::replace::terms_after;
use floyd_text::{Name, Steps};
use floyd_tree::{
    Formula, FormulaHead, MakeStop, formula_head, formula_kids, formula_size, formula_terms,
    make_formula,
};
use std::alloc::{AllocError, Global};
use std::sync::ledger::Ledger;

/// The formula after the changes. Bound names are renamed, from the outermost on, only where they would capture. What has
/// none of the variables is shared.
#[cycle(formulas)]
pub fn formula_after<L: Ledger>(
    alloc: Global,
    f: &Formula,
    changing: &Changing,
    steps: &mut Steps<L>,
) -> Result<Formula, MakeStop>
    requires sorts { FormulaSortsAgree (changes changing.now) f.now }
    requires still { IsChanging changing.now }
    ensures ok { IfOk result (λ made. made ≡ replaced_formula (changes changing.now) f.now) }
    ensures fits { OnOk result (formula_fits (replaced_formula (changes changing.now) f.now) ≡ true) }
    ensures err { IfErr result (λ stop. StopsWhere stop (formula_fits (replaced_formula (changes changing.now) f.now))) }
{
    if f.summary() & bits(changing) == 0 {
        return same_formula(f, changing);
    }
    if let Some(x) = bound_name(formula_head(f)) {
        return below_binder(alloc, f, x, changing, steps);
    }
    let kids = formulas_after(alloc, formula_kids(f).as_slice(), changing, steps)?;
    let head = formula_head(f).share()?;
    formula_node(alloc, head, f, kids.as_slice(), changing, steps)
}

/// A formula that stays as it is.
fn same_formula(f: &Formula, changing: &Changing) -> Result<Formula, MakeStop>
    requires { replaced_formula (changes changing.now) f.now ≡ f.now }
    ensures ok { IfOk result (λ made. made ≡ replaced_formula (changes changing.now) f.now) }
    ensures fits { OnOk result (formula_fits (replaced_formula (changes changing.now) f.now) ≡ true) }
    ensures err { IfErr result (λ stop. StopsWhere stop (formula_fits (replaced_formula (changes changing.now) f.now))) }
{
    Ok(f.share()?)
}

/// The name that the head binds.
fn bound_name(head: &FormulaHead) -> Option<&Name>
    ensures { option_copied result ≡ name_bound head.now }
{
    match head {
        FormulaHead::Forall(x, _) => Some(x),
        FormulaHead::Exists(x, _) => Some(x),
        _ => None,
    }
}

/// The same binder with that name.
fn named_head(head: &FormulaHead, name: &Name) -> Result<FormulaHead, AllocError>
    ensures { IfOk result (λ h. h ≡ head_named name.now head.now) }
{
    match head {
        FormulaHead::Forall(_, sort) => Ok(FormulaHead::Forall(name.share()?, sort.share()?)),
        FormulaHead::Exists(_, sort) => Ok(FormulaHead::Exists(name.share()?, sort.share()?)),
        head => head.share(),
    }
}

/// A formula with a binder of x after the changes.
#[cycle(formulas)]
fn below_binder<L: Ledger>(
    alloc: Global,
    f: &Formula,
    x: &Name,
    changing: &Changing,
    steps: &mut Steps<L>,
) -> Result<Formula, MakeStop>
    requires binds { name_bound (form_of f.now) ≡ Some x.now }
    requires sorts { FormulaSortsAgree (changes changing.now) f.now }
    requires still { IsChanging changing.now }
    ensures ok { IfOk result (λ made. made ≡ replaced_formula (changes changing.now) f.now) }
    ensures fits { OnOk result (formula_fits (replaced_formula (changes changing.now) f.now) ≡ true) }
    ensures err { IfErr result (λ stop. StopsWhere stop (formula_fits (replaced_formula (changes changing.now) f.now))) }
{
    let kids = formula_kids(f).as_slice();
    let name = renamed(alloc, changing, kids, x)?;
    let bits = bits_with(bits(changing), x, &name);
    let kids = formulas_after(
        alloc,
        kids,
        &Changing::Under(x, &name, &*changing, bits),
        steps,
    )?;
    let head = named_head(formula_head(f), &name)?;
    formula_node(alloc, head, f, kids.as_slice(), changing, steps)
}

/// The formulas after the changes.
#[cycle(formulas)]
pub fn formulas_after<L: Ledger>(
    alloc: Global,
    all: &[Formula],
    changing: &Changing,
    steps: &mut Steps<L>,
) -> Result<Vec<Formula>, MakeStop>
    requires sorts { FormulasSortsAgree (changes changing.now) (formulas all.now) }
    requires still { IsChanging changing.now }
    ensures ok { IfOk result (λ made. made.items ≡ map (replaced_formula (changes changing.now)) all.now) }
    ensures fits { OnOk result (list_all formula_fits (map (replaced_formula (changes changing.now)) all.now) ≡ true) }
    ensures err { IfErr result (λ stop. StopsWhere stop (list_all formula_fits (map (replaced_formula (changes changing.now)) all.now))) }
{
    let mut made = Vec::with_capacity(alloc, all.len())?;
    'formulas: for formula in all {
        made.push(formula_after(alloc, formula, changing, steps)?)?;
    }
    Ok(made)
}

/// The formula of a head and of kids that are changed already, over the terms of a formula.
fn formula_node<L: Ledger>(
    alloc: Global,
    head: FormulaHead,
    f: &Formula,
    kids: &[Formula],
    changing: &Changing,
    steps: &mut Steps<L>,
) -> Result<Formula, MakeStop>
    requires head { head ≡ head_after (changes changing.now) (form_of f.now) (formulas (formulas_of f.now)) }
    requires kids { kids.now ≡ map (replaced_formula (changes_below (changes changing.now) (form_of f.now) (formulas (formulas_of f.now)))) (formulas_of f.now) }
    requires sorts { FormulaSortsAgree (changes changing.now) f.now }
    requires still { IsChanging changing.now }
    ensures ok { IfOk result (λ made. made ≡ replaced_formula (changes changing.now) f.now) }
    ensures fits { OnOk result (formula_fits (replaced_formula (changes changing.now) f.now) ≡ true) }
    ensures err { IfErr result (λ stop. StopsWhere stop (formula_fits (replaced_formula (changes changing.now) f.now))) }
{
    let _size = formula_size(f);
    let terms = terms_after(alloc, formula_terms(f).as_slice(), changing, steps)?;
    make_formula(alloc, head, terms.as_slice(), kids, steps)
}
