ghost use Rattle.std.specs.Prelude.{◌≡◌, [], true, IfErr, IfOk, OnOk, length};
ghost use Rattle.floyd_assert_changes.specs.Apart.{apart as apart_lem, set_apart as set_apart_lem};
ghost use Rattle.floyd_assert_changes.specs.ApartClauses.{named_from, next_name as next_name_lem, whole_names as whole_names_lem};
ghost use Rattle.floyd_assert_changes.specs.BodyClauses.{binders_names};
ghost use Rattle.floyd_assert_changes.specs.Changed.{assertion_fits, has_name};
ghost use Rattle.floyd_assert_changes.specs.FittingClauses.{StopsWhere};
ghost use Rattle.floyd_assert_changes.specs.NamesClauses.{has, term_names};
ghost use Rattle.floyd_text.specs.Gives.{RuleGives};
ghost use Rattle.floyd_tree.specs.Plain.{mentions};

use crate::assertions::body_after;
use crate::body::{add_binders, terms_in};
use crate::changing::Changing;
use crate::fresh::unmarked;
use crate::names::{add_formulas, add_name, add_term, add_terms};
use crate::prepare::{existential_bits, existential_changes, refused};
use floyd_assert_trees::{Assertion, Binder, Names};
use floyd_text::{Name, RuleStop, Steps};
use floyd_tree::{MakeStop, Term};
use sqlite_items::Items;
use std::alloc::{AllocError, Global};
use std::sync::ledger::Ledger;

/// The names of these variables.
fn names_of(alloc: Global, variables: &[Binder]) -> Result<Names, AllocError>
    ensures { IfOk result (λ names. names ≡ binders_names variables.now []) }
{
    let mut names = Names::new(alloc);
    add_binders(&mut names, variables)?;
    Ok(names)
}

/// The names of the variables of a term.
fn names_in(alloc: Global, term: &Term) -> Result<Names, AllocError>
    ensures { IfOk result (λ names. names ≡ term_names term.now []) }
{
    let mut names = Names::new(alloc);
    add_term(&mut names, term)?;
    Ok(names)
}

/// These names, and those that the assertion has: free and bound ones, and those of its existentials.
fn whole_names(alloc: Global, names: Names, a: &Assertion) -> Result<Names, AllocError>
    ensures { IfOk result (λ all. all ≡ whole_names_lem a.now names) }
{
    let mut all = names;
    let terms = terms_in(alloc, a)?;
    add_formulas(&mut all, a.props.as_slice())?;
    add_terms(&mut all, terms.as_slice())?;
    add_binders(&mut all, a.existentials.as_slice())?;
    Ok(all)
}

/// The name of an existential of x: x, unless it is to be avoided, and else one with a mark that is not among the names.
fn next_name(alloc: Global, x: &Name, avoid: &Names, names: &Names) -> Result<Name, AllocError>
    ensures { IfOk result (λ name. name ≡ next_name_lem avoid.now names.now x.now) }
{
    if avoid.get(x).is_none() {
        return x.share();
    }
    unmarked(alloc, names, x)
}

/// The existentials with their names, from the left. Each is one more of the names that none may get.
#[tactic(auto, using(crate::proofs::SetApart::next_existential))]
fn apart_existentials(
    alloc: Global,
    existentials: &[Binder],
    avoid: &Names,
    names: Names,
) -> Result<Vec<Binder>, AllocError>
    ensures value { IfOk result (λ all. all.items ≡ named_from avoid.now names existentials.now) }
    ensures count { IfOk result (λ all. length all.items ≡ length existentials.now) }
{
    let mut taken = names;
    let mut done = Vec::new(alloc);
    'existentials: for binder in existentials {
        let name = next_name(alloc, &binder.name, avoid, &taken)?;
        add_name(&mut taken, &name)?;
        let sort = binder.sort.share()?;
        done.push(Binder { name, sort })?;
    }
    Ok(done)
}

/// The assertion apart from the names to be avoided, which stand a second time among `names`.
fn apart_after<L: Ledger>(
    alloc: Global,
    a: &Assertion,
    avoid: &Names,
    names: Names,
    steps: &mut Steps<L>,
) -> Result<Assertion, MakeStop>
    requires { names ≡ avoid.now }
    ensures ok { IfOk result (λ made. made ≡ apart_lem (has avoid.now) a.now) }
    ensures fits { OnOk result (assertion_fits (apart_lem (has avoid.now) a.now) ≡ true) }
    ensures err { IfErr result (λ stop. StopsWhere stop (assertion_fits (apart_lem (has avoid.now) a.now))) }
{
    let old = a.existentials.as_slice();
    let taken = whole_names(alloc, names, a)?;
    let new = apart_existentials(alloc, old, avoid, taken)?;
    let inside = existential_changes(alloc, &[], old, new.as_slice())?;
    let bits = existential_bits(0, old, new.as_slice());
    let changing = Changing::All(inside.as_slice(), bits);
    body_after(alloc, a, Items::from_vec(new), &changing, steps)
}

fn set_apart<L: Ledger>(
    alloc: Global,
    a: &Assertion,
    avoid: &Names,
    names: Names,
    steps: &mut Steps<L>,
) -> Result<Assertion, RuleStop>
    requires { names ≡ avoid.now }
    ensures exact { RuleGives (λ made. made) result (set_apart_lem (has avoid.now) a.now) }
{
    match apart_after(alloc, a, avoid, names, steps) {
        Ok(made) => Ok(made),
        Err(stop) => Err(refused(stop)),
    }
}

/// An assertion whose existentials are none of these variables: one of their names becomes x'k with the least k from 1 that
/// is neither a variable nor free or bound in the assertion. It means the same.
pub fn rename_apart<L: Ledger>(
    alloc: Global,
    a: &Assertion,
    variables: &[Binder],
    steps: &mut Steps<L>,
) -> Result<Assertion, RuleStop>
    ensures exact { RuleGives (λ made. made) result (set_apart_lem (λ x. has_name x variables.now) a.now) }
{
    let avoid = names_of(alloc, variables)?;
    let names = names_of(alloc, variables)?;
    set_apart(alloc, a, &avoid, names, steps)
}

/// The same where the existentials are none of the variables of a term.
pub fn rename_apart_from<L: Ledger>(
    alloc: Global,
    a: &Assertion,
    term: &Term,
    steps: &mut Steps<L>,
) -> Result<Assertion, RuleStop>
    ensures exact { RuleGives (λ made. made) result (set_apart_lem (λ x. mentions x term.now) a.now) }
{
    let avoid = names_in(alloc, term)?;
    let names = names_in(alloc, term)?;
    set_apart(alloc, a, &avoid, names, steps)
}
