ghost use Rattle.std.specs.Prelude.{◌≡◌, true, IfOk, IfErr, OnOk, map};
ghost use Rattle.std.specs.List.{list_all};
ghost use Rattle.floyd_tree_sorts.specs.declared.heads.Head.TheVariants.{Variable};
ghost use Rattle.floyd_assert_changes.specs.ChangesClauses.{IsChanging, IsNode, changes};
ghost use Rattle.floyd_assert_changes.specs.FittingClauses.{StopsWhere};
ghost use Rattle.floyd_tree.specs.Made.{fits};
ghost use Rattle.floyd_tree.specs.Plain.{head_of, kids_of, plains};
ghost use Rattle.floyd_truth.specs.Replace.{AllSortsAgree, SortsAgree, replaced};

use crate::changing::{Changing, Fate, bits, found};
use floyd_text::{Name, Steps};
use floyd_tree::{Head, MakeStop, Sort, Term, head, kids, make, sort};
use std::alloc::Global;
use std::sync::ledger::Ledger;

/// The term after the changes. What has none of the variables is shared.
#[cycle(terms)]
#[tactic(auto, using(crate::proofs::Heights::heights_below, crate::proofs::Replacing::still_is, crate::proofs::Replacing::agree_kids))]
pub fn term_after<L: Ledger>(
    alloc: Global,
    t: &Term,
    changing: &Changing,
    steps: &mut Steps<L>,
) -> Result<Term, MakeStop>
    requires sorts { SortsAgree (changes changing.now) t.now }
    requires still { IsChanging changing.now }
    ensures ok { IfOk result (λ made. made ≡ replaced (changes changing.now) t.now) }
    ensures fits { OnOk result (fits (replaced (changes changing.now) t.now) ≡ true) }
    ensures err { IfErr result (λ stop. StopsWhere stop (fits (replaced (changes changing.now) t.now))) }
{
    if t.summary() & bits(changing) == 0 {
        return same_term(t, changing);
    }
    match head(t) {
        Head::Variable(x, own) => variable_after(alloc, t, x, own, changing, steps),
        _ => {
            let kids = terms_after(alloc, kids(t).as_slice(), changing, steps)?;
            node_after(alloc, t, kids.as_slice(), changing, steps)
        }
    }
}

/// A term that stays as it is.
#[tactic(auto, using(crate::proofs::Replacing::sound_there))]
fn same_term(t: &Term, changing: &Changing) -> Result<Term, MakeStop>
    requires { replaced (changes changing.now) t.now ≡ t.now }
    ensures ok { IfOk result (λ made. made ≡ replaced (changes changing.now) t.now) }
    ensures fits { OnOk result (fits (replaced (changes changing.now) t.now) ≡ true) }
    ensures err { IfErr result (λ stop. StopsWhere stop (fits (replaced (changes changing.now) t.now))) }
{
    Ok(t.share()?)
}

/// What stands in a variable's place.
fn variable_after<L: Ledger>(
    alloc: Global,
    t: &Term,
    x: &Name,
    own: &Sort,
    changing: &Changing,
    steps: &mut Steps<L>,
) -> Result<Term, MakeStop>
    requires { head_of t.now ≡ Variable x.now own.now }
    ensures ok { IfOk result (λ made. made ≡ replaced (changes changing.now) t.now) }
    ensures fits { OnOk result (fits (replaced (changes changing.now) t.now) ≡ true) }
    ensures err { IfErr result (λ stop. StopsWhere stop (fits (replaced (changes changing.now) t.now))) }
{
    let _sort = sort(t);
    match found(changing, x) {
        Fate::Put(term) => Ok(term.share()?),
        Fate::Called(name) => {
            let head = Head::Variable(name.share()?, own.share()?);
            make(alloc, head, &[], steps)
        }
        Fate::Stays => Ok(t.share()?),
    }
}

/// The node of a term, which is no variable, over kids that are changed already.
fn node_after<L: Ledger>(
    alloc: Global,
    t: &Term,
    kids: &[Term],
    changing: &Changing,
    steps: &mut Steps<L>,
) -> Result<Term, MakeStop>
    requires head { IsNode (head_of t.now) }
    requires kids { kids.now ≡ map (replaced (changes changing.now)) (kids_of t.now) }
    requires sorts { SortsAgree (changes changing.now) t.now }
    ensures ok { IfOk result (λ made. made ≡ replaced (changes changing.now) t.now) }
    ensures fits { OnOk result (fits (replaced (changes changing.now) t.now) ≡ true) }
    ensures err { IfErr result (λ stop. StopsWhere stop (fits (replaced (changes changing.now) t.now))) }
{
    let _sort = sort(t);
    let head = head(t).share()?;
    make(alloc, head, kids, steps)
}

/// The terms after the changes.
#[cycle(terms)]
#[tactic(auto, using(crate::proofs::Heights::height_at, crate::proofs::Replacing::agree_at))]
pub fn terms_after<L: Ledger>(
    alloc: Global,
    terms: &[Term],
    changing: &Changing,
    steps: &mut Steps<L>,
) -> Result<Vec<Term>, MakeStop>
    requires sorts { AllSortsAgree (changes changing.now) (plains terms.now) }
    requires still { IsChanging changing.now }
    ensures ok { IfOk result (λ all. all.items ≡ map (replaced (changes changing.now)) terms.now) }
    ensures fits { OnOk result (list_all fits (map (replaced (changes changing.now)) terms.now) ≡ true) }
    ensures err { IfErr result (λ stop. StopsWhere stop (list_all fits (map (replaced (changes changing.now)) terms.now))) }
{
    let mut all = Vec::with_capacity(alloc, terms.len())?;
    'terms: for term in terms {
        all.push(term_after(alloc, term, changing, steps)?)?;
    }
    Ok(all)
}
