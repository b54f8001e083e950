ghost use Rattle.std.specs.Prelude.{◌≡◌, ◌++◌, IfOk, length};
ghost use Rattle.floyd_text.specs.Gives.{RuleGives};
ghost use Rattle.floyd_assert_instances.specs.Instances.{have_sorts as have_sorts_lem, ill_sorted as ill_sorted_lem, pairs as pairs_lem, taken, wrong_count as wrong_count_lem};

use floyd_assert_trees::Binder;
use floyd_text::{Code, Name, No, RuleStop, Shown};
use floyd_tree::{Term, sort};
use std::alloc::{AllocError, Global};

fn wrong_count(count: usize) -> No
    ensures { result ≡ wrong_count_lem count }
{
    No {
        code: Code::WithMismatch,
        shown: Shown::Count(count as u64),
    }
}

fn ill_sorted() -> No
    ensures { result ≡ ill_sorted_lem }
{
    No {
        code: Code::IllSorted,
        shown: Shown::Nothing,
    }
}

/// Whether each term has the sort of its variable.
fn have_sorts(binders: &[Binder], terms: &[Term]) -> bool
    requires { length binders.now ≡ length terms.now }
    ensures { result ≡ have_sorts_lem binders.now terms.now }
{
    'terms: for i in 0..terms.len() {
        if !sort(&terms[i]).matches(&binders[i].sort) {
            return false;
        }
    }
    true
}

fn paired(
    alloc: Global,
    binders: &[Binder],
    terms: &[Term],
) -> Result<Vec<(Name, Term)>, AllocError>
    requires { length binders.now ≡ length terms.now }
    ensures { IfOk result (λ all. all.items ≡ pairs_lem binders.now terms.now) }
{
    let mut all = Vec::with_capacity(alloc, terms.len())?;
    'terms: for i in 0..terms.len() {
        let name = binders[i].name.share()?;
        all.push((name, terms[i].share()?))?;
    }
    Ok(all)
}

/// Each variable with the term that stands for it, in order. Another number of terms than of variables is refused first,
/// and shown, then a term of another sort than its variable's.
pub fn pairs(
    alloc: Global,
    binders: &[Binder],
    terms: &[Term],
) -> Result<Vec<(Name, Term)>, RuleStop>
    ensures exact { RuleGives (λ all. all.items) result (taken binders.now terms.now) }
{
    if terms.len() != binders.len() {
        return Err(RuleStop::No(wrong_count(terms.len())));
    }
    if !have_sorts(binders, terms) {
        return Err(RuleStop::No(ill_sorted()));
    }
    Ok(paired(alloc, binders, terms)?)
}
