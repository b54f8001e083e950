ghost use Rattle.std.specs.Prelude.{◌≡◌, [], IfOk};
ghost use Rattle.floyd_assert_changes.specs.Changed.{AssertionSortsAgree, assertion_with};
ghost use Rattle.floyd_assert_instances.specs.Specifications.{SpecSortsAgree, TakesTerms, asked as asked_lem, given as given_lem, instance_of as instance_of_lem, instantiated, returned as returned_lem, spec_with as spec_with_lem, value_in as value_in_lem, with_params as with_params_lem, with_post as with_post_lem};
ghost use Rattle.floyd_text.specs.Gives.{RuleGives};
ghost use Rattle.floyd_truth.specs.Replace.{puts};

use crate::pairing::pairs;
use floyd_assert_changes::{change_assertion, subst_terms};
use floyd_assert_trees::{
    Assertion, BinderList, Funspec, Local, LocalList, Postcondition, Precondition, share_binders,
    share_formulas, share_parts, share_terms,
};
use floyd_text::{Name, RuleStop, Steps};
use floyd_tree::{Term, TermList};
use std::alloc::{AllocError, Global};
use std::sync::ledger::Ledger;

/// A specification at terms for the variables of WITH: what is asked of formulas and memory and of arguments, and what is
/// given.
pub struct Instance {
    pub pre: Assertion,
    /// The terms of PARAMS.
    pub params: TermList,
    pub post: Assertion,
    /// The term of RETURN, under the existentials of `post`, unless the function is void.
    pub value: Option<Term>,
}

impl Drop for Instance {
    fn drop(self) {
        let Instance {
            pre,
            params,
            post,
            value,
        } = self;
        drop(pre);
        drop(params);
        drop(post);
        drop(value);
    }
}

/// PROP and SEP of a precondition.
fn asked(alloc: Global, pre: &Precondition) -> Result<Assertion, AllocError>
    ensures { IfOk result (λ a. a ≡ asked_lem pre.now) }
{
    let props = share_formulas(alloc, pre.props.as_slice())?;
    let parts = share_parts(alloc, pre.parts.as_slice())?;
    Ok(Assertion {
        existentials: BinderList::new(alloc),
        props,
        locals: LocalList::new(alloc),
        parts,
    })
}

/// A temporary without a name that has this value.
fn unnamed(alloc: Global, term: &Term) -> Result<Local, AllocError>
    ensures { IfOk result (λ l. l ≡ record { name = []; term = term.now }) }
{
    let name = Name::new(alloc, Vec::new(alloc))?;
    let term = term.share()?;
    Ok(Local { name, term })
}

/// RETURN's term as the value of a temporary.
fn returned(alloc: Global, value: &Option<Term>) -> Result<LocalList, AllocError>
    ensures { IfOk result (λ all. all ≡ returned_lem value.now) }
{
    let mut all = LocalList::new(alloc);
    match value {
        None => Ok(all),
        Some(term) => {
            all.push(unnamed(alloc, term)?)?;
            Ok(all)
        }
    }
}

/// A postcondition with RETURN's term as the value of a temporary.
fn given(alloc: Global, post: &Postcondition) -> Result<Assertion, AllocError>
    ensures { IfOk result (λ a. a ≡ given_lem post.now) }
{
    let existentials = share_binders(alloc, post.existentials.as_slice())?;
    let props = share_formulas(alloc, post.props.as_slice())?;
    let locals = returned(alloc, &post.value)?;
    let parts = share_parts(alloc, post.parts.as_slice())?;
    Ok(Assertion {
        existentials,
        props,
        locals,
        parts,
    })
}

fn value_in(locals: &[Local]) -> Result<Option<Term>, AllocError>
    ensures { IfOk result (λ v. v ≡ value_in_lem locals.now) }
{
    match locals {
        [] => Ok(None),
        [local, ..] => Ok(Some(local.term.share()?)),
    }
}

/// The instance, of what is asked, of the terms of PARAMS and of what is given.
fn instance_of(
    alloc: Global,
    pre: &Assertion,
    params: &TermList,
    post: &Assertion,
) -> Result<Instance, AllocError>
    ensures { IfOk result (λ i. i ≡ instance_of_lem pre.now params.now post.now) }
{
    let value = value_in(post.locals.as_slice())?;
    let existentials = share_binders(alloc, post.existentials.as_slice())?;
    let props = share_formulas(alloc, post.props.as_slice())?;
    let parts = share_parts(alloc, post.parts.as_slice())?;
    let post = Assertion {
        existentials,
        props,
        locals: LocalList::new(alloc),
        parts,
    };
    let pre = pre.share(alloc)?;
    let params = share_terms(alloc, params.as_slice())?;
    Ok(Instance {
        pre,
        params,
        post,
        value,
    })
}

fn asked_with<L: Ledger>(
    alloc: Global,
    pre: &Precondition,
    by: &[(Name, Term)],
    steps: &mut Steps<L>,
) -> Result<Assertion, RuleStop>
    requires { AssertionSortsAgree (puts by.now) (asked_lem pre.now) }
    ensures exact { RuleGives (λ a. a) result (assertion_with by.now (asked_lem pre.now)) }
{
    let whole = asked(alloc, pre)?;
    change_assertion(alloc, &whole, by, steps)
}

fn given_with<L: Ledger>(
    alloc: Global,
    post: &Postcondition,
    by: &[(Name, Term)],
    steps: &mut Steps<L>,
) -> Result<Assertion, RuleStop>
    requires { AssertionSortsAgree (puts by.now) (given_lem post.now) }
    ensures exact { RuleGives (λ a. a) result (assertion_with by.now (given_lem post.now)) }
{
    let whole = given(alloc, post)?;
    change_assertion(alloc, &whole, by, steps)
}

/// The instance, where what is asked and the terms of PARAMS are changed already.
#[tactic(auto, using(floyd_fieldpath::proofs::WrittenLemmas::goes_on, floyd_fieldpath::proofs::WrittenLemmas::stops))]
fn with_post<L: Ledger>(
    alloc: Global,
    spec: &Funspec,
    by: &[(Name, Term)],
    pre: &Assertion,
    params: &TermList,
    steps: &mut Steps<L>,
) -> Result<Instance, RuleStop>
    requires sorts { SpecSortsAgree by.now spec.now }
    ensures exact { RuleGives (λ i. i) result (with_post_lem by.now spec.now pre.now params.now) }
{
    let post = given_with(alloc, &spec.post, by, steps)?;
    Ok(instance_of(alloc, pre, params, &post)?)
}

/// The same, where what is asked is changed already.
#[tactic(auto, using(floyd_fieldpath::proofs::WrittenLemmas::goes_on, floyd_fieldpath::proofs::WrittenLemmas::stops))]
fn with_params<L: Ledger>(
    alloc: Global,
    spec: &Funspec,
    by: &[(Name, Term)],
    pre: &Assertion,
    steps: &mut Steps<L>,
) -> Result<Instance, RuleStop>
    requires sorts { SpecSortsAgree by.now spec.now }
    ensures exact { RuleGives (λ i. i) result (with_params_lem by.now spec.now pre.now) }
{
    let params = subst_terms(alloc, spec.pre.params.as_slice(), by, steps)?;
    with_post(alloc, spec, by, pre, &params, steps)
}

/// A specification with these terms in place of these variables.
#[tactic(auto, using(floyd_fieldpath::proofs::WrittenLemmas::goes_on, floyd_fieldpath::proofs::WrittenLemmas::stops))]
fn spec_with<L: Ledger>(
    alloc: Global,
    spec: &Funspec,
    by: &[(Name, Term)],
    steps: &mut Steps<L>,
) -> Result<Instance, RuleStop>
    requires sorts { SpecSortsAgree by.now spec.now }
    ensures exact { RuleGives (λ i. i) result (spec_with_lem by.now spec.now) }
{
    let pre = asked_with(alloc, &spec.pre, by, steps)?;
    with_params(alloc, spec, by, &pre, steps)
}

/// A specification at terms for its variables of WITH, which are replaced all at once. Existentials of the postcondition
/// are renamed where they would capture a variable of a term.
///
/// Another number of terms is refused first, and shown, then a term of another sort than its variable's, then a term or
/// formula beyond the limits. Each free variable of the specification that is one of WITH has the sort that it has there.
#[tactic(auto, using(floyd_fieldpath::proofs::WrittenLemmas::goes_on, floyd_fieldpath::proofs::WrittenLemmas::stops))]
pub fn instantiate<L: Ledger>(
    alloc: Global,
    spec: &Funspec,
    terms: &TermList,
    steps: &mut Steps<L>,
) -> Result<Instance, RuleStop>
    requires sorts { TakesTerms spec.now terms.now }
    ensures exact { RuleGives (λ i. i) result (instantiated spec.now terms.now) }
{
    let by = pairs(alloc, spec.with.as_slice(), terms.as_slice())?;
    spec_with(alloc, spec, by.as_slice(), steps)
}
