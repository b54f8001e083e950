//! The sorts that are expected of terms.
ghost use Rattle.std.specs.Prelude.{◌≡◌, IfOk, option_map, option_and_then, slice_get, length, Some};
ghost use Rattle.std.specs.Option.{option_copied};
ghost use Rattle.floyd_tree.specs.WellSorted.{sort_of};
ghost use Rattle.floyd_play_terms.specs.Expected as specs;

use floyd_assert_trees::Binder;
use floyd_tree::{Sort, Term, sort};
use floyd_tree_sorts::RowSort;
use std::alloc::{AllocError, Global};

/// What is expected of the terms of a list: the sorts of binders in order, or those of the arguments of a law, in which
/// `S` stands for what an earlier term has fixed. Of terms beyond the last nothing is.
#[derive(Clone, Copy)]
pub enum Expected<'a> {
    Binders(&'a [Binder]),
    Forms(&'a [RowSort]),
}

/// The sort of the binder of that number.
fn by_binders(binders: &[Binder], number: usize) -> Result<Option<Sort>, AllocError>
    ensures { IfOk result (λ s. s ≡ option_map (λ b. b.sort) (slice_get binders.now number)) }
{
    match binders.get(number) {
        Some(binder) => Ok(Some(binder.sort.share()?)),
        None => Ok(None),
    }
}

/// What a term fixes for `S`, where an argument has this form.
fn fixed_by(form: RowSort, term: &Term) -> Result<Option<Sort>, AllocError>
    ensures { IfOk result (λ s. s ≡ specs.fixed_by form (sort_of term.now)) }
{
    match form {
        RowSort::S => Ok(Some(sort(term).share()?)),
        RowSort::ListS => sort(term).item(),
        RowSort::Z
        | RowSort::Val
        | RowSort::T
        | RowSort::ListZ
        | RowSort::ListVal
        | RowSort::TreeS
        | RowSort::ProdST => Ok(None),
    }
}

/// What the first term fixes for `S` that fixes anything.
fn fixed(forms: &[RowSort], terms: &[Term]) -> Result<Option<Sort>, AllocError>
    ensures { IfOk result (λ s. s ≡ specs.fixed forms.now terms.now) }
{
    let [form, other_forms @ ..] = forms else {
        return Ok(None);
    };
    let [term, others @ ..] = terms else {
        return Ok(None);
    };
    if let Some(found) = fixed_by(*form, term)? {
        return Ok(Some(found));
    }
    fixed(other_forms, others)
}

/// The sort that is written so, where this stands for `S`.
fn written(alloc: Global, s: Option<Sort>, form: RowSort) -> Result<Option<Sort>, AllocError>
    ensures { IfOk result (λ r. r ≡ specs.written s form) }
{
    match form {
        RowSort::Z => Ok(Some(Sort::Z)),
        RowSort::Val => Ok(Some(Sort::Val)),
        RowSort::ListZ => Ok(Some(Sort::list_of(alloc, Sort::Z)?)),
        RowSort::ListVal => Ok(Some(Sort::list_of(alloc, Sort::Val)?)),
        RowSort::S => Ok(s),
        RowSort::ListS => match s {
            Some(item) => Ok(Some(Sort::list_of(alloc, item)?)),
            None => Ok(None),
        },
        RowSort::T | RowSort::TreeS | RowSort::ProdST => Ok(None),
    }
}

fn by_forms(alloc: Global, forms: &[RowSort], terms: &[Term]) -> Result<Option<Sort>, AllocError>
    ensures { IfOk result (λ s. s ≡ specs.by_forms forms.now terms.now) }
{
    match forms.get(terms.len()) {
        Some(form) => {
            let s = fixed(forms, terms)?;
            written(alloc, s, *form)
        }
        None => Ok(None),
    }
}

impl<'a> Expected<'a> {
    /// The sort that is expected behind these terms.
    pub fn behind(self, alloc: Global, terms: &[Term]) -> Result<Option<Sort>, AllocError>
        ensures { IfOk result (λ s. s ≡ specs.expected self.entry terms.now) }
    {
        match self {
            Expected::Binders(binders) => by_binders(binders, terms.len()),
            Expected::Forms(forms) => by_forms(alloc, forms, terms),
        }
    }
}
