//! What a place wants.
ghost use Rattle.std.specs.Prelude.{◌≡◌, IfOk, OnOk, Some, is_some};
ghost use Rattle.std.specs.Option.{option_copied};
ghost use Rattle.floyd_tree_sorts.specs.Operators.{row};
ghost use Rattle.floyd_tree.specs.WellSorted.{sort_of};
ghost use Rattle.floyd_termread_wants.specs.Wants as specs;

use floyd_tree::{Head, Sort, Term, Width};
use floyd_tree_sorts::RowSort;
use std::alloc::{AllocError, Global};

/// Which terms a place takes, and the sort that is expected there.
pub enum Wanted {
    /// Any term; this sort is expected, if any.
    Any(Option<Sort>),
    /// A term of this sort.
    This(Sort),
    /// A list of any sort.
    List(Option<Sort>),
    /// A tree of any sort.
    Tree(Option<Sort>),
    /// A pair of any sorts.
    Pair,
    /// A literal that is a width.
    Width,
}

impl Drop for Wanted {
    fn drop(self) {
        match self {
            Wanted::Any(expected) => drop(expected),
            Wanted::This(sort) => drop(sort),
            Wanted::List(expected) => drop(expected),
            Wanted::Tree(expected) => drop(expected),
            Wanted::Pair => {}
            Wanted::Width => {}
        }
    }
}

/// What S and T of a row of the sort table stand for, as far as that is known.
pub struct Known {
    pub s: Option<Sort>,
    pub t: Option<Sort>,
}

impl Drop for Known {
    fn drop(self) {
        let Known { s, t } = self;
        drop(s);
        drop(t);
    }
}

/// The width that a literal is.
pub fn width_of(head: &Head) -> Option<Width>
    ensures { result ≡ specs.width_of head.now }
{
    match head {
        Head::Literal(n) => width_number(*n),
        _ => None,
    }
}

fn width_number(n: i128) -> Option<Width>
    ensures { result ≡ specs.width_at n }
{
    if n == 8 {
        return Some(Width::Bits8);
    }
    if n == 16 {
        return Some(Width::Bits16);
    }
    if n == 32 {
        return Some(Width::Bits32);
    }
    if n == 64 { Some(Width::Bits64) } else { None }
}

impl Wanted {
    /// Whether the place takes a term of this head and sort.
    pub fn takes(&self, head: &Head, sort: &Sort) -> bool
        ensures { result ≡ specs.takes_sorted self.now head.now sort.now }
    {
        match self {
            Wanted::Any(_) => true,
            Wanted::This(wanted) => wanted.matches(sort),
            Wanted::List(_) => is_list(sort),
            Wanted::Tree(_) => is_tree(sort),
            Wanted::Pair => is_pair(sort),
            Wanted::Width => width_of(head).is_some(),
        }
    }

    pub fn share(&self) -> Result<Wanted, AllocError>
        ensures { IfOk result (λ w. w ≡ self.now) }
    {
        match self {
            Wanted::Any(expected) => Ok(Wanted::Any(share_option(expected)?)),
            Wanted::This(sort) => Ok(Wanted::This(sort.share()?)),
            Wanted::List(expected) => Ok(Wanted::List(share_option(expected)?)),
            Wanted::Tree(expected) => Ok(Wanted::Tree(share_option(expected)?)),
            Wanted::Pair => Ok(Wanted::Pair),
            Wanted::Width => Ok(Wanted::Width),
        }
    }

    /// The sort that is expected at the place.
    pub fn expected(&self) -> Result<Option<Sort>, AllocError>
        ensures { IfOk result (λ s. s ≡ specs.expected_at self.now) }
    {
        match self {
            Wanted::Any(expected) | Wanted::List(expected) | Wanted::Tree(expected) => {
                share_option(expected)
            }
            Wanted::This(wanted) => Ok(Some(wanted.share()?)),
            Wanted::Pair => Ok(None),
            Wanted::Width => Ok(Some(Sort::Z)),
        }
    }
}

#[tactic(auto, using(crate::proofs::WantLemmas::item_list, crate::proofs::WantLemmas::item_tree, crate::proofs::WantLemmas::item_pair))]
fn is_list(sort: &Sort) -> bool
    ensures { result ≡ specs.is_list sort.now }
{
    match sort {
        Sort::ListOf(_) => true,
        Sort::Z | Sort::Val | Sort::TreeOf(_) | Sort::Prod(_, _) => false,
    }
}

#[tactic(auto, using(crate::proofs::WantLemmas::node_list, crate::proofs::WantLemmas::node_tree, crate::proofs::WantLemmas::node_pair))]
fn is_tree(sort: &Sort) -> bool
    ensures { result ≡ specs.is_tree sort.now }
{
    match sort {
        Sort::TreeOf(_) => true,
        Sort::Z | Sort::Val | Sort::ListOf(_) | Sort::Prod(_, _) => false,
    }
}

#[tactic(auto, using(crate::proofs::WantLemmas::first_list, crate::proofs::WantLemmas::first_tree, crate::proofs::WantLemmas::first_pair))]
fn is_pair(sort: &Sort) -> bool
    ensures { result ≡ specs.is_pair sort.now }
{
    match sort {
        Sort::Prod(_, _) => true,
        Sort::Z | Sort::Val | Sort::ListOf(_) | Sort::TreeOf(_) => false,
    }
}

pub fn share_option(sort: &Option<Sort>) -> Result<Option<Sort>, AllocError>
    ensures { IfOk result (λ s. s ≡ sort.now) }
{
    match sort {
        Some(sort) => Ok(Some(sort.share()?)),
        None => Ok(None),
    }
}

fn list_of(alloc: Global, sort: &Option<Sort>) -> Result<Option<Sort>, AllocError>
    ensures { IfOk result (λ s. s ≡ specs.list_option sort.now) }
{
    match sort {
        Some(sort) => Ok(Some(Sort::list_of(alloc, sort.share()?)?)),
        None => Ok(None),
    }
}

fn tree_of(alloc: Global, sort: &Option<Sort>) -> Result<Option<Sort>, AllocError>
    ensures { IfOk result (λ s. s ≡ specs.tree_option sort.now) }
{
    match sort {
        Some(sort) => Ok(Some(Sort::tree_of(alloc, sort.share()?)?)),
        None => Ok(None),
    }
}

/// What S stands for where a term of this sort stands in a place that is written so.
fn s_part(form: RowSort, sort: &Sort) -> Result<Option<Sort>, AllocError>
    ensures { IfOk result (λ s. s ≡ specs.s_part form sort.now) }
{
    match form {
        RowSort::S => Ok(Some(sort.share()?)),
        RowSort::ListS => sort.item(),
        RowSort::TreeS => sort.node_item(),
        RowSort::ProdST => sort.first(),
        RowSort::Z | RowSort::Val | RowSort::T | RowSort::ListZ | RowSort::ListVal => Ok(None),
    }
}

/// What T stands for there.
fn t_part(form: RowSort, sort: &Sort) -> Result<Option<Sort>, AllocError>
    ensures { IfOk result (λ s. s ≡ specs.t_part form sort.now) }
{
    match form {
        RowSort::T => Ok(Some(sort.share()?)),
        RowSort::ProdST => sort.second(),
        RowSort::Z
        | RowSort::Val
        | RowSort::S
        | RowSort::ListZ
        | RowSort::ListVal
        | RowSort::ListS
        | RowSort::TreeS => Ok(None),
    }
}

fn or_part(known: Option<Sort>, found: Option<Sort>) -> Option<Sort>
    ensures { result ≡ specs.known_or known found }
{
    match known {
        Some(sort) => Some(sort),
        None => found,
    }
}

impl Known {
    pub fn nothing() -> Known
        ensures { result ≡ specs.nothing_known }
    {
        Known { s: None, t: None }
    }

    /// What is known besides, where a term of this sort stands in a place that is written so.
    pub fn learn(self, form: RowSort, sort: &Sort) -> Result<Known, AllocError>
        ensures { IfOk result (λ k. k ≡ specs.learn self form (Some sort.now)) }
    {
        let Known { s, t } = self;
        let s = or_part(s, s_part(form, sort)?);
        let t = or_part(t, t_part(form, sort)?);
        Ok(Known { s, t })
    }

    /// What is known from above, where an application gives a sort that is written so.
    pub fn from_above(gives: RowSort, wanted: &Wanted) -> Result<Known, AllocError>
        ensures { IfOk result (λ k. k ≡ specs.from_above gives wanted.now) }
    {
        match wanted.expected()? {
            Some(sort) => Known::nothing().learn(gives, &sort),
            None => Ok(Known::nothing()),
        }
    }

    /// What a place wants that is written so, by what its application says so far and by what is expected of that.
    pub fn wanted_by(
        &self,
        alloc: Global,
        above: &Known,
        form: RowSort,
    ) -> Result<Wanted, AllocError>
        ensures { IfOk result (λ w. w ≡ specs.wanted_by self.now above.now form) }
    {
        match form {
            RowSort::Z => Ok(Wanted::This(Sort::Z)),
            RowSort::Val => Ok(Wanted::This(Sort::Val)),
            RowSort::ListZ => Ok(Wanted::This(Sort::list_of(alloc, Sort::Z)?)),
            RowSort::ListVal => Ok(Wanted::This(Sort::list_of(alloc, Sort::Val)?)),
            RowSort::S => this_or_any(&self.s, &above.s),
            RowSort::T => this_or_any(&self.t, &above.t),
            RowSort::ListS => list_wanted(alloc, &self.s, &above.s),
            RowSort::TreeS => tree_wanted(alloc, &self.s, &above.s),
            RowSort::ProdST => Ok(Wanted::Pair),
        }
    }
}

fn this_or_any(known: &Option<Sort>, above: &Option<Sort>) -> Result<Wanted, AllocError>
    ensures { IfOk result (λ w. w ≡ specs.this_or_any known.now above.now) }
{
    match known {
        Some(sort) => Ok(Wanted::This(sort.share()?)),
        None => Ok(Wanted::Any(share_option(above)?)),
    }
}

pub fn list_wanted(
    alloc: Global,
    known: &Option<Sort>,
    above: &Option<Sort>,
) -> Result<Wanted, AllocError>
    ensures { IfOk result (λ w. w ≡ specs.list_wanted known.now above.now) }
{
    match known {
        Some(sort) => Ok(Wanted::This(Sort::list_of(alloc, sort.share()?)?)),
        None => Ok(Wanted::List(list_of(alloc, above)?)),
    }
}

fn tree_wanted(
    alloc: Global,
    known: &Option<Sort>,
    above: &Option<Sort>,
) -> Result<Wanted, AllocError>
    ensures { IfOk result (λ w. w ≡ specs.tree_wanted known.now above.now) }
{
    match known {
        Some(sort) => Ok(Wanted::This(Sort::tree_of(alloc, sort.share()?)?)),
        None => Ok(Wanted::Tree(tree_of(alloc, above)?)),
    }
}
