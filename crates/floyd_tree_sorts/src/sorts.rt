ghost use Rattle.std.specs.Prelude.{◌≡◌, IfOk, IsTrue, ◌↔◌};
ghost use Rattle.floyd_tree_sorts.specs.Table.{all_z};
ghost use Rattle.floyd_tree_sorts.specs.Sorts.{same_sorts, list_sort, tree_sort, pair_sort, same_sort, is_z, is_val, is_list_of, is_tree_of, is_pair_of, item_sort, node_sort, first_sort, second_sort};

use floyd_text::Shared;
use sqlite_items::Items;
use std::alloc::{AllocError, Global};

/// Sorts in order, as those of a function's arguments.
pub type SortList = Items<Sort>;

/// The sort of a term: a whole number, a value of the machine, or lists, trees and pairs of these.
pub enum Sort {
    Z,
    Val,
    /// Lists of items of this sort.
    ListOf(Shared<Sort>),
    /// Binary trees with items of this sort at their nodes.
    TreeOf(Shared<Sort>),
    Prod(Shared<Sort>, Shared<Sort>),
}

impl Drop for Sort {
    fn drop(self) {
        match self {
            Sort::Z => {}
            Sort::Val => {}
            Sort::ListOf(sort) => drop(sort),
            Sort::TreeOf(sort) => drop(sort),
            Sort::Prod(first, second) => {
                drop(first);
                drop(second);
            }
        }
    }
}

impl Sort {
    /// The sort of lists of items of this sort.
    #[tactic(auto, using(crate::proofs::SortLemmas::list_of_is))]
    pub fn list_of(alloc: Global, item: Sort) -> Result<Sort, AllocError>
        ensures { IfOk result (λ s. s ≡ list_sort item) }
    {
        Ok(Sort::ListOf(Shared::new(alloc, item)?))
    }

    /// The sort of trees with items of this sort.
    #[tactic(auto, using(crate::proofs::SortLemmas::tree_of_is))]
    pub fn tree_of(alloc: Global, item: Sort) -> Result<Sort, AllocError>
        ensures { IfOk result (λ s. s ≡ tree_sort item) }
    {
        Ok(Sort::TreeOf(Shared::new(alloc, item)?))
    }

    #[tactic(auto, using(crate::proofs::SortLemmas::prod_is))]
    pub fn pair(alloc: Global, first: Sort, second: Sort) -> Result<Sort, AllocError>
        ensures { IfOk result (λ s. s ≡ pair_sort first second) }
    {
        let first = Shared::new(alloc, first)?;
        Ok(Sort::Prod(first, Shared::new(alloc, second)?))
    }

    /// Another owner of the same sort, which is not copied.
    pub fn share(&self) -> Result<Sort, AllocError>
        ensures { IfOk result (λ s. s ≡ self.now) }
    {
        match self {
            Sort::Z => Ok(Sort::Z),
            Sort::Val => Ok(Sort::Val),
            Sort::ListOf(item) => Ok(Sort::ListOf(item.share()?)),
            Sort::TreeOf(item) => Ok(Sort::TreeOf(item.share()?)),
            Sort::Prod(first, second) => Ok(Sort::Prod(first.share()?, second.share()?)),
        }
    }

    pub fn same(&self, other: &Sort) -> bool
        ensures { IsTrue result ↔ (self.now ≡ other.now) }
    {
        match (self, other) {
            (Sort::Z, Sort::Z) => true,
            (Sort::Val, Sort::Val) => true,
            (Sort::ListOf(a), Sort::ListOf(b)) => a.get().same(b.get()),
            (Sort::TreeOf(a), Sort::TreeOf(b)) => a.get().same(b.get()),
            (Sort::Prod(a, c), Sort::Prod(b, d)) => {
                a.get().same(b.get()) && c.get().same(d.get())
            }
            _ => false,
        }
    }

    /// The same as a test that the sort table can cite.
    pub fn matches(&self, other: &Sort) -> bool
        ensures { result ≡ same_sort self.now other.now }
    {
        self.same(other)
    }

    pub fn is_z(&self) -> bool
        ensures { result ≡ is_z self.now }
    {
        match self {
            Sort::Z => true,
            _ => false,
        }
    }

    pub fn is_val(&self) -> bool
        ensures { result ≡ is_val self.now }
    {
        match self {
            Sort::Val => true,
            _ => false,
        }
    }

    /// Whether this is the sort of lists of items of that sort.
    #[tactic(auto, using(crate::proofs::SortLemmas::list_of_is, crate::proofs::SortLemmas::tree_of_is, crate::proofs::SortLemmas::prod_is))]
    pub fn is_list_of(&self, item: &Sort) -> bool
        ensures { result ≡ is_list_of item.now self.now }
    {
        match self {
            Sort::ListOf(own) => item.matches(own.get()),
            Sort::Z | Sort::Val | Sort::TreeOf(_) | Sort::Prod(_, _) => false,
        }
    }

    /// Whether this is the sort of trees with items of that sort.
    #[tactic(auto, using(crate::proofs::SortLemmas::list_of_is, crate::proofs::SortLemmas::tree_of_is, crate::proofs::SortLemmas::prod_is))]
    pub fn is_tree_of(&self, item: &Sort) -> bool
        ensures { result ≡ is_tree_of item.now self.now }
    {
        match self {
            Sort::TreeOf(own) => item.matches(own.get()),
            Sort::Z | Sort::Val | Sort::ListOf(_) | Sort::Prod(_, _) => false,
        }
    }

    /// Whether this is the sort of pairs of these sorts.
    #[tactic(auto, using(crate::proofs::SortLemmas::list_of_is, crate::proofs::SortLemmas::tree_of_is, crate::proofs::SortLemmas::prod_is))]
    pub fn is_pair_of(&self, first: &Sort, second: &Sort) -> bool
        ensures { result ≡ is_pair_of first.now second.now self.now }
    {
        match self {
            Sort::Prod(a, b) => first.matches(a.get()) && second.matches(b.get()),
            Sort::Z | Sort::Val | Sort::ListOf(_) | Sort::TreeOf(_) => false,
        }
    }

    /// The sort of the items, of lists.
    #[tactic(auto, using(crate::proofs::SortLemmas::list_of_is, crate::proofs::SortLemmas::tree_of_is, crate::proofs::SortLemmas::prod_is))]
    pub fn item(&self) -> Result<Option<Sort>, AllocError>
        ensures { IfOk result (λ s. s ≡ item_sort self.now) }
    {
        match self {
            Sort::ListOf(item) => Ok(Some(item.get().share()?)),
            Sort::Z | Sort::Val | Sort::TreeOf(_) | Sort::Prod(_, _) => Ok(None),
        }
    }

    /// The sort of the items, of trees.
    #[tactic(auto, using(crate::proofs::SortLemmas::list_of_is, crate::proofs::SortLemmas::tree_of_is, crate::proofs::SortLemmas::prod_is))]
    pub fn node_item(&self) -> Result<Option<Sort>, AllocError>
        ensures { IfOk result (λ s. s ≡ node_sort self.now) }
    {
        match self {
            Sort::TreeOf(item) => Ok(Some(item.get().share()?)),
            Sort::Z | Sort::Val | Sort::ListOf(_) | Sort::Prod(_, _) => Ok(None),
        }
    }

    /// The sort of the first part, of pairs.
    #[tactic(auto, using(crate::proofs::SortLemmas::list_of_is, crate::proofs::SortLemmas::tree_of_is, crate::proofs::SortLemmas::prod_is))]
    pub fn first(&self) -> Result<Option<Sort>, AllocError>
        ensures { IfOk result (λ s. s ≡ first_sort self.now) }
    {
        match self {
            Sort::Prod(first, _) => Ok(Some(first.get().share()?)),
            Sort::Z | Sort::Val | Sort::ListOf(_) | Sort::TreeOf(_) => Ok(None),
        }
    }

    /// The sort of the second part, of pairs.
    #[tactic(auto, using(crate::proofs::SortLemmas::list_of_is, crate::proofs::SortLemmas::tree_of_is, crate::proofs::SortLemmas::prod_is))]
    pub fn second(&self) -> Result<Option<Sort>, AllocError>
        ensures { IfOk result (λ s. s ≡ second_sort self.now) }
    {
        match self {
            Sort::Prod(_, second) => Ok(Some(second.get().share()?)),
            Sort::Z | Sort::Val | Sort::ListOf(_) | Sort::TreeOf(_) => Ok(None),
        }
    }
}

pub fn same_sorts(a: &[Sort], b: &[Sort]) -> bool
    ensures { IsTrue result ↔ (a.now ≡ b.now) }
{
    if a.len() != b.len() {
        return false;
    }
    'sorts: for i in 0..a.len() {
        if !a[i].same(&b[i]) {
            return false;
        }
    }
    true
}

/// The same as a test that the sort table can cite.
pub fn sorts_match(a: &[Sort], b: &[Sort]) -> bool
    ensures { result ≡ same_sorts a.now b.now }
{
    same_sorts(a, b)
}

pub fn all_z(sorts: &[Sort]) -> bool
    ensures { result ≡ all_z sorts.now }
{
    'sorts: for sort in sorts {
        if !sort.is_z() {
            return false;
        }
    }
    true
}
