ghost use Rattle.std.specs.Prelude.{◌≡◌, ◌∷◌, [], IfOk, true};
ghost use Rattle.floyd_tree_sorts.specs.Sorts.{same_sort};
ghost use Rattle.floyd_tree_sorts.specs.Table.{by_row, s_in, t_in, written};

use crate::operators::{Arguments, Row, RowSort};
use crate::sorts::Sort;
use std::alloc::{AllocError, Global};

impl RowSort {
    /// What stands for `S` in an argument of this sort, and else the other.
    fn s_in(self, a: &Sort, other: Sort) -> Result<Sort, AllocError>
        ensures { IfOk result (λ s. s ≡ s_in self a.now other) }
    {
        match self {
            RowSort::S => a.share(),
            RowSort::ListS => Ok(a.item()?.unwrap_or(other)),
            RowSort::TreeS => Ok(a.node_item()?.unwrap_or(other)),
            RowSort::ProdST => Ok(a.first()?.unwrap_or(other)),
            RowSort::Z | RowSort::Val | RowSort::T | RowSort::ListZ | RowSort::ListVal => Ok(other),
        }
    }

    /// What stands for `T` in an argument of this sort, and else the other.
    fn t_in(self, a: &Sort, other: Sort) -> Result<Sort, AllocError>
        ensures { IfOk result (λ s. s ≡ t_in self a.now other) }
    {
        match self {
            RowSort::T => a.share(),
            RowSort::ProdST => Ok(a.second()?.unwrap_or(other)),
            RowSort::Z
            | RowSort::Val
            | RowSort::S
            | RowSort::ListZ
            | RowSort::ListVal
            | RowSort::ListS
            | RowSort::TreeS => Ok(other),
        }
    }

    /// Whether the sort is the one that is written so, where these stand for `S` and `T`.
    #[tactic(auto, using(crate::proofs::SortLemmas::same_z, crate::proofs::SortLemmas::same_val, crate::proofs::SortLemmas::same_list, crate::proofs::SortLemmas::same_tree, crate::proofs::SortLemmas::same_pair))]
    fn fits(self, s: &Sort, t: &Sort, a: &Sort) -> bool
        ensures { result ≡ same_sort (written s.now t.now self) a.now }
    {
        match self {
            RowSort::Z => a.is_z(),
            RowSort::Val => a.is_val(),
            RowSort::S => s.matches(a),
            RowSort::T => t.matches(a),
            RowSort::ListZ => a.is_list_of(&Sort::Z),
            RowSort::ListVal => a.is_list_of(&Sort::Val),
            RowSort::ListS => a.is_list_of(s),
            RowSort::TreeS => a.is_tree_of(s),
            RowSort::ProdST => a.is_pair_of(s, t),
        }
    }

    /// The sort that is written so.
    fn written_sort(self, alloc: Global, s: Sort, t: Sort) -> Result<Sort, AllocError>
        ensures { IfOk result (λ r. r ≡ written s t self) }
    {
        match self {
            RowSort::Z => Ok(Sort::Z),
            RowSort::Val => Ok(Sort::Val),
            RowSort::S => Ok(s),
            RowSort::T => Ok(t),
            RowSort::ListZ => Sort::list_of(alloc, Sort::Z),
            RowSort::ListVal => Sort::list_of(alloc, Sort::Val),
            RowSort::ListS => Sort::list_of(alloc, s),
            RowSort::TreeS => Sort::tree_of(alloc, s),
            RowSort::ProdST => Sort::pair(alloc, s, t),
        }
    }

    /// The same: it is the last argument's own sort where the row writes both alike.
    #[tactic(auto, using(crate::proofs::SortLemmas::same_sort_true))]
    fn given_sort(
        self,
        alloc: Global,
        last: RowSort,
        a: &Sort,
        s: Sort,
        t: Sort,
    ) -> Result<Sort, AllocError>
        requires { same_sort (written s t last) a.now ≡ true }
        ensures { IfOk result (λ r. r ≡ written s t self) }
    {
        if self == last {
            a.share()
        } else {
            self.written_sort(alloc, s, t)
        }
    }
}

/// What an operator of this row gives without kids.
pub fn sort0(alloc: Global, row: Row) -> Result<Option<Sort>, AllocError>
    ensures { IfOk result (λ s. s ≡ by_row row []) }
{
    match row.takes {
        Arguments::Nothing => Ok(Some(row.gives.written_sort(alloc, Sort::Z, Sort::Z)?)),
        Arguments::One(_) | Arguments::Two(_, _) | Arguments::Three(_, _, _) => Ok(None),
    }
}

/// What an operator of this row gives of one kid of this sort.
pub fn sort1(alloc: Global, row: Row, a: &Sort) -> Result<Option<Sort>, AllocError>
    ensures { IfOk result (λ s. s ≡ by_row row (a.now ∷ [])) }
{
    match row.takes {
        Arguments::One(p) => {
            let s = p.s_in(a, Sort::Z)?;
            let t = p.t_in(a, Sort::Z)?;
            if !p.fits(&s, &t, a) {
                return Ok(None);
            }
            Ok(Some(row.gives.given_sort(alloc, p, a, s, t)?))
        }
        Arguments::Nothing | Arguments::Two(_, _) | Arguments::Three(_, _, _) => Ok(None),
    }
}

/// What an operator of this row gives of two kids.
pub fn sort2(alloc: Global, row: Row, a: &Sort, b: &Sort) -> Result<Option<Sort>, AllocError>
    ensures { IfOk result (λ s. s ≡ by_row row (a.now ∷ b.now ∷ [])) }
{
    match row.takes {
        Arguments::Two(p, q) => {
            let s = p.s_in(a, q.s_in(b, Sort::Z)?)?;
            let t = p.t_in(a, q.t_in(b, Sort::Z)?)?;
            if !p.fits(&s, &t, a) || !q.fits(&s, &t, b) {
                return Ok(None);
            }
            Ok(Some(row.gives.given_sort(alloc, q, b, s, t)?))
        }
        Arguments::Nothing | Arguments::One(_) | Arguments::Three(_, _, _) => Ok(None),
    }
}

/// What an operator of this row gives of three kids.
pub fn sort3(
    alloc: Global,
    row: Row,
    a: &Sort,
    b: &Sort,
    c: &Sort,
) -> Result<Option<Sort>, AllocError>
    ensures { IfOk result (λ s. s ≡ by_row row (a.now ∷ b.now ∷ c.now ∷ [])) }
{
    match row.takes {
        Arguments::Three(p, q, o) => {
            let s = p.s_in(a, q.s_in(b, o.s_in(c, Sort::Z)?)?)?;
            let t = p.t_in(a, q.t_in(b, o.t_in(c, Sort::Z)?)?)?;
            if !p.fits(&s, &t, a) || !q.fits(&s, &t, b) || !o.fits(&s, &t, c) {
                return Ok(None);
            }
            Ok(Some(row.gives.given_sort(alloc, o, c, s, t)?))
        }
        Arguments::Nothing | Arguments::One(_) | Arguments::Two(_, _) => Ok(None),
    }
}
