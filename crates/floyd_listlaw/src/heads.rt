ghost use Rattle.std.specs.Prelude.{◌≡◌, IfOk};
ghost use Rattle.floyd_listlaw.specs.Terms.{form_head, head_with};

use crate::fitting::written;
use floyd_tree::{FormulaHead, Head, Operator, Sort, Width};
use floyd_tree_sorts::RowSort;
use std::alloc::{AllocError, Global};

/// What stands at a node of a term that a law writes. A sort is that of the law's row, in which `S` stands for any sort.
#[derive(Clone, Copy, PartialEq, Eq, Debug)]
pub enum LawHead {
    Literal(i128),
    Nil(RowSort),
    Signed(Width),
    Unsigned(Width),
    Operator(Operator),
}

impl LawHead {
    /// The head, where this sort stands for `S`.
    pub fn with_sort(self, alloc: Global, s: &Sort) -> Result<Head, AllocError>
        ensures { IfOk result (λ head. head ≡ head_with s.now self) }
    {
        match self {
            LawHead::Literal(z) => Ok(Head::Literal(z)),
            LawHead::Nil(form) => Ok(Head::Nil(written(alloc, form, s)?)),
            LawHead::Signed(width) => Ok(Head::Signed(width)),
            LawHead::Unsigned(width) => Ok(Head::Unsigned(width)),
            LawHead::Operator(operator) => Ok(Head::Operator(operator)),
        }
    }
}

/// What stands at a node of a formula that a law writes.
#[derive(Clone, Copy, PartialEq, Eq, Debug)]
pub enum LawForm {
    False,
    Equal,
    AtMost,
    IsPtr,
    Or,
    Implies,
}

impl LawForm {
    pub fn head(self) -> FormulaHead
        ensures { result ≡ form_head self }
    {
        match self {
            LawForm::False => FormulaHead::False,
            LawForm::Equal => FormulaHead::Equal,
            LawForm::AtMost => FormulaHead::AtMost,
            LawForm::IsPtr => FormulaHead::IsPtr,
            LawForm::Or => FormulaHead::Or,
            LawForm::Implies => FormulaHead::Implies,
        }
    }
}
