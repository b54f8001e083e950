ghost use Rattle.std.specs.Prelude.{◌≡◌, IfOk};
ghost use Rattle.floyd_clight.specs.Types.{type_of};
ghost use Rattle.floyd_text.specs.Gives.{RuleGives};
ghost use Rattle.floyd_symexpr_paths.specs.Places.{element as element_lem, field as field_lem, first as first_lem, object_value as object_value_lem};
ghost use Rattle.floyd_symexpr.specs.Expressions.{operated_cast as operated_cast_lem, operated_one as operated_one_lem, operated_two as operated_two_lem, element_at as element_at_lem};

use floyd_assert_trees::Assertion;
use floyd_clight::{Expr, UnaryOp};
use floyd_ctypes::{CType, StructTable};
use floyd_int::{IntKind, IntOp};
use floyd_symexpr_paths::{Lvalue, element, field, first, object_value};
use floyd_symexpr_pointers::{binary, cast, operand, unary};
use floyd_symexpr_rows::{Needs, Objects, number};
use floyd_text::{Name, RuleStop, Steps};
use floyd_tree::Term;
use std::alloc::{AllocError, Global};
use std::sync::ledger::Ledger;

/// Under what expressions are read: an assertion, and the structs.
#[derive(Clone, Copy)]
pub(crate) struct Setting<'a> {
    pub(crate) alloc: Global,
    pub(crate) source: &'a Assertion,
    pub(crate) structs: &'a StructTable,
}

impl<'a> Setting<'a> {
    pub(crate) fn objects(self) -> Objects<'a>
        ensures structs { result.structs.now ≡ self.entry.structs.now }
        ensures parts { result.parts.now ≡ self.entry.source.now.parts }
    {
        Objects {
            alloc: self.alloc,
            structs: self.structs,
            parts: self.source.parts.as_slice(),
        }
    }
}

/// The expression and the term of an operand.
#[derive(Clone, Copy)]
pub(crate) struct Argument<'a> {
    pub(crate) expression: &'a Expr,
    pub(crate) term: &'a Term,
}

/// A unary operator on an operand.
#[tactic(auto, using(floyd_symexpr_rows::proofs::SayingLemmas::goes_on, floyd_symexpr_rows::proofs::SayingLemmas::stops))]
pub(crate) fn operated_one<L: Ledger>(
    alloc: Global,
    op: UnaryOp,
    v: Argument<'_>,
    needs: &mut Needs,
    steps: &mut Steps<L>,
) -> Result<Term, RuleStop>
    ensures exact { RuleGives (λ t. (t, needs.new)) result (operated_one_lem op (type_of v.entry.expression.now) v.entry.term.now needs.old) }
{
    let a = operand(alloc, v.expression.ctype(), v.term)?;
    unary(alloc, op, &a, needs, steps)
}

/// A binary operator on two operands.
#[tactic(auto, using(floyd_symexpr_rows::proofs::SayingLemmas::goes_on, floyd_symexpr_rows::proofs::SayingLemmas::stops))]
pub(crate) fn operated_two<L: Ledger>(
    at: Setting<'_>,
    op: IntOp,
    v: Argument<'_>,
    w: Argument<'_>,
    needs: &mut Needs,
    steps: &mut Steps<L>,
) -> Result<Term, RuleStop>
    ensures exact { RuleGives (λ t. (t, needs.new)) result (operated_two_lem at.entry.structs.now at.entry.source.now.parts op (type_of v.entry.expression.now) v.entry.term.now (type_of w.entry.expression.now) w.entry.term.now needs.old) }
{
    let a = operand(at.alloc, v.expression.ctype(), v.term)?;
    let b = operand(at.alloc, w.expression.ctype(), w.term)?;
    binary(&at.objects(), op, &a, &b, needs, steps)
}

/// A cast of an operand to a type.
#[tactic(auto, using(floyd_symexpr_rows::proofs::SayingLemmas::goes_on, floyd_symexpr_rows::proofs::SayingLemmas::stops))]
pub(crate) fn operated_cast<L: Ledger>(
    alloc: Global,
    v: Argument<'_>,
    to: &CType,
    needs: &mut Needs,
    steps: &mut Steps<L>,
) -> Result<Term, RuleStop>
    ensures exact { RuleGives (λ t. (t, needs.new)) result (operated_cast_lem (type_of v.entry.expression.now) to.now v.entry.term.now needs.old) }
{
    let a = operand(alloc, v.expression.ctype(), v.term)?;
    cast(alloc, to, &a, needs, steps)
}

/// The element at a subscript, which is the number of a term.
#[tactic(auto, using(floyd_symexpr_rows::proofs::SayingLemmas::goes_on, floyd_symexpr_rows::proofs::SayingLemmas::stops))]
pub(crate) fn element_at<L: Ledger>(
    alloc: Global,
    t: &CType,
    kind: IntKind,
    v: &Term,
    l: Lvalue,
    steps: &mut Steps<L>,
) -> Result<Lvalue, RuleStop>
    ensures exact { RuleGives (λ m. m) result (element_at_lem t.now kind v.now l) }
{
    let i = number(kind, v)?;
    Ok(element(alloc, t, i, l, steps)?)
}

/// The first element of an array.
pub(crate) fn first_element<L: Ledger>(
    alloc: Global,
    t: &CType,
    l: Lvalue,
    steps: &mut Steps<L>,
) -> Result<Lvalue, AllocError>
    ensures { IfOk result (λ m. m ≡ element_lem t.now first_lem l) }
{
    let i = first(alloc, steps)?;
    element(alloc, t, i, l, steps)
}

/// The field of that name in the object that an expression stands for.
pub(crate) fn field_of<L: Ledger>(
    alloc: Global,
    e: &Expr,
    name: &Name,
    l: Lvalue,
    steps: &mut Steps<L>,
) -> Result<Lvalue, AllocError>
    ensures { IfOk result (λ m. m ≡ field_lem (type_of e.now) name.now l) }
{
    field(alloc, e.ctype(), name, l, steps)
}

/// The value of the object that an expression stands for.
pub(crate) fn object_term<L: Ledger>(
    at: Setting<'_>,
    e: &Expr,
    l: &Lvalue,
    needs: &mut Needs,
    steps: &mut Steps<L>,
) -> Result<Term, RuleStop>
    ensures exact { RuleGives (λ t. (t, needs.new)) result (object_value_lem at.entry.structs.now (type_of e.now) l.now needs.old) }
{
    object_value(at.alloc, at.structs, e.ctype(), l, needs, steps)
}
