ghost use Rattle.std.specs.Prelude.{◌≡◌, [], ◌∷◌, ◌++◌, pos, if◌then◌else◌};
ghost use Rattle.floyd_text.specs.Gives.{RuleGives};
ghost use Rattle.floyd_int.specs.Kind.{is_signed};
ghost use Rattle.floyd_fieldpath.specs.Nested.{literal as literal_lem};
ghost use Rattle.floyd_folding.specs.Folding.{folded as folded_lem};
ghost use Rattle.floyd_symexpr_rows.specs.Formulas.{different, saying};
ghost use Rattle.floyd_symexpr_rows.specs.Rows.{amount_fits as amount_fits_lem, arithmetic as arithmetic_lem, bitwise as bitwise_lem, compared as compared_lem, comparison as comparison_lem, complement as complement_lem, division as division_lem, is_zero as is_zero_lem, negation as negation_lem, no_overflow as no_overflow_lem, range, ranges as ranges_lem, row as row_lem, shift as shift_lem, shifted as shifted_lem, value_of_kind as value_of_kind_lem, vint as vint_lem};

use crate::formulas::{say_differs, say_from, say_no_least, say_range, say_width};
use crate::needs::{Needs, Number};
use crate::rows::{not_number, value_of_kind, vint};
use floyd_fieldpath::{literal, plus};
use floyd_folding::{folded, folded_one};
use floyd_int::IntOp;
use floyd_text::{RuleStop, Steps};
use floyd_tree::{FormulaList, Head, Operator, Term};
use std::alloc::Global;
use std::sync::ledger::Ledger;

/// Puts the ranges of two numbers behind other formulas.
fn say_ranges<L: Ledger>(
    alloc: Global,
    a: &Number,
    b: &Number,
    all: &mut FormulaList,
    steps: &mut Steps<L>,
) -> Result<(), RuleStop>
    ensures exact { RuleGives (λ u. all.new) result (saying all.old (ranges_lem a.now b.now)) }
{
    say_range(alloc, a.kind, &a.term, all, steps)?;
    say_range(alloc, b.kind, &b.term, all, steps)
}

/// The ranges of two numbers, and that of a third of the first one's kind.
fn say_three_ranges<L: Ledger>(
    alloc: Global,
    a: &Number,
    b: &Number,
    n: &Term,
    all: &mut FormulaList,
    steps: &mut Steps<L>,
) -> Result<(), RuleStop>
    ensures exact { RuleGives (λ u. all.new) result (saying all.old (ranges_lem a.now b.now ++ range a.now.kind n.now)) }
{
    say_ranges(alloc, a, b, all, steps)?;
    say_range(alloc, a.kind, n, all, steps)
}

/// Where the numbers are signed, the ranges of both and of the result.
fn say_no_overflow<L: Ledger>(
    alloc: Global,
    a: &Number,
    b: &Number,
    n: &Term,
    all: &mut FormulaList,
    steps: &mut Steps<L>,
) -> Result<(), RuleStop>
    ensures exact { RuleGives (λ u. all.new) result (saying all.old (if is_signed a.now.kind then ranges_lem a.now b.now ++ range a.now.kind n.now else [])) }
{
    if !a.kind.is_signed() {
        return Ok(());
    }
    say_three_ranges(alloc, a, b, n, all, steps)
}

/// The row of the result of an operator.
#[tactic(auto, using(crate::proofs::RowLemmas::row_gives, crate::proofs::RowLemmas::row_stops_first, crate::proofs::RowLemmas::row_stops))]
fn arithmetic_row<L: Ledger>(
    alloc: Global,
    a: &Number,
    b: &Number,
    n: &Term,
    needs: &mut Needs,
    steps: &mut Steps<L>,
) -> Result<Term, RuleStop>
    ensures exact { RuleGives (λ t. (t, needs.new)) result (row_lem (value_of_kind_lem a.now.kind n.now) (if is_signed a.now.kind then ranges_lem a.now b.now ++ range a.now.kind n.now else []) needs.old) }
{
    let value = value_of_kind(alloc, a.kind, n, steps)?;
    say_no_overflow(alloc, a, b, n, &mut needs.sides, steps)?;
    Ok(value)
}

/// `+`, `-` and `*`.
#[tactic(auto, using(crate::proofs::SayingLemmas::goes_on, crate::proofs::SayingLemmas::stops))]
pub fn arithmetic<L: Ledger>(
    alloc: Global,
    operator: Operator,
    a: &Number,
    b: &Number,
    needs: &mut Needs,
    steps: &mut Steps<L>,
) -> Result<Term, RuleStop>
    ensures exact { RuleGives (λ t. (t, needs.new)) result (arithmetic_lem operator a.now b.now needs.old) }
{
    let n = folded(alloc, operator, &a.term, &b.term, steps)?;
    arithmetic_row(alloc, a, b, &n, needs, steps)
}

/// The range of a number, and that of another of its kind.
fn say_two_ranges<L: Ledger>(
    alloc: Global,
    a: &Number,
    n: &Term,
    all: &mut FormulaList,
    steps: &mut Steps<L>,
) -> Result<(), RuleStop>
    ensures exact { RuleGives (λ u. all.new) result (saying all.old (range a.now.kind a.now.term ++ range a.now.kind n.now)) }
{
    say_range(alloc, a.kind, &a.term, all, steps)?;
    say_range(alloc, a.kind, n, all, steps)
}

/// Where the number is signed, the ranges of it and of the result.
fn say_negation<L: Ledger>(
    alloc: Global,
    a: &Number,
    n: &Term,
    all: &mut FormulaList,
    steps: &mut Steps<L>,
) -> Result<(), RuleStop>
    ensures exact { RuleGives (λ u. all.new) result (saying all.old (if is_signed a.now.kind then range a.now.kind a.now.term ++ range a.now.kind n.now else [])) }
{
    if !a.kind.is_signed() {
        return Ok(());
    }
    say_two_ranges(alloc, a, n, all, steps)
}

/// The row of the result of a negation.
#[tactic(auto, using(crate::proofs::RowLemmas::row_gives, crate::proofs::RowLemmas::row_stops_first, crate::proofs::RowLemmas::row_stops))]
fn negation_row<L: Ledger>(
    alloc: Global,
    a: &Number,
    n: &Term,
    needs: &mut Needs,
    steps: &mut Steps<L>,
) -> Result<Term, RuleStop>
    ensures exact { RuleGives (λ t. (t, needs.new)) result (row_lem (value_of_kind_lem a.now.kind n.now) (if is_signed a.now.kind then range a.now.kind a.now.term ++ range a.now.kind n.now else []) needs.old) }
{
    let value = value_of_kind(alloc, a.kind, n, steps)?;
    say_negation(alloc, a, n, &mut needs.sides, steps)?;
    Ok(value)
}

/// `-a`.
#[tactic(auto, using(crate::proofs::SayingLemmas::goes_on, crate::proofs::SayingLemmas::stops))]
pub fn negation<L: Ledger>(
    alloc: Global,
    a: &Number,
    needs: &mut Needs,
    steps: &mut Steps<L>,
) -> Result<Term, RuleStop>
    ensures exact { RuleGives (λ t. (t, needs.new)) result (negation_lem a.now needs.old) }
{
    let zero = literal(alloc, 0, steps)?;
    let n = folded(alloc, Operator::Sub, &zero, &a.term, steps)?;
    negation_row(alloc, a, &n, needs, steps)
}

/// That the least value of a signed kind is not divided by -1.
fn say_quotient<L: Ledger>(
    alloc: Global,
    a: &Number,
    b: &Number,
    all: &mut FormulaList,
    steps: &mut Steps<L>,
) -> Result<(), RuleStop>
    ensures exact { RuleGives (λ u. all.new) result (saying all.old (no_overflow_lem a.now b.now)) }
{
    if !a.kind.is_signed() {
        return Ok(());
    }
    say_no_least(alloc, a.kind, &a.term, &b.term, all, steps)
}

/// That the divisor is not 0, and the least value not divided by -1.
fn say_divisor<L: Ledger>(
    alloc: Global,
    a: &Number,
    b: &Number,
    all: &mut FormulaList,
    steps: &mut Steps<L>,
) -> Result<(), RuleStop>
    ensures exact { RuleGives (λ u. all.new) result (saying all.old (different b.now.term (literal_lem (pos 0)) ∷ no_overflow_lem a.now b.now)) }
{
    say_differs(alloc, &b.term, 0, all, steps)?;
    say_quotient(alloc, a, b, all, steps)
}

/// The ranges of both numbers, and what is said of the divisor.
fn say_division<L: Ledger>(
    alloc: Global,
    a: &Number,
    b: &Number,
    all: &mut FormulaList,
    steps: &mut Steps<L>,
) -> Result<(), RuleStop>
    ensures exact { RuleGives (λ u. all.new) result (saying all.old (ranges_lem a.now b.now ++ different b.now.term (literal_lem (pos 0)) ∷ no_overflow_lem a.now b.now)) }
{
    say_ranges(alloc, a, b, all, steps)?;
    say_divisor(alloc, a, b, all, steps)
}

/// The row of a quotient or a remainder.
#[tactic(auto, using(crate::proofs::RowLemmas::row_gives, crate::proofs::RowLemmas::row_stops_first, crate::proofs::RowLemmas::row_stops))]
fn division_row<L: Ledger>(
    alloc: Global,
    a: &Number,
    b: &Number,
    n: &Term,
    needs: &mut Needs,
    steps: &mut Steps<L>,
) -> Result<Term, RuleStop>
    ensures exact { RuleGives (λ t. (t, needs.new)) result (row_lem (value_of_kind_lem a.now.kind n.now) (ranges_lem a.now b.now ++ different b.now.term (literal_lem (pos 0)) ∷ no_overflow_lem a.now b.now) needs.old) }
{
    let value = value_of_kind(alloc, a.kind, n, steps)?;
    say_division(alloc, a, b, &mut needs.sides, steps)?;
    Ok(value)
}

/// `/` and `%`.
#[tactic(auto, using(crate::proofs::SayingLemmas::goes_on, crate::proofs::SayingLemmas::stops))]
pub fn division<L: Ledger>(
    alloc: Global,
    operator: Operator,
    a: &Number,
    b: &Number,
    needs: &mut Needs,
    steps: &mut Steps<L>,
) -> Result<Term, RuleStop>
    ensures exact { RuleGives (λ t. (t, needs.new)) result (division_lem operator a.now b.now needs.old) }
{
    let n = folded(alloc, operator, &a.term, &b.term, steps)?;
    division_row(alloc, a, b, &n, needs, steps)
}

/// The row of bits.
#[tactic(auto, using(crate::proofs::RowLemmas::row_gives, crate::proofs::RowLemmas::row_stops_first, crate::proofs::RowLemmas::row_stops))]
fn bitwise_row<L: Ledger>(
    alloc: Global,
    a: &Number,
    b: &Number,
    n: &Term,
    needs: &mut Needs,
    steps: &mut Steps<L>,
) -> Result<Term, RuleStop>
    ensures exact { RuleGives (λ t. (t, needs.new)) result (row_lem (value_of_kind_lem a.now.kind n.now) (ranges_lem a.now b.now) needs.old) }
{
    let value = value_of_kind(alloc, a.kind, n, steps)?;
    say_ranges(alloc, a, b, &mut needs.sides, steps)?;
    Ok(value)
}

/// `&`, `|` and `^`.
#[tactic(auto, using(crate::proofs::SayingLemmas::goes_on, crate::proofs::SayingLemmas::stops))]
pub fn bitwise<L: Ledger>(
    alloc: Global,
    operator: Operator,
    a: &Number,
    b: &Number,
    needs: &mut Needs,
    steps: &mut Steps<L>,
) -> Result<Term, RuleStop>
    ensures exact { RuleGives (λ t. (t, needs.new)) result (bitwise_lem operator a.now b.now needs.old) }
{
    let n = folded(alloc, operator, &a.term, &b.term, steps)?;
    bitwise_row(alloc, a, b, &n, needs, steps)
}

/// The row of bits that are turned over.
#[tactic(auto, using(crate::proofs::RowLemmas::row_gives, crate::proofs::RowLemmas::row_stops_first, crate::proofs::RowLemmas::row_stops))]
fn complement_row<L: Ledger>(
    alloc: Global,
    a: &Number,
    n: &Term,
    needs: &mut Needs,
    steps: &mut Steps<L>,
) -> Result<Term, RuleStop>
    ensures exact { RuleGives (λ t. (t, needs.new)) result (row_lem (value_of_kind_lem a.now.kind n.now) (range a.now.kind a.now.term) needs.old) }
{
    let value = value_of_kind(alloc, a.kind, n, steps)?;
    say_range(alloc, a.kind, &a.term, &mut needs.sides, steps)?;
    Ok(value)
}

/// `~a`.
#[tactic(auto, using(crate::proofs::SayingLemmas::goes_on, crate::proofs::SayingLemmas::stops))]
pub fn complement<L: Ledger>(
    alloc: Global,
    a: &Number,
    needs: &mut Needs,
    steps: &mut Steps<L>,
) -> Result<Term, RuleStop>
    ensures exact { RuleGives (λ t. (t, needs.new)) result (complement_lem a.now needs.old) }
{
    let n = folded_one(alloc, Head::Operator(Operator::Bnot), &a.term, steps)?;
    complement_row(alloc, a, &n, needs, steps)
}

/// That the amount of a shift is at least 0, and one more than it at most the width of what is shifted.
fn say_amount<L: Ledger>(
    alloc: Global,
    a: &Number,
    b: &Number,
    more: &Term,
    all: &mut FormulaList,
    steps: &mut Steps<L>,
) -> Result<(), RuleStop>
    ensures exact { RuleGives (λ u. all.new) result (saying all.old (amount_fits_lem a.now b.now more.now)) }
{
    say_from(alloc, 0, &b.term, all, steps)?;
    say_width(alloc, a.kind, more, all, steps)
}

fn say_shift<L: Ledger>(
    alloc: Global,
    a: &Number,
    b: &Number,
    more: &Term,
    all: &mut FormulaList,
    steps: &mut Steps<L>,
) -> Result<(), RuleStop>
    ensures exact { RuleGives (λ u. all.new) result (saying all.old (ranges_lem a.now b.now ++ amount_fits_lem a.now b.now more.now)) }
{
    say_ranges(alloc, a, b, all, steps)?;
    say_amount(alloc, a, b, more, all, steps)
}

/// The row of a number that is shifted.
#[tactic(auto, using(crate::proofs::RowLemmas::shifted_gives, crate::proofs::RowLemmas::shifted_stops_first, crate::proofs::RowLemmas::shifted_stops_next, crate::proofs::RowLemmas::shifted_stops))]
fn shift_row<L: Ledger>(
    alloc: Global,
    a: &Number,
    b: &Number,
    n: &Term,
    needs: &mut Needs,
    steps: &mut Steps<L>,
) -> Result<Term, RuleStop>
    ensures exact { RuleGives (λ t. (t, needs.new)) result (shifted_lem a.now b.now n.now needs.old) }
{
    let one = literal(alloc, 1, steps)?;
    let more = plus(alloc, &b.term, &one, steps)?;
    let value = value_of_kind(alloc, a.kind, n, steps)?;
    say_shift(alloc, a, b, &more, &mut needs.sides, steps)?;
    Ok(value)
}

/// `<<` and `>>`.
#[tactic(auto, using(crate::proofs::SayingLemmas::goes_on, crate::proofs::SayingLemmas::stops))]
pub fn shift<L: Ledger>(
    alloc: Global,
    operator: Operator,
    a: &Number,
    b: &Number,
    needs: &mut Needs,
    steps: &mut Steps<L>,
) -> Result<Term, RuleStop>
    ensures exact { RuleGives (λ t. (t, needs.new)) result (shift_lem operator a.now b.now needs.old) }
{
    let n = folded(alloc, operator, &a.term, &b.term, steps)?;
    shift_row(alloc, a, b, &n, needs, steps)
}

/// 1 less a number.
pub fn negated<L: Ledger>(alloc: Global, n: &Term, steps: &mut Steps<L>) -> Result<Term, RuleStop>
    ensures exact { RuleGives (λ t. t) result (folded_lem Operator.Sub (literal_lem (pos 1)) n.now) }
{
    let one = literal(alloc, 1, steps)?;
    folded(alloc, Operator::Sub, &one, n, steps)
}

#[tactic(auto, using(crate::proofs::SayingLemmas::goes_on, crate::proofs::SayingLemmas::stops))]
fn unequal<L: Ledger>(
    alloc: Global,
    a: &Term,
    b: &Term,
    steps: &mut Steps<L>,
) -> Result<Term, RuleStop>
    ensures exact { RuleGives (λ t. t) result (compared_lem IntOp.Ne a.now b.now) }
{
    let n = folded(alloc, Operator::Eqz, a, b, steps)?;
    negated(alloc, &n, steps)
}

/// 1 where the comparison of the two numbers holds, and else 0.
pub fn compared<L: Ledger>(
    alloc: Global,
    op: IntOp,
    a: &Term,
    b: &Term,
    steps: &mut Steps<L>,
) -> Result<Term, RuleStop>
    ensures exact { RuleGives (λ t. t) result (compared_lem op a.now b.now) }
{
    match op {
        IntOp::Eq => folded(alloc, Operator::Eqz, a, b, steps),
        IntOp::Ne => unequal(alloc, a, b, steps),
        IntOp::Lt => folded(alloc, Operator::Ltz, a, b, steps),
        IntOp::Le => folded(alloc, Operator::Lez, a, b, steps),
        IntOp::Gt => folded(alloc, Operator::Ltz, b, a, steps),
        IntOp::Ge => folded(alloc, Operator::Lez, b, a, steps),
        _ => Err(RuleStop::No(not_number())),
    }
}

/// The row of a truth value.
#[tactic(auto, using(crate::proofs::RowLemmas::row_gives, crate::proofs::RowLemmas::row_stops_first, crate::proofs::RowLemmas::row_stops))]
fn comparison_row<L: Ledger>(
    alloc: Global,
    a: &Number,
    b: &Number,
    n: &Term,
    needs: &mut Needs,
    steps: &mut Steps<L>,
) -> Result<Term, RuleStop>
    ensures exact { RuleGives (λ t. (t, needs.new)) result (row_lem (vint_lem n.now) (ranges_lem a.now b.now) needs.old) }
{
    let value = vint(alloc, n, steps)?;
    say_ranges(alloc, a, b, &mut needs.sides, steps)?;
    Ok(value)
}

/// `==`, `!=`, `<`, `<=`, `>` and `>=`.
#[tactic(auto, using(crate::proofs::SayingLemmas::goes_on, crate::proofs::SayingLemmas::stops))]
pub fn comparison<L: Ledger>(
    alloc: Global,
    op: IntOp,
    a: &Number,
    b: &Number,
    needs: &mut Needs,
    steps: &mut Steps<L>,
) -> Result<Term, RuleStop>
    ensures exact { RuleGives (λ t. (t, needs.new)) result (comparison_lem op a.now b.now needs.old) }
{
    let n = compared(alloc, op, &a.term, &b.term, steps)?;
    comparison_row(alloc, a, b, &n, needs, steps)
}

/// `!a`, which is `a == 0`.
pub fn is_zero<L: Ledger>(
    alloc: Global,
    a: &Number,
    needs: &mut Needs,
    steps: &mut Steps<L>,
) -> Result<Term, RuleStop>
    ensures exact { RuleGives (λ t. (t, needs.new)) result (is_zero_lem a.now needs.old) }
{
    let zero = Number {
        kind: a.kind,
        term: literal(alloc, 0, steps)?,
    };
    comparison(alloc, IntOp::Eq, a, &zero, needs, steps)
}
