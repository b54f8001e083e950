ghost use Rattle.std.specs.Prelude.{◌≡◌, [], ◌∷◌, if◌then◌else◌};
ghost use Rattle.floyd_text.specs.Gives.{RuleGives};
ghost use Rattle.floyd_symexpr_rows.specs.Formulas.{saying};
ghost use Rattle.floyd_symexpr_rows.specs.Rows.{is_long as is_long_lem, narrow as narrow_lem, number_cast as number_cast_lem, pointer_cast as pointer_cast_lem, range, wide as wide_lem};

use crate::formulas::{say_of_type, say_range};
use crate::needs::{Needs, Number};
use crate::rows::{is_long, value_of_kind, vint};
use floyd_ctypes::CType;
use floyd_fieldpath::sized_type;
use floyd_folding::folded_one;
use floyd_int::IntKind;
use floyd_text::{RuleStop, Steps};
use floyd_tree::{FormulaList, Head, Term, Width};
use std::alloc::Global;
use std::sync::ledger::Ledger;

/// A cast to a kind of 8 or 16 bits.
#[tactic(auto, using(crate::proofs::SayingLemmas::goes_on, crate::proofs::SayingLemmas::stops))]
fn narrow<L: Ledger>(
    alloc: Global,
    head: Head,
    a: &Number,
    needs: &Needs,
    steps: &mut Steps<L>,
) -> Result<Term, RuleStop>
    ensures exact { RuleGives (λ t. (t, needs.now)) result (narrow_lem head a.now needs.now) }
{
    let n = folded_one(alloc, head, &a.term, steps)?;
    vint(alloc, &n, steps)
}

/// That a number of up to 32 bits is one of its kind.
fn say_short<L: Ledger>(
    alloc: Global,
    a: &Number,
    all: &mut FormulaList,
    steps: &mut Steps<L>,
) -> Result<(), RuleStop>
    ensures exact { RuleGives (λ u. all.new) result (saying all.old (if is_long_lem a.now.kind then [] else range a.now.kind a.now.term)) }
{
    if is_long(a.kind) {
        return Ok(());
    }
    say_range(alloc, a.kind, &a.term, all, steps)
}

/// A cast to a kind of 64 bits.
#[tactic(auto, using(crate::proofs::RowLemmas::row_gives, crate::proofs::RowLemmas::row_stops_first, crate::proofs::RowLemmas::row_stops))]
fn wide<L: Ledger>(
    alloc: Global,
    kind: IntKind,
    a: &Number,
    needs: &mut Needs,
    steps: &mut Steps<L>,
) -> Result<Term, RuleStop>
    ensures exact { RuleGives (λ t. (t, needs.new)) result (wide_lem kind a.now needs.old) }
{
    let value = value_of_kind(alloc, kind, &a.term, steps)?;
    say_short(alloc, a, &mut needs.sides, steps)?;
    Ok(value)
}

/// A cast of a number to a kind.
pub fn number_cast<L: Ledger>(
    alloc: Global,
    kind: IntKind,
    a: &Number,
    needs: &mut Needs,
    steps: &mut Steps<L>,
) -> Result<Term, RuleStop>
    ensures exact { RuleGives (λ t. (t, needs.new)) result (number_cast_lem kind a.now needs.old) }
{
    match kind {
        IntKind::I8 => narrow(alloc, Head::Signed(Width::Bits8), a, needs, steps),
        IntKind::U8 => narrow(alloc, Head::Unsigned(Width::Bits8), a, needs, steps),
        IntKind::I16 => narrow(alloc, Head::Signed(Width::Bits16), a, needs, steps),
        IntKind::U16 => narrow(alloc, Head::Unsigned(Width::Bits16), a, needs, steps),
        IntKind::I32 => value_of_kind(alloc, kind, &a.term, steps),
        IntKind::U32 => value_of_kind(alloc, kind, &a.term, steps),
        IntKind::I64 => wide(alloc, kind, a, needs, steps),
        IntKind::U64 => wide(alloc, kind, a, needs, steps),
    }
}

/// A cast of an address to a pointer's type.
#[tactic(auto, using(crate::proofs::SayingLemmas::goes_on, crate::proofs::SayingLemmas::stops))]
pub fn pointer_cast<L: Ledger>(
    alloc: Global,
    to: &CType,
    v: &Term,
    needs: &mut Needs,
    steps: &mut Steps<L>,
) -> Result<Term, RuleStop>
    ensures exact { RuleGives (λ t. (t, needs.new)) result (pointer_cast_lem to.now v.now needs.old) }
{
    let t = sized_type(alloc, to, steps)?;
    say_of_type(alloc, &t, v, &mut needs.sides, steps)?;
    Ok(v.share()?)
}
