ghost use Rattle.std.specs.Prelude.{◌≡◌, ◌⊎◌, ◌↔◌, ◌-◌, ◌^◌, IsTrue, true, None, pos};
ghost use Rattle.floyd_int.specs.Kind as k;
ghost use Rattle.floyd_tree_sorts.specs.Prints.{width_number};
ghost use Rattle.floyd_tree_values.specs.Numbers.{signed_kind};
ghost use Rattle.floyd_goal_formulas.specs.Drops.{Alone, Bounds, Drops, Given, GivesSaid, are_ordered, greatest, is_bit, is_bounded, is_made, is_narrow, is_null, is_of_kind, is_of_type, is_vint, is_vlong, is_place, is_pointer_type, least, narrow_in, operator_greatest, operator_least};
ghost use Rattle.floyd_goal_formulas.specs.Known.{literal_of as literal_of_lem};
ghost use Rattle.floyd_goal_formulas.specs.Said.{said as said_lem, seen};
ghost use Rattle.floyd_truth.specs.Same.{SameFormula};
ghost use Rattle.floyd_goal_formulas.specs.Said.{one_of};
ghost use Rattle.floyd_tree.specs.Plain.{head_of, kids_of};

use crate::known::{known, literal_of};
use crate::saying::{Said, one_term, says};
use floyd_assert::equal_formula;
use floyd_int::IntKind;
use floyd_tree::{Formula, Head, Operator, Shape, Term, Width, equal, head, kids};

fn signed_least(w: Width) -> i128
    ensures { result ≡ k.least (signed_kind w) }
{
    match w {
        Width::Bits8 => -128,
        Width::Bits16 => -32_768,
        Width::Bits32 => -2_147_483_648,
        Width::Bits64 => -9_223_372_036_854_775_808,
    }
}

fn signed_greatest(w: Width) -> i128
    ensures { result ≡ k.greatest (signed_kind w) }
{
    match w {
        Width::Bits8 => 127,
        Width::Bits16 => 32_767,
        Width::Bits32 => 2_147_483_647,
        Width::Bits64 => 9_223_372_036_854_775_807,
    }
}

fn unsigned_greatest(w: Width) -> i128
    ensures { result ≡ pos (2 ^ width_number w - 1) }
{
    match w {
        Width::Bits8 => 255,
        Width::Bits16 => 65_535,
        Width::Bits32 => 4_294_967_295,
        Width::Bits64 => 18_446_744_073_709_551_615,
    }
}

/// Whether the operator gives 0 or 1.
fn is_bit(operator: Operator) -> bool
    ensures { result ≡ is_bit operator }
{
    match operator {
        Operator::Eqz => true,
        Operator::Ltz => true,
        Operator::Lez => true,
        Operator::Eqv => true,
        _ => false,
    }
}

fn operator_least(operator: Operator) -> Option<i128>
    ensures { result ≡ operator_least operator }
{
    match operator {
        Operator::Len => Some(0),
        _ => if is_bit(operator) { Some(0) } else { None },
    }
}

fn operator_greatest(operator: Operator) -> Option<i128>
    ensures { result ≡ operator_greatest operator }
{
    if is_bit(operator) { Some(1) } else { None }
}

fn least(head: &Head) -> Option<i128>
    ensures { result ≡ least head.now }
{
    match head {
        Head::Signed(w) => Some(signed_least(*w)),
        Head::Unsigned(_) => Some(0),
        Head::Operator(operator) => operator_least(*operator),
        _ => None,
    }
}

fn greatest(head: &Head) -> Option<i128>
    ensures { result ≡ greatest head.now }
{
    match head {
        Head::Signed(w) => Some(signed_greatest(*w)),
        Head::Unsigned(w) => Some(unsigned_greatest(*w)),
        Head::Operator(operator) => operator_greatest(*operator),
        _ => None,
    }
}

fn are_ordered(a: Option<i128>, b: Option<i128>) -> bool
    ensures { result ≡ are_ordered a b }
{
    match (a, b) {
        (Some(m), Some(n)) => m <= n,
        (Some(_), None) => false,
        (None, _) => false,
    }
}

fn is_bounded(a: &Term, b: &Term) -> bool
    ensures { result ≡ is_bounded a.now b.now }
{
    are_ordered(literal_of(a), least(head(b))) || are_ordered(greatest(head(a)), literal_of(b))
}

/// `gv` or `lv`.
fn is_place(head: &Head) -> bool
    ensures { result ≡ is_place head.now }
{
    match head {
        Head::Gv(_) => true,
        Head::Lv(_) => true,
        _ => false,
    }
}

fn is_vint(head: &Head) -> bool
    ensures { result ≡ is_vint head.now }
{
    match head {
        Head::Operator(operator) => *operator == Operator::Vint,
        _ => false,
    }
}

fn is_vlong(head: &Head) -> bool
    ensures { result ≡ is_vlong head.now }
{
    match head {
        Head::Operator(operator) => *operator == Operator::Vlong,
        _ => false,
    }
}

fn is_null(head: &Head) -> bool
    ensures { result ≡ is_null head.now }
{
    match head {
        Head::Operator(operator) => *operator == Operator::Nullval,
        _ => false,
    }
}

fn is_narrow(kind: IntKind, head: &Head) -> bool
    ensures { result ≡ is_narrow kind head.now }
{
    match (kind, head) {
        (IntKind::I8, Head::Signed(Width::Bits8)) => true,
        (IntKind::U8, Head::Unsigned(Width::Bits8)) => true,
        (IntKind::I16, Head::Signed(Width::Bits16)) => true,
        (IntKind::U16, Head::Unsigned(Width::Bits16)) => true,
        _ => false,
    }
}

fn narrow_in(kind: IntKind, v: &Term) -> bool
    ensures { result ≡ narrow_in kind (one_of (kids_of v.now)) }
{
    match one_term(kids(v).as_slice()) {
        Some(t) => is_narrow(kind, head(t)),
        None => false,
    }
}

fn is_of_kind(kind: IntKind, v: &Term) -> bool
    ensures { result ≡ is_of_kind kind v.now }
{
    match kind {
        IntKind::I32 => is_vint(head(v)),
        IntKind::U32 => is_vint(head(v)),
        IntKind::I64 => is_vlong(head(v)),
        IntKind::U64 => is_vlong(head(v)),
        IntKind::I8 => is_vint(head(v)) && narrow_in(kind, v),
        IntKind::U8 => is_vint(head(v)) && narrow_in(kind, v),
        IntKind::I16 => is_vint(head(v)) && narrow_in(kind, v),
        IntKind::U16 => is_vint(head(v)) && narrow_in(kind, v),
    }
}

fn is_of_type(shape: &Shape, v: &Term) -> bool
    ensures { result ≡ is_of_type shape.now v.now }
{
    match shape {
        Shape::Int(kind) => is_of_kind(*kind, v),
        Shape::Pointer(_) => is_null(head(v)) || is_place(head(v)),
        Shape::Void => false,
        Shape::Array(_) => false,
        Shape::Struct(_) => false,
        Shape::Function(_, _) => false,
    }
}

fn is_made(head: &Head) -> bool
    ensures { result ≡ is_made head.now }
{
    is_vint(head) || is_vlong(head) || is_null(head) || is_place(head)
}

fn is_pointer_type(shape: &Shape) -> bool
    ensures { result ≡ is_pointer_type shape.now }
{
    match shape {
        Shape::Pointer(_) => true,
        Shape::Int(_) => false,
        Shape::Void => false,
        Shape::Array(_) => false,
        Shape::Struct(_) => false,
        Shape::Function(_, _) => false,
    }
}

/// Whether what is said is true by itself.
fn alone(s: &Said) -> bool
    ensures { IsTrue result ↔ Alone (seen s.now) }
{
    match s {
        Said::Equation(a, b) => equal(a, b),
        Said::Inequality(a, b) => is_bounded(a, b),
        Said::Pointer(v) => is_place(head(v)),
        Said::NotUndefined(v) => is_made(head(v)),
        Said::OfType(shape, v) => is_of_type(shape, v),
        _ => false,
    }
}

/// Whether a <= b gives c <= d.
fn bounds(a: &Term, b: &Term, c: &Term, d: &Term) -> bool
    ensures { IsTrue result ↔ Bounds a.now b.now c.now d.now }
{
    bounds_below(a, b, c, d) || bounds_above(a, b, c, d)
}

fn bounds_below(a: &Term, b: &Term, c: &Term, d: &Term) -> bool
    ensures { IsTrue result ↔ ((b.now ≡ d.now) × (literal_of_lem d.now ≡ None) × (are_ordered (literal_of_lem c.now) (literal_of_lem a.now) ≡ true)) }
{
    equal(b, d) && literal_of(d).is_none() && are_ordered(literal_of(c), literal_of(a))
}

fn bounds_above(a: &Term, b: &Term, c: &Term, d: &Term) -> bool
    ensures { IsTrue result ↔ ((a.now ≡ c.now) × (literal_of_lem c.now ≡ None) × (are_ordered (literal_of_lem b.now) (literal_of_lem d.now) ≡ true)) }
{
    equal(a, c) && literal_of(c).is_none() && are_ordered(literal_of(b), literal_of(d))
}

/// Whether a hypothesis that says the first gives what says the second.
fn gives_said(h: &Said, f: &Said) -> bool
    ensures { IsTrue result ↔ GivesSaid (seen h.now) (seen f.now) }
{
    match (h, f) {
        (Said::Inequality(a, b), Said::Inequality(c, d)) => bounds(a, b, c, d),
        (Said::Pointer(v), Said::OfType(shape, w)) => equal(v, w) && is_pointer_type(shape),
        (Said::Equation(v, n), Said::OfType(shape, w)) => {
            equal(v, w) && is_null(head(n)) && is_pointer_type(shape)
        }
        (Said::Pointer(v), Said::NotUndefined(w)) => equal(v, w),
        (Said::Equation(v, n), Said::NotUndefined(w)) => equal(v, w) && is_null(head(n)),
        (Said::OfType(_, v), Said::NotUndefined(w)) => equal(v, w),
        _ => false,
    }
}

/// Whether a hypothesis is identical to the formula up to bound names, or gives it.
fn gives(h: &Formula, f: &Formula) -> bool
    ensures { IsTrue result ↔ (SameFormula h.now f.now ⊎ GivesSaid (said_lem h.now) (said_lem f.now)) }
{
    gives_said(&says(h), &says(f)) || equal_formula(h, f)
}

fn given(hs: &[Formula], f: &Formula) -> bool
    ensures { IsTrue result ↔ Given hs.now f.now }
{
    'hypotheses: for h in hs {
        if gives(h, f) {
            return true;
        }
    }
    false
}

/// Whether the formula needs no proof under these hypotheses.
pub fn drops(hs: &[Formula], f: &Formula) -> bool
    ensures { IsTrue result ↔ Drops hs.now f.now }
{
    alone(&says(f)) || known(f) == Some(true) || given(hs, f)
}
