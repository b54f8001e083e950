ghost use Rattle.std.specs.Prelude.{◌≡◌, [], Ok};
ghost use Rattle.std.specs.Option.{option_copied};
ghost use Rattle.floyd_text.specs.Gives.{RuleGives};
ghost use Rattle.floyd_fieldpath.specs.Projections.{one as one_lem};
ghost use Rattle.floyd_fieldpath.specs.Written.{written as written_lem};
ghost use Rattle.floyd_symexpr_rows.specs.Rows.{constant as constant_lem, is_long as is_long_lem, is_vint as is_vint_lem, is_vlong as is_vlong_lem, no_base as no_base_lem, not_number as not_number_lem, null as null_lem, number as number_lem, number_under as number_under_lem, value_of_kind as value_of_kind_lem, value_operator as value_operator_lem, vint as vint_lem};

use crate::needs::Number;
use floyd_fieldpath::literal;
use floyd_folding::written;
use floyd_int::IntKind;
use floyd_text::{Code, No, RuleStop, Shown, Steps};
use floyd_tree::{Head, Operator, Term, head, kids};
use std::alloc::Global;
use std::sync::ledger::Ledger;

/// The refusal of an operand that is no number of its width.
pub fn not_number() -> No
    ensures { result ≡ not_number_lem }
{
    No {
        code: Code::NotNumber,
        shown: Shown::Nothing,
    }
}

/// The refusal of pointers that are not known to lie in one object.
pub fn no_base() -> No
    ensures { result ≡ no_base_lem }
{
    No {
        code: Code::NoBase,
        shown: Shown::Nothing,
    }
}

/// Whether the kind has 64 bits.
pub(crate) fn is_long(kind: IntKind) -> bool
    ensures { result ≡ is_long_lem kind }
{
    matches!(kind, IntKind::I64 | IntKind::U64)
}

fn value_operator(kind: IntKind) -> Operator
    ensures { result ≡ value_operator_lem kind }
{
    if is_long(kind) {
        Operator::Vlong
    } else {
        Operator::Vint
    }
}

/// A term under an operator.
fn one<L: Ledger>(
    alloc: Global,
    operator: Operator,
    a: &Term,
    steps: &mut Steps<L>,
) -> Result<Term, RuleStop>
    ensures exact { RuleGives (λ t. t) result (written_lem (one_lem operator a.now)) }
{
    let kids = [a.share()?];
    written(alloc, Head::Operator(operator), &kids, steps)
}

/// The value of the kind that a number stands for.
pub(crate) fn value_of_kind<L: Ledger>(
    alloc: Global,
    kind: IntKind,
    n: &Term,
    steps: &mut Steps<L>,
) -> Result<Term, RuleStop>
    ensures exact { RuleGives (λ t. t) result (value_of_kind_lem kind n.now) }
{
    one(alloc, value_operator(kind), n, steps)
}

/// `Vint` of a number, as comparisons and casts to fewer bits give it.
pub fn vint<L: Ledger>(alloc: Global, n: &Term, steps: &mut Steps<L>) -> Result<Term, RuleStop>
    ensures exact { RuleGives (λ t. t) result (vint_lem n.now) }
{
    one(alloc, Operator::Vint, n, steps)
}

fn is_vint(head: &Head) -> bool
    ensures { result ≡ is_vint_lem head.now }
{
    match head {
        Head::Operator(operator) => matches!(operator, Operator::Vint),
        _ => false,
    }
}

fn is_vlong(head: &Head) -> bool
    ensures { result ≡ is_vlong_lem head.now }
{
    match head {
        Head::Operator(operator) => matches!(operator, Operator::Vlong),
        _ => false,
    }
}

/// The number under `Vlong`, of a kind of 64 bits, and else under `Vint`.
fn number_under(kind: IntKind, t: &Term) -> Option<&Term>
    ensures { option_copied result ≡ number_under_lem kind t.now }
{
    let fits = if is_long(kind) {
        is_vlong(head(t))
    } else {
        is_vint(head(t))
    };
    if fits { kids(t).get(0) } else { None }
}

/// The number of an operand of the kind, whose term must be `Vint` of it, or `Vlong` where the kind has 64 bits.
pub fn number(kind: IntKind, t: &Term) -> Result<Number, RuleStop>
    ensures exact { RuleGives (λ n. n) result (number_lem kind t.now) }
{
    match number_under(kind, t) {
        Some(n) => Ok(Number {
            kind,
            term: n.share()?,
        }),
        None => Err(RuleStop::No(not_number())),
    }
}

/// The term of an integer of the kind.
pub fn constant<L: Ledger>(
    alloc: Global,
    kind: IntKind,
    z: i128,
    steps: &mut Steps<L>,
) -> Result<Term, RuleStop>
    ensures exact { RuleGives (λ t. t) result (constant_lem kind z) }
{
    let n = literal(alloc, z, steps)?;
    value_of_kind(alloc, kind, &n, steps)
}

/// `nullval`.
pub fn null_pointer<L: Ledger>(alloc: Global, steps: &mut Steps<L>) -> Result<Term, RuleStop>
    ensures exact { RuleGives (λ t. t) result (Ok null_lem) }
{
    written(alloc, Head::Operator(Operator::Nullval), &[], steps)
}
