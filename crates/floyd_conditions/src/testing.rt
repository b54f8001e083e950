ghost use Rattle.std.specs.Prelude.{◌≡◌, IfOk, option_map};
ghost use Rattle.floyd_clight.specs.Types.{type_of};
ghost use Rattle.floyd_conditions.specs.Conditions.{branches_of as branches_of_lem, compared as compared_lem, comparison_of as comparison_of_lem, condition as condition_lem, is_not as is_not_lem, is_test as is_test_lem, needs_of as needs_of_lem, nonzero as nonzero_lem, operand_of as operand_of_lem, plain_branches as plain_branches_lem, test_needs as test_needs_lem, zero_needs as zero_needs_lem};
ghost use Rattle.floyd_int.specs.Operation.{is_comparison as is_comparison_lem};
ghost use Rattle.floyd_text.specs.Gives.{RuleGives};

use crate::branches::{Branches, Condition};
use crate::comparing::{not_zero, of_operands};
use floyd_assert_trees::{Assertion, Defs, share_formulas, share_terms};
use floyd_clight::{BlockList, Expr, UnaryOp};
use floyd_int::IntOp;
use floyd_symexpr::{Evaluated, evaluate};
use floyd_symexpr_pointers::{operand, unary};
use floyd_symexpr_rows::{Needs, Operand};
use floyd_text::{RuleStop, Steps};
use std::alloc::{AllocError, Global};
use std::sync::ledger::Ledger;

/// Under what tests are read: an assertion, the local variables with blocks, and the items of which it may speak.
#[derive(Clone, Copy)]
pub struct Reader<'a> {
    pub alloc: Global,
    pub source: &'a Assertion,
    pub blocks: &'a BlockList,
    pub defs: &'a Defs,
}

/// The operand that an expression is.
fn operand_of<L: Ledger>(
    at: Reader<'_>,
    e: &Expr,
    steps: &mut Steps<L>,
) -> Result<Operand, RuleStop>
    ensures exact { RuleGives (λ x. x) result (operand_of_lem at.entry.source.now at.entry.defs.now.structs e.now) }
{
    let v = evaluate(at.alloc, e, at.source, at.blocks, at.defs, steps)?;
    operand(at.alloc, e.ctype(), &v.term)
}

/// The branches of a comparison of two expressions.
#[tactic(auto, using(floyd_symexpr_rows::proofs::SayingLemmas::goes_on, floyd_symexpr_rows::proofs::SayingLemmas::stops))]
fn compared<L: Ledger>(
    at: Reader<'_>,
    op: IntOp,
    a: &Expr,
    b: &Expr,
    steps: &mut Steps<L>,
) -> Result<Branches, RuleStop>
    ensures exact { RuleGives (λ x. x) result (compared_lem at.entry.source.now at.entry.defs.now.structs op a.now b.now) }
{
    let x = operand_of(at, a, steps)?;
    let y = operand_of(at, b, steps)?;
    of_operands(at.alloc, op, &x, &y, steps)
}

/// Where an expression is not 0, and where it is.
#[tactic(auto, using(floyd_symexpr_rows::proofs::SayingLemmas::goes_on, floyd_symexpr_rows::proofs::SayingLemmas::stops))]
fn nonzero<L: Ledger>(at: Reader<'_>, e: &Expr, steps: &mut Steps<L>) -> Result<Branches, RuleStop>
    ensures exact { RuleGives (λ x. x) result (nonzero_lem at.entry.source.now at.entry.defs.now.structs e.now) }
{
    let x = operand_of(at, e, steps)?;
    not_zero(at.alloc, &x, steps)
}

fn is_comparison(op: IntOp) -> bool
    ensures { result ≡ is_comparison_lem op }
{
    match op {
        IntOp::Eq => true,
        IntOp::Ne => true,
        IntOp::Lt => true,
        IntOp::Le => true,
        IntOp::Gt => true,
        IntOp::Ge => true,
        _ => false,
    }
}

/// The operator and the operands of a comparison.
fn comparison_of(e: &Expr) -> Option<(IntOp, &Expr, &Expr)>
    ensures { option_map (λ c. (c.0, c.1.now, c.2.now)) result ≡ comparison_of_lem e.now }
{
    match e {
        Expr::Binary(op, a, b, _) => {
            if is_comparison(*op) {
                Some((*op, a.get(), b.get()))
            } else {
                None
            }
        }
        Expr::Unary(_, _, _) => None,
        Expr::Const(_, _) => None,
        Expr::Temp(_, _) => None,
        Expr::Var(_, _, _) => None,
        Expr::Deref(_, _) => None,
        Expr::AddrOf(_, _) => None,
        Expr::Cast(_, _) => None,
        Expr::Field(_, _, _) => None,
        Expr::SizeOf(_, _) => None,
    }
}

/// The branches of what is no `!`.
fn branches_at<L: Ledger>(
    at: Reader<'_>,
    e: &Expr,
    steps: &mut Steps<L>,
) -> Result<Branches, RuleStop>
    ensures exact { RuleGives (λ x. x) result (plain_branches_lem at.entry.source.now at.entry.defs.now.structs e.now) }
{
    match comparison_of(e) {
        Some((op, a, b)) => compared(at, op, a, b, steps),
        None => nonzero(at, e, steps),
    }
}

fn is_not(op: UnaryOp) -> bool
    ensures { result ≡ is_not_lem op }
{
    matches!(op, UnaryOp::Not)
}

/// The branches of a test: `!` exchanges them, and what is neither a comparison nor `!` is not 0.
fn branches_of<L: Ledger>(
    at: Reader<'_>,
    e: &Expr,
    steps: &mut Steps<L>,
) -> Result<Branches, RuleStop>
    ensures exact { RuleGives (λ x. x) result (branches_of_lem at.entry.source.now at.entry.defs.now.structs e.now) }
{
    match e {
        Expr::Unary(op, negated, _) => {
            if is_not(*op) {
                let branches = branches_of(at, negated.get(), steps)?;
                Ok(branches.exchanged())
            } else {
                branches_at(at, e, steps)
            }
        }
        Expr::Binary(_, _, _, _) => branches_at(at, e, steps),
        Expr::Const(_, _) => branches_at(at, e, steps),
        Expr::Temp(_, _) => branches_at(at, e, steps),
        Expr::Var(_, _, _) => branches_at(at, e, steps),
        Expr::Deref(_, _) => branches_at(at, e, steps),
        Expr::AddrOf(_, _) => branches_at(at, e, steps),
        Expr::Cast(_, _) => branches_at(at, e, steps),
        Expr::Field(_, _, _) => branches_at(at, e, steps),
        Expr::SizeOf(_, _) => branches_at(at, e, steps),
    }
}

/// A comparison or `!`.
fn is_test(e: &Expr) -> bool
    ensures { result ≡ is_test_lem e.now }
{
    match e {
        Expr::Unary(op, _, _) => is_not(*op),
        Expr::Binary(op, _, _, _) => is_comparison(*op),
        Expr::Const(_, _) => false,
        Expr::Temp(_, _) => false,
        Expr::Var(_, _, _) => false,
        Expr::Deref(_, _) => false,
        Expr::AddrOf(_, _) => false,
        Expr::Cast(_, _) => false,
        Expr::Field(_, _, _) => false,
        Expr::SizeOf(_, _) => false,
    }
}

fn share_needs(alloc: Global, v: &Evaluated) -> Result<Needs, AllocError>
    ensures { IfOk result (λ n. n ≡ record { sides = v.now.sides; valid = v.now.valid }) }
{
    let sides = share_formulas(alloc, v.sides.as_slice())?;
    let valid = share_terms(alloc, v.valid.as_slice())?;
    Ok(Needs { sides, valid })
}

/// What `e != 0` needs.
#[tactic(auto, using(floyd_symexpr_rows::proofs::SayingLemmas::goes_on, floyd_symexpr_rows::proofs::SayingLemmas::stops))]
fn zero_needs<L: Ledger>(
    alloc: Global,
    e: &Expr,
    v: &Evaluated,
    steps: &mut Steps<L>,
) -> Result<Needs, RuleStop>
    ensures exact { RuleGives (λ n. n) result (zero_needs_lem e.now v.now) }
{
    let a = operand(alloc, e.ctype(), &v.term)?;
    let mut needs = share_needs(alloc, v)?;
    unary(alloc, UnaryOp::Not, &a, &mut needs, steps)?;
    Ok(needs)
}

fn test_needs<L: Ledger>(
    alloc: Global,
    e: &Expr,
    v: &Evaluated,
    steps: &mut Steps<L>,
) -> Result<Needs, RuleStop>
    ensures exact { RuleGives (λ n. n) result (test_needs_lem e.now v.now) }
{
    if is_test(e) {
        Ok(share_needs(alloc, v)?)
    } else {
        zero_needs(alloc, e, v, steps)
    }
}

fn needs_of<L: Ledger>(at: Reader<'_>, e: &Expr, steps: &mut Steps<L>) -> Result<Needs, RuleStop>
    ensures exact { RuleGives (λ n. n) result (needs_of_lem at.entry.source.now at.entry.defs.now.structs e.now) }
{
    let v = evaluate(at.alloc, e, at.source, at.blocks, at.defs, steps)?;
    test_needs(at.alloc, e, &v, steps)
}

/// What holds where a test is met and where it is not, and what it needs.
#[tactic(auto, using(floyd_symexpr_rows::proofs::SayingLemmas::goes_on, floyd_symexpr_rows::proofs::SayingLemmas::stops))]
pub fn condition<L: Ledger>(
    at: Reader<'_>,
    e: &Expr,
    steps: &mut Steps<L>,
) -> Result<Condition, RuleStop>
    ensures exact { RuleGives (λ c. c) result (condition_lem at.entry.source.now at.entry.defs.now.structs e.now) }
{
    let needs = needs_of(at, e, steps)?;
    let branches = branches_of(at, e, steps)?;
    Ok(Condition { branches, needs })
}
