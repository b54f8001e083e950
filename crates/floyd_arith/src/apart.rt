ghost use Rattle.std.specs.Prelude.{◌≡◌, IfOk, IfSome, FitsSigned};
ghost use Rattle.floyd_text.specs.Gives.{RuleGives};
ghost use Rattle.std.specs.Int.{w128};
ghost use Rattle.floyd_tree.specs.Plain.{At, Done, More};
ghost use Rattle.floyd_tree_sorts.specs.declared.heads.Head.TheVariants as h;
ghost use Rattle.floyd_arith.specs.Certificates.{linear_or_refused};
ghost use Rattle.floyd_arith.specs.Linear as spec;

use crate::refusal::refused;
use crate::unknowns::{Linear, small};
use floyd_text::{Code, RuleStop, Shown};
use floyd_tree::{Head, Operator, Term, head, kids};
use std::alloc::{AllocError, Global};

/// The term as a constant and its unknowns. `+`, `-` and `*` with a literal as a side are taken apart, and every other term
/// is one unknown. 733 where the constant or a coefficient, of the term or of a part that is taken apart, reaches 2^126 in
/// absolute value.
pub fn linear(alloc: Global, t: &Term) -> Result<Linear, RuleStop>
    ensures exact { RuleGives (λ a. a) result (linear_or_refused t.now) }
{
    match apart(alloc, t)? {
        Some(a) => Ok(a),
        None => Err(refused(Code::Overflow, Shown::Nothing)),
    }
}

/// The term as a constant and its unknowns, where every number is below the bound.
#[cycle(apart)]
pub(crate) fn apart(alloc: Global, t: &Term) -> Result<Option<Linear>, AllocError>
    ensures { IfOk result (λ a. a ≡ spec.linear_of t.now) }
{
    match head(t) {
        Head::Literal(z) => Ok(Linear::constant(alloc, *z)),
        Head::Operator(operator) => match kids(t).as_slice() {
            [a, b] => by_operator(alloc, *operator, t, a, b),
            _ => Ok(Some(Linear::alone(alloc, t)?)),
        },
        _ => Ok(Some(Linear::alone(alloc, t)?)),
    }
}

/// The same of an operator with two sides.
#[cycle(apart)]
fn by_operator(
    alloc: Global,
    operator: Operator,
    t: &Term,
    a: &Term,
    b: &Term,
) -> Result<Option<Linear>, AllocError>
    requires { t.now ≡ At (h.Operator operator) (More a.now (More b.now Done)) }
    ensures { IfOk result (λ s. s ≡ spec.linear_of t.now) }
{
    match operator {
        Operator::Add => sum(alloc, a, 1, b),
        Operator::Sub => sum(alloc, a, -1, b),
        Operator::Mul => product(alloc, t, a, b),
        _ => Ok(Some(Linear::alone(alloc, t)?)),
    }
}

/// The first side, and the second one `k` times.
#[cycle(apart)]
pub(crate) fn sum(alloc: Global, a: &Term, k: i128, b: &Term) -> Result<Option<Linear>, AllocError>
    ensures { IfOk result (λ s. s ≡ spec.of_both (λ x y. spec.plus x (spec.scaled k y)) (spec.linear_of a.now) (spec.linear_of b.now)) }
{
    let Some(mut sum) = apart(alloc, a)? else {
        return Ok(None);
    };
    let Some(more) = apart(alloc, b)? else {
        return Ok(None);
    };
    if sum.add(k, &more)? {
        Ok(Some(sum))
    } else {
        Ok(None)
    }
}

/// The product of two sides, which is one unknown where neither is a literal.
#[cycle(apart)]
fn product(alloc: Global, t: &Term, a: &Term, b: &Term) -> Result<Option<Linear>, AllocError>
    ensures { IfOk result (λ p. p ≡ spec.product t.now (spec.literal_of a.now) (spec.literal_of b.now) (spec.linear_of a.now) (spec.linear_of b.now)) }
{
    if let Some(k) = literal_of(a) {
        return multiple(alloc, k, b);
    }
    if let Some(k) = literal_of(b) {
        return multiple(alloc, k, a);
    }
    Ok(Some(Linear::alone(alloc, t)?))
}

/// A literal times the other side.
#[cycle(apart)]
fn multiple(alloc: Global, k: i128, t: &Term) -> Result<Option<Linear>, AllocError>
    ensures { IfOk result (λ p. p ≡ spec.of_both (λ x y. spec.scaled k y) (spec.within (spec.constant k)) (spec.linear_of t.now)) }
{
    if small(k).is_none() {
        return Ok(None);
    }
    let Some(other) = apart(alloc, t)? else {
        return Ok(None);
    };
    other.scaled(alloc, k)
}

fn literal_of(t: &Term) -> Option<i128>
    ensures value { result ≡ spec.literal_of t.now }
    ensures fits { IfSome result (FitsSigned w128) }
{
    match head(t) {
        Head::Literal(z) => Some(*z),
        _ => None,
    }
}
