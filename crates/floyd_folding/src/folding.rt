ghost use Rattle.std.specs.Prelude.{◌≡◌, option_and_then};
ghost use Rattle.floyd_text.specs.Gives.{RuleGives};
ghost use Rattle.floyd_fieldpath.specs.Sums.{literal_in as literal_in_lem, small};
ghost use Rattle.floyd_folding.specs.Folding.{folded as folded_lem, folded_one as folded_one_lem, number_of_one, number_of_two, of_literals};

use crate::numbers::{head_number, operator_number};
use crate::writing::literal_or;
use floyd_fieldpath::literal_in;
use floyd_text::{RuleStop, Steps};
use floyd_tree::{Head, Operator, Term};
use std::alloc::Global;
use std::sync::ledger::Ledger;

/// Two numbers under an operator. Two literals are folded where the operator gives a number that is below 2^126 in
/// absolute value.
pub fn folded<L: Ledger>(
    alloc: Global,
    operator: Operator,
    a: &Term,
    b: &Term,
    steps: &mut Steps<L>,
) -> Result<Term, RuleStop>
    ensures exact { RuleGives (λ t. t) result (folded_lem operator a.now b.now) }
{
    let z = number_of_literals(operator, a, b);
    let kids = [a.share()?, b.share()?];
    literal_or(alloc, z, Head::Operator(operator), &kids, steps)
}

/// A number under `bnot`, `signed` or `unsigned`, folded likewise.
pub fn folded_one<L: Ledger>(
    alloc: Global,
    head: Head,
    a: &Term,
    steps: &mut Steps<L>,
) -> Result<Term, RuleStop>
    ensures exact { RuleGives (λ t. t) result (folded_one_lem head a.now) }
{
    let z = number_of_literal(&head, a);
    let kids = [a.share()?];
    literal_or(alloc, z, head, &kids, steps)
}

/// The number that an operator gives of two literals, where it is below 2^126 in absolute value.
pub fn number_of_literals(operator: Operator, a: &Term, b: &Term) -> Option<i128>
    ensures { result ≡ small (of_literals (number_of_two operator) (literal_in_lem a.now) (literal_in_lem b.now)) }
{
    match (literal_in(a), literal_in(b)) {
        (Some(x), Some(y)) => operator_number(operator, x, y),
        _ => None,
    }
}

/// The number that `bnot`, `signed` or `unsigned` gives of a literal, where it is below 2^126 in absolute value.
pub fn number_of_literal(head: &Head, a: &Term) -> Option<i128>
    ensures { result ≡ small (option_and_then (number_of_one head.now) (literal_in_lem a.now)) }
{
    match literal_in(a) {
        Some(x) => head_number(head, x),
        None => None,
    }
}
