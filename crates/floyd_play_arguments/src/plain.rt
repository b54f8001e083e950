//! Arguments by what stands behind the command's word.
ghost use Rattle.std.specs.Prelude.{◌≡◌, ◌≤◌, ◌<◌, ◌+◌, ◌^◌, IfOk, length};
ghost use Rattle.floyd_play_arguments.specs.Arguments as specs;
ghost use Rattle.floyd_termread_phrases.specs.Reads.{Answers};

use crate::lists::{givens_at, maybe_givens_at, variables_at, weights_at};
use crate::tokens::{
    leads_hypothesis, leads_literal, leads_variable, take_arrow, take_hypothesis, take_name,
    take_part, take_variable,
};
use floyd_assert_trees::NameList;
use floyd_goal_trees::{Args, Target};
use floyd_script_trees::Shape;
use floyd_termread_phrases::{Spot, Text};
use floyd_text::{Halt, Name};
use sqlite_items::Items;
use std::alloc::{AllocError, Global};

/// What a command without arguments is given.
pub fn no_args(alloc: Global) -> Result<Args, AllocError>
    ensures { IfOk result (λ a. a ≡ specs.no_args) }
{
    Ok(Args {
        name: Name::from_slice(alloc, &[])?,
        terms: Items::new(alloc),
        more: Items::new(alloc),
        names: Items::new(alloc),
        formula: None,
        assertions: Items::new(alloc),
        target: Target::Nothing,
        other: 0,
        back: false,
        weights: Items::new(alloc),
    })
}

fn part_at(alloc: Global, text: Text<'_>, at: u32) -> Result<(Args, u32), Halt>
    requires at { at ≤ length text.tokens.now.items }
    requires count { length text.tokens.now.items < 2 ^ 32 }
    ensures exact { Answers (λ x. x) (specs.one_part text.entry.bytes.now text.entry.tokens.now at) result }
    ensures within { IfOk result (λ x. x.1 ≤ length text.entry.tokens.now.items) }
{
    let (number, behind) = take_part(text, at)?;
    let mut args = no_args(alloc)?;
    args.target = Target::Part(number);
    Ok((args, behind))
}

fn hypothesis_at(alloc: Global, text: Text<'_>, at: u32) -> Result<(Args, u32), Halt>
    requires at { at ≤ length text.tokens.now.items }
    requires count { length text.tokens.now.items < 2 ^ 32 }
    ensures exact { Answers (λ x. x) (specs.one_hypothesis text.entry.bytes.now text.entry.tokens.now at) result }
    ensures within { IfOk result (λ x. x.1 ≤ length text.entry.tokens.now.items) }
{
    let (number, behind) = take_hypothesis(text, at)?;
    let mut args = no_args(alloc)?;
    args.target = Target::Hypothesis(number);
    Ok((args, behind))
}

fn named_at(alloc: Global, text: Text<'_>, at: u32) -> Result<(Args, u32), Halt>
    requires at { at ≤ length text.tokens.now.items }
    requires count { length text.tokens.now.items < 2 ^ 32 }
    ensures exact { Answers (λ x. x) (specs.one_name text.entry.bytes.now text.entry.tokens.now at) result }
    ensures within { IfOk result (λ x. x.1 ≤ length text.entry.tokens.now.items) }
{
    let (name, behind) = take_name(alloc, text, at)?;
    let mut args = no_args(alloc)?;
    args.name = name;
    Ok((args, behind))
}

fn one_variable_at(alloc: Global, text: Text<'_>, at: u32) -> Result<(Args, u32), Halt>
    requires at { at ≤ length text.tokens.now.items }
    requires count { length text.tokens.now.items < 2 ^ 32 }
    ensures exact { Answers (λ x. x) (specs.one_variable text.entry.bytes.now text.entry.tokens.now at) result }
    ensures within { IfOk result (λ x. x.1 ≤ length text.entry.tokens.now.items) }
{
    let (name, behind) = take_variable(alloc, text, Spot { at, depth: 0 })?;
    let mut args = no_args(alloc)?;
    args.names.push(name)?;
    Ok((args, behind))
}

fn maybe_variable_at(alloc: Global, text: Text<'_>, at: u32) -> Result<(Args, u32), Halt>
    requires at { at ≤ length text.tokens.now.items }
    requires count { length text.tokens.now.items < 2 ^ 32 }
    ensures exact { Answers (λ x. x) (specs.maybe_variable text.entry.bytes.now text.entry.tokens.now at) result }
    ensures within { IfOk result (λ x. x.1 ≤ length text.entry.tokens.now.items) }
{
    if leads_variable(text, at) {
        return one_variable_at(alloc, text, at);
    }
    Ok((no_args(alloc)?, at))
}

fn all_variables_at(alloc: Global, text: Text<'_>, at: u32) -> Result<(Args, u32), Halt>
    requires at { at ≤ length text.tokens.now.items }
    requires count { length text.tokens.now.items < 2 ^ 32 }
    ensures exact { Answers (λ x. x) (specs.all_variables text.entry.bytes.now text.entry.tokens.now at) result }
    ensures within { IfOk result (λ x. x.1 ≤ length text.entry.tokens.now.items) }
{
    let (names, behind) = variables_at(alloc, text, at)?;
    let mut args = no_args(alloc)?;
    args.names = names;
    Ok((args, behind))
}

fn part_or_hypothesis_at(alloc: Global, text: Text<'_>, at: u32) -> Result<(Args, u32), Halt>
    requires at { at ≤ length text.tokens.now.items }
    requires count { length text.tokens.now.items < 2 ^ 32 }
    ensures exact { Answers (λ x. x) (specs.part_or_hypothesis text.entry.bytes.now text.entry.tokens.now at) result }
    ensures within { IfOk result (λ x. x.1 ≤ length text.entry.tokens.now.items) }
{
    if leads_literal(text, at) {
        return part_at(alloc, text, at);
    }
    hypothesis_at(alloc, text, at)
}

fn two_parts_at(alloc: Global, text: Text<'_>, at: u32) -> Result<(Args, u32), Halt>
    requires at { at ≤ length text.tokens.now.items }
    requires count { length text.tokens.now.items < 2 ^ 32 }
    ensures exact { Answers (λ x. x) (specs.two_parts text.entry.bytes.now text.entry.tokens.now at) result }
    ensures within { IfOk result (λ x. x.1 ≤ length text.entry.tokens.now.items) }
{
    let (number, first) = take_part(text, at)?;
    let (other, behind) = take_part(text, first)?;
    let mut args = no_args(alloc)?;
    args.target = Target::Part(number);
    args.other = other;
    Ok((args, behind))
}

fn rewriting(alloc: Global, back: bool, number: u32) -> Result<Args, AllocError>
    ensures { IfOk result (λ a. a ≡ specs.rewriting back number) }
{
    let mut args = no_args(alloc)?;
    args.target = Target::Hypothesis(number);
    args.back = back;
    Ok(args)
}

fn rewriting_at(alloc: Global, text: Text<'_>, at: u32) -> Result<(Args, u32), Halt>
    requires at { at ≤ length text.tokens.now.items }
    requires count { length text.tokens.now.items < 2 ^ 32 }
    ensures exact { Answers (λ x. x) (specs.rewritten text.entry.bytes.now text.entry.tokens.now at) result }
    ensures within { IfOk result (λ x. x.1 ≤ length text.entry.tokens.now.items) }
{
    let (back, first) = take_arrow(text, at)?;
    let (number, behind) = take_hypothesis(text, first)?;
    let args = rewriting(alloc, back, number)?;
    Ok((args, behind))
}

fn name_with_givens_at(alloc: Global, text: Text<'_>, at: u32) -> Result<(Args, u32), Halt>
    requires at { at ≤ length text.tokens.now.items }
    requires count { length text.tokens.now.items < 2 ^ 32 }
    ensures exact { Answers (λ x. x) (specs.name_with_givens text.entry.bytes.now text.entry.tokens.now at) result }
    ensures within { IfOk result (λ x. x.1 ≤ length text.entry.tokens.now.items) }
{
    let (name, first) = take_name(alloc, text, at)?;
    let (names, behind) = givens_at(alloc, text, first)?;
    let mut args = no_args(alloc)?;
    args.name = name;
    args.names = names;
    Ok((args, behind))
}

fn cases_on(alloc: Global, number: u32, names: NameList) -> Result<Args, AllocError>
    ensures { IfOk result (λ a. a ≡ specs.cases_on number names) }
{
    let mut args = no_args(alloc)?;
    args.target = Target::Hypothesis(number);
    args.names = names;
    Ok(args)
}

fn hypothesis_with_givens_at(alloc: Global, text: Text<'_>, at: u32) -> Result<(Args, u32), Halt>
    requires at { at ≤ length text.tokens.now.items }
    requires count { length text.tokens.now.items < 2 ^ 32 }
    ensures exact { Answers (λ x. x) (specs.hypothesis_with_givens text.entry.bytes.now text.entry.tokens.now at) result }
    ensures within { IfOk result (λ x. x.1 ≤ length text.entry.tokens.now.items) }
{
    let (number, first) = take_hypothesis(text, at)?;
    let (names, behind) = maybe_givens_at(alloc, text, first)?;
    let args = cases_on(alloc, number, names)?;
    Ok((args, behind))
}

fn destructing_at(alloc: Global, text: Text<'_>, at: u32) -> Result<(Args, u32), Halt>
    requires at { at ≤ length text.tokens.now.items }
    requires count { length text.tokens.now.items < 2 ^ 32 }
    ensures exact { Answers (λ x. x) (specs.destructed text.entry.bytes.now text.entry.tokens.now at) result }
    ensures within { IfOk result (λ x. x.1 ≤ length text.entry.tokens.now.items) }
{
    if leads_hypothesis(text, at) {
        return hypothesis_with_givens_at(alloc, text, at);
    }
    name_with_givens_at(alloc, text, at)
}

fn certificate_at(alloc: Global, text: Text<'_>, at: u32) -> Result<(Args, u32), Halt>
    requires at { at ≤ length text.tokens.now.items }
    requires count { length text.tokens.now.items < 2 ^ 32 }
    ensures exact { Answers (λ x. x) (specs.certificate text.entry.bytes.now text.entry.tokens.now at) result }
    ensures within { IfOk result (λ x. x.1 ≤ length text.entry.tokens.now.items) }
{
    let (weights, behind) = weights_at(alloc, text, at)?;
    let mut args = no_args(alloc)?;
    args.weights = weights;
    Ok((args, behind))
}

/// What stands behind the word of a command, from the token of this number on, and the number of the token behind it. Where
/// that has terms, formulas or assertions, nothing is read. The number of a part or a hypothesis that is beyond 4294967295
/// is 4294967295.
///
/// The tokens are those of a command, whose arguments `read_script` has found to be of this shape; there nothing is
/// refused. Elsewhere what does not fit is, at its token, with 302 or 501.
pub fn plain_arguments_at(
    alloc: Global,
    text: Text<'_>,
    shape: Shape,
    at: u32,
) -> Result<(Args, u32), Halt>
    requires at { at ≤ length text.tokens.now.items }
    requires count { length text.tokens.now.items < 2 ^ 32 }
    ensures exact { Answers (λ x. x) (specs.plain_arguments text.entry.bytes.now text.entry.tokens.now shape at) result }
    ensures within { IfOk result (λ x. x.1 ≤ length text.entry.tokens.now.items) }
{
    match shape {
        Shape::Named => named_at(alloc, text, at),
        Shape::Givens => all_variables_at(alloc, text, at),
        Shape::MaybeGiven => maybe_variable_at(alloc, text, at),
        Shape::Number => part_at(alloc, text, at),
        Shape::NumberOrHypothesis => part_or_hypothesis_at(alloc, text, at),
        Shape::TwoNumbers => two_parts_at(alloc, text, at),
        Shape::Rewriting => rewriting_at(alloc, text, at),
        Shape::Destructing => destructing_at(alloc, text, at),
        Shape::NamedGivens => name_with_givens_at(alloc, text, at),
        Shape::Hypothesis => hypothesis_at(alloc, text, at),
        Shape::Weights => certificate_at(alloc, text, at),
        Shape::Nothing
        | Shape::MaybeEnclosed
        | Shape::Enclosed
        | Shape::Loop
        | Shape::Terms
        | Shape::NamedTerms
        | Shape::NamedTwice
        | Shape::Bare
        | Shape::NumberTerm
        | Shape::HypothesisTerm => Ok((no_args(alloc)?, at)),
    }
}
