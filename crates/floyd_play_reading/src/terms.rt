//! Terms and formulas in the arguments of a command.
ghost use Rattle.std.specs.Prelude.{◌≡◌, ◌≤◌, ◌<◌, ◌^◌, IfOk, length};
ghost use Rattle.floyd_play_reading.specs.Arguments as specs;
ghost use Rattle.floyd_termread.specs.Brackets.{outermost};
ghost use Rattle.floyd_termread_phrases.specs.Reads.{Answers};

use crate::alone::{enclosed_alone, formula_alone, term_alone, terms_alone};
use crate::expecting::{expected_more, expected_terms, instance_sort, witness_sort};
use crate::making::{with_formula, with_term, with_terms};
use floyd_assert_trees::{Defs, SpecTable};
use floyd_clight::Local;
use floyd_goal::number_of;
use floyd_goal_trees::{Args, Goal};
use floyd_play_arguments::{no_args, plain_arguments_at, take_name};
use floyd_script_trees::Shape;
use floyd_termread_phrases::Text;
use floyd_termread_scope::Scope;
use floyd_text::{Halt, Name, Rule};
use floyd_tree::{Sort, TermList};
use sqlite_items::Items;
use std::alloc::Global;

/// A command and the goal on which it is played, and what names may stand for.
#[derive(Clone, Copy)]
pub(crate) struct Around<'a> {
    pub goal: &'a Goal,
    pub defs: &'a Defs,
    pub specs: &'a SpecTable,
    pub local_blocks: &'a [Local],
    pub rule: Rule,
}

/// The first list of terms of a command that names this.
fn first_terms_at(
    alloc: Global,
    around: Around<'_>,
    scope: &Scope<'_>,
    name: &Name,
    text: Text<'_>,
    at: u32,
) -> Result<(TermList, u32), Halt>
    requires at { at ≤ length text.tokens.now.items }
    requires count { length text.tokens.now.items < 2 ^ 32 }
    ensures exact { Answers (λ x. x) (specs.first_terms text.entry.bytes.now text.entry.tokens.now around.entry.defs.now around.entry.specs.now (outermost scope.now) around.entry.goal.now around.entry.rule name.now at) result }
    ensures within { IfOk result (λ x. x.1 ≤ length text.entry.tokens.now.items) }
{
    let expected = expected_terms(around.rule, around.goal, name, around.defs, around.specs);
    terms_alone(alloc, scope, text, at, expected)
}

/// `"(" terms ")"`
pub(crate) fn unnamed_terms_at(
    alloc: Global,
    around: Around<'_>,
    scope: &Scope<'_>,
    text: Text<'_>,
    at: u32,
) -> Result<(Args, u32), Halt>
    requires at { at ≤ length text.tokens.now.items }
    requires count { length text.tokens.now.items < 2 ^ 32 }
    ensures exact { Answers (λ x. x) (specs.unnamed_terms text.entry.bytes.now text.entry.tokens.now around.entry.defs.now around.entry.specs.now (outermost scope.now) around.entry.goal.now around.entry.rule at) result }
    ensures within { IfOk result (λ x. x.1 ≤ length text.entry.tokens.now.items) }
{
    let name = Name::from_slice(alloc, &[])?;
    let (terms, behind) = first_terms_at(alloc, around, scope, &name, text, at)?;
    let none = Items::new(alloc);
    let args = with_terms(alloc, name, terms, none)?;
    Ok((args, behind))
}

/// `name "(" terms ")"`
pub(crate) fn named_terms_at(
    alloc: Global,
    around: Around<'_>,
    scope: &Scope<'_>,
    text: Text<'_>,
    at: u32,
) -> Result<(Args, u32), Halt>
    requires at { at ≤ length text.tokens.now.items }
    requires count { length text.tokens.now.items < 2 ^ 32 }
    ensures exact { Answers (λ x. x) (specs.named_terms text.entry.bytes.now text.entry.tokens.now around.entry.defs.now around.entry.specs.now (outermost scope.now) around.entry.goal.now around.entry.rule at) result }
    ensures within { IfOk result (λ x. x.1 ≤ length text.entry.tokens.now.items) }
{
    let (name, first) = take_name(alloc, text, at)?;
    let (terms, behind) = first_terms_at(alloc, around, scope, &name, text, first)?;
    let none = Items::new(alloc);
    let args = with_terms(alloc, name, terms, none)?;
    Ok((args, behind))
}

/// `name "(" terms ")" "(" terms ")"`
pub(crate) fn named_twice_at(
    alloc: Global,
    around: Around<'_>,
    scope: &Scope<'_>,
    text: Text<'_>,
    at: u32,
) -> Result<(Args, u32), Halt>
    requires at { at ≤ length text.tokens.now.items }
    requires count { length text.tokens.now.items < 2 ^ 32 }
    ensures exact { Answers (λ x. x) (specs.named_twice text.entry.bytes.now text.entry.tokens.now around.entry.defs.now around.entry.specs.now (outermost scope.now) around.entry.goal.now around.entry.rule at) result }
    ensures within { IfOk result (λ x. x.1 ≤ length text.entry.tokens.now.items) }
{
    let (name, first) = take_name(alloc, text, at)?;
    let (terms, second) = first_terms_at(alloc, around, scope, &name, text, first)?;
    let expected = expected_more(&name, terms.as_slice(), around.defs);
    let (more, behind) = terms_alone(alloc, scope, text, second, expected)?;
    let args = with_terms(alloc, name, terms, more)?;
    Ok((args, behind))
}

/// The number of a part, and a number in parentheses.
pub(crate) fn part_and_term_at(
    alloc: Global,
    scope: &Scope<'_>,
    text: Text<'_>,
    at: u32,
) -> Result<(Args, u32), Halt>
    requires at { at ≤ length text.tokens.now.items }
    requires count { length text.tokens.now.items < 2 ^ 32 }
    ensures exact { Answers (λ x. x) (specs.part_and_term text.entry.bytes.now text.entry.tokens.now (outermost scope.now) at) result }
    ensures within { IfOk result (λ x. x.1 ≤ length text.entry.tokens.now.items) }
{
    let (on, first) = plain_arguments_at(alloc, text, Shape::Number, at)?;
    let (term, behind) = enclosed_alone(alloc, scope, text, first, Some(Sort::Z))?;
    let args = with_term(alloc, on, term)?;
    Ok((args, behind))
}

/// A hypothesis, and a term in parentheses.
pub(crate) fn hypothesis_and_term_at(
    alloc: Global,
    around: Around<'_>,
    scope: &Scope<'_>,
    text: Text<'_>,
    at: u32,
) -> Result<(Args, u32), Halt>
    requires at { at ≤ length text.tokens.now.items }
    requires count { length text.tokens.now.items < 2 ^ 32 }
    ensures exact { Answers (λ x. x) (specs.hypothesis_and_term text.entry.bytes.now text.entry.tokens.now (outermost scope.now) around.entry.goal.now at) result }
    ensures within { IfOk result (λ x. x.1 ≤ length text.entry.tokens.now.items) }
{
    let (on, first) = plain_arguments_at(alloc, text, Shape::Hypothesis, at)?;
    let sort = instance_sort(around.goal, number_of(on.target))?;
    let (term, behind) = enclosed_alone(alloc, scope, text, first, sort)?;
    let args = with_term(alloc, on, term)?;
    Ok((args, behind))
}

/// The term of `Exists`.
fn witness_at(
    alloc: Global,
    around: Around<'_>,
    scope: &Scope<'_>,
    text: Text<'_>,
    at: u32,
) -> Result<(Args, u32), Halt>
    requires at { at ≤ length text.tokens.now.items }
    requires count { length text.tokens.now.items < 2 ^ 32 }
    ensures exact { Answers (λ x. x) (specs.witness text.entry.bytes.now text.entry.tokens.now (outermost scope.now) around.entry.goal.now at) result }
    ensures within { IfOk result (λ x. x.1 ≤ length text.entry.tokens.now.items) }
{
    let sort = witness_sort(around.goal)?;
    let (term, behind) = term_alone(alloc, scope, text, at, sort)?;
    let none = no_args(alloc)?;
    let args = with_term(alloc, none, term)?;
    Ok((args, behind))
}

/// The formula of `cut`.
fn one_formula_at(
    alloc: Global,
    scope: &Scope<'_>,
    text: Text<'_>,
    at: u32,
) -> Result<(Args, u32), Halt>
    requires at { at ≤ length text.tokens.now.items }
    requires count { length text.tokens.now.items < 2 ^ 32 }
    ensures exact { Answers (λ x. x) (specs.one_formula text.entry.bytes.now text.entry.tokens.now (outermost scope.now) at) result }
    ensures within { IfOk result (λ x. x.1 ≤ length text.entry.tokens.now.items) }
{
    let (formula, behind) = formula_alone(alloc, scope, text, at)?;
    let args = with_formula(alloc, formula)?;
    Ok((args, behind))
}

/// What stands alone: the formula of `cut`, and the term of `Exists`.
pub(crate) fn bare_at(
    alloc: Global,
    around: Around<'_>,
    scope: &Scope<'_>,
    text: Text<'_>,
    at: u32,
) -> Result<(Args, u32), Halt>
    requires at { at ≤ length text.tokens.now.items }
    requires count { length text.tokens.now.items < 2 ^ 32 }
    ensures exact { Answers (λ x. x) (specs.bare text.entry.bytes.now text.entry.tokens.now (outermost scope.now) around.entry.goal.now around.entry.rule at) result }
    ensures within { IfOk result (λ x. x.1 ≤ length text.entry.tokens.now.items) }
{
    match around.rule {
        Rule::Cut => one_formula_at(alloc, scope, text, at),
        _ => witness_at(alloc, around, scope, text, at),
    }
}
