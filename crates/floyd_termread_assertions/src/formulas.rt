//! Formulas in lists.
ghost use Rattle.std.specs.Prelude.{◌≡◌, ◌≤◌, ◌<◌, ◌+◌, ◌^◌, [], IfOk, OnOk, length};
ghost use Rattle.floyd_lex.specs.declared.kinds.Punctuator.TheVariants as p;
ghost use Rattle.floyd_termread_assertions.specs.Assertions as specs;
ghost use Rattle.floyd_termread_marks.specs.Lists as lists;
ghost use Rattle.floyd_termread_phrases.specs.Phrases as phrase;
ghost use Rattle.floyd_termread_phrases.specs.Reads.{Answers};
ghost use Rattle.floyd_termread_scope.specs.Scopes.{env, sort_of};

use floyd_lex::Punctuator;
use floyd_termread_marks::{AssertionWord, leads_mark, take_before, take_mark, take_word};
use floyd_termread_phrases::{Spot, Text, formula_at};
use floyd_termread_scope::{Scope, Variables};
use floyd_text::Halt;
use floyd_tree::{Formula, FormulaList};
use sqlite_items::Items;
use std::alloc::Global;

/// A formula with so many before it, and the mark before it.
fn next_formula(
    alloc: Global,
    scope: &Scope<'_>,
    bound: &mut Variables,
    text: Text<'_>,
    spot: Spot,
    number: usize,
) -> Result<(Formula, u32), Halt>
    requires at { spot.at ≤ length text.tokens.now.items }
    requires count { length text.tokens.now.items < 2 ^ 32 }
    ensures exact { Answers (λ x. x) (specs.item_by text.entry.bytes.now text.entry.tokens.now spot.depth number (phrase.formula text.entry.bytes.now text.entry.tokens.now spot.depth (env scope.now bound.old)) spot.at) result }
    ensures from { IfOk result (λ x. spot.at + 1 ≤ x.1 + lists.first_only number) }
    ensures within { IfOk result (λ x. x.1 ≤ length text.entry.tokens.now.items) }
    ensures kept { OnOk result (sort_of bound.new ≡ sort_of bound.old) }
{
    let depth = spot.depth;
    let first = take_before(text, spot, Punctuator::Semicolon, number)?;
    formula_at(alloc, scope, bound, text, Spot { at: first, depth })
}

/// The formulas up to the end of their list.
fn more_formulas(
    alloc: Global,
    scope: &Scope<'_>,
    bound: &mut Variables,
    text: Text<'_>,
    spot: Spot,
) -> Result<(FormulaList, u32), Halt>
    requires at { spot.at ≤ length text.tokens.now.items }
    requires count { length text.tokens.now.items < 2 ^ 32 }
    ensures exact { Answers (λ x. x) (lists.Listed text.entry.bytes.now text.entry.tokens.now spot.depth p.Semicolon (specs.formula_behind text.entry.bytes.now text.entry.tokens.now spot.depth (env scope.now bound.old)) [] spot.at) result }
    ensures from { IfOk result (λ x. spot.at ≤ x.1) }
    ensures within { IfOk result (λ x. x.1 ≤ length text.entry.tokens.now.items) }
    ensures kept { OnOk result (sort_of bound.new ≡ sort_of bound.old) }
{
    let Spot { mut at, depth } = spot;
    let mut formulas = Items::new(alloc);
    'each: while !leads_mark(text, at, Punctuator::CloseParen) {
        let number = formulas.len();
        let (formula, next) = next_formula(alloc, scope, bound, text, Spot { at, depth }, number)?;
        formulas.push(formula)?;
        at = next;
    }
    Ok((formulas, at + 1))
}

/// Formulas in parentheses with `;` between them, from a spot on, and the number of the token behind them. Each is read or
/// refused as `formula_at` does; the marks are refused with 302 and 501. The variables that are bound are the same behind
/// it, unless it is refused or memory runs out.
pub fn formulas_at(
    alloc: Global,
    scope: &Scope<'_>,
    bound: &mut Variables,
    text: Text<'_>,
    spot: Spot,
) -> Result<(FormulaList, u32), Halt>
    requires at { spot.at ≤ length text.tokens.now.items }
    requires count { length text.tokens.now.items < 2 ^ 32 }
    ensures exact { Answers (λ x. x) (specs.formulas text.entry.bytes.now text.entry.tokens.now spot.depth (env scope.now bound.old) spot.at) result }
    ensures from { IfOk result (λ x. spot.at ≤ x.1) }
    ensures within { IfOk result (λ x. x.1 ≤ length text.entry.tokens.now.items) }
    ensures kept { OnOk result (sort_of bound.new ≡ sort_of bound.old) }
{
    let (_open, first) = take_mark(text, spot, Punctuator::OpenParen)?;
    let depth = spot.depth + 1;
    more_formulas(alloc, scope, bound, text, Spot { at: first, depth })
}

/// `"PROP"` and its formulas, as `formulas_at` has them.
pub fn props_at(
    alloc: Global,
    scope: &Scope<'_>,
    bound: &mut Variables,
    text: Text<'_>,
    spot: Spot,
) -> Result<(FormulaList, u32), Halt>
    requires at { spot.at ≤ length text.tokens.now.items }
    requires count { length text.tokens.now.items < 2 ^ 32 }
    ensures exact { Answers (λ x. x) (specs.props text.entry.bytes.now text.entry.tokens.now spot.depth (env scope.now bound.old) spot.at) result }
    ensures from { IfOk result (λ x. spot.at ≤ x.1) }
    ensures within { IfOk result (λ x. x.1 ≤ length text.entry.tokens.now.items) }
    ensures kept { OnOk result (sort_of bound.new ≡ sort_of bound.old) }
{
    let depth = spot.depth;
    let (_word, first) = take_word(text, spot, AssertionWord::Prop)?;
    formulas_at(alloc, scope, bound, text, Spot { at: first, depth })
}
