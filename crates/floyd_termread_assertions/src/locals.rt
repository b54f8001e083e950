//! Temporaries with their values.
ghost use Rattle.std.specs.Prelude.{◌≡◌, ◌≤◌, ◌<◌, ◌+◌, ◌^◌, ℕ, List, [], Some, IfOk, OnOk, bytes_eq, cond, length};
ghost use Rattle.floyd_lex.specs.declared.kinds.Punctuator.TheVariants as p;
ghost use Rattle.floyd_termread_assertions.specs.Assertions as specs;
ghost use Rattle.floyd_termread_assertions.specs.BoundClauses as clauses;
ghost use Rattle.floyd_termread_marks.specs.Lists as lists;
ghost use Rattle.floyd_termread_marks.specs.Marks as marks;
ghost use Rattle.floyd_termread_phrases.specs.Reads.{Answers};
ghost use Rattle.floyd_tree_sorts.specs.declared.sorts.Sort.{Val};
ghost use Rattle.floyd_termread_scope.specs.Scopes.{env, sort_of};

use floyd_assert_trees::{Local, LocalList};
use floyd_cparse_trees::Identifier;
use floyd_lex::Punctuator;
use floyd_termread_marks::{
    AssertionWord, given_name_at, leads_mark, leads_word, take, take_before, take_mark, take_word,
};
use floyd_termread_phrases::{Spot, Text, term_at};
use floyd_termread_scope::{Scope, Variables};
use floyd_text::Halt;
use floyd_tree::Sort;
use sqlite_items::Items;
use std::alloc::{AllocError, Global};

/// The temporaries before another, and their names, which are found without a walk.
#[derive(Clone, Copy)]
struct Before<'a> {
    locals: &'a [Local],
    names: &'a Variables,
}

/// Adds the name of a temporary.
fn put_name(local: &Local, names: &mut Variables) -> Result<(), AllocError>
    ensures { OnOk result ((x : List ℕ) → sort_of names.new x ≡ cond (bytes_eq local.now.name x) (Some Val) (sort_of names.old x)) }
{
    let name = local.name.share()?;
    let _hidden = names.bind(name, Sort::Val)?;
    Ok(())
}

/// The name that the next token is, unless a temporary has it.
fn new_name(
    alloc: Global,
    text: Text<'_>,
    at: u32,
    before: Before<'_>,
) -> Result<Option<Identifier>, AllocError>
    requires at { at ≤ length text.tokens.now.items }
    requires names { clauses.SameNames before.locals.now before.names.now }
    ensures { IfOk result (λ x. x ≡ marks.found_in (specs.new_name before.entry.locals.now) (marks.tokens_at text.entry.bytes.now text.entry.tokens.now at)) }
{
    match given_name_at(alloc, text, at)? {
        Some(name) => {
            if before.names.get(&name.name).is_some() {
                Ok(None)
            } else {
                Ok(Some(name))
            }
        }
        None => Ok(None),
    }
}

/// `"temp" name "="`
fn local_name(
    alloc: Global,
    text: Text<'_>,
    spot: Spot,
    before: Before<'_>,
) -> Result<(Identifier, u32), Halt>
    requires at { spot.at ≤ length text.tokens.now.items }
    requires count { length text.tokens.now.items < 2 ^ 32 }
    requires names { clauses.SameNames before.locals.now before.names.now }
    ensures exact { Answers (λ x. x) (specs.local_name text.entry.bytes.now text.entry.tokens.now spot.depth before.entry.locals.now spot.at) result }
    ensures from { IfOk result (λ x. spot.at ≤ x.1) }
    ensures within { IfOk result (λ x. x.1 ≤ length text.entry.tokens.now.items) }
{
    let depth = spot.depth;
    let (_word, first) = take_word(text, spot, AssertionWord::Temp)?;
    let found = new_name(alloc, text, first, before)?;
    let (name, second) = take(text, Spot { at: first, depth }, found)?;
    let (_equal, behind) = take_mark(text, Spot { at: second, depth }, Punctuator::Equal)?;
    Ok((name, behind))
}

/// A temporary with its value, behind others.
fn local_at(
    alloc: Global,
    scope: &Scope<'_>,
    bound: &Variables,
    text: Text<'_>,
    spot: Spot,
    before: Before<'_>,
) -> Result<(Local, u32), Halt>
    requires at { spot.at ≤ length text.tokens.now.items }
    requires count { length text.tokens.now.items < 2 ^ 32 }
    requires names { clauses.SameNames before.locals.now before.names.now }
    ensures exact { Answers (λ x. x) (specs.local_behind text.entry.bytes.now text.entry.tokens.now spot.depth (env scope.now bound.now) before.entry.locals.now spot.at) result }
    ensures from { IfOk result (λ x. spot.at ≤ x.1) }
    ensures within { IfOk result (λ x. x.1 ≤ length text.entry.tokens.now.items) }
{
    let depth = spot.depth;
    let (found, first) = local_name(alloc, text, spot, before)?;
    let (term, behind) = term_at(
        alloc,
        scope,
        bound,
        text,
        Spot { at: first, depth },
        Some(&Sort::Val),
    )?;
    let name = found.name.share()?;
    Ok((Local { name, term }, behind))
}

/// The same with the mark before it.
fn next_local(
    alloc: Global,
    scope: &Scope<'_>,
    bound: &Variables,
    text: Text<'_>,
    spot: Spot,
    before: Before<'_>,
) -> Result<(Local, u32), Halt>
    requires at { spot.at ≤ length text.tokens.now.items }
    requires count { length text.tokens.now.items < 2 ^ 32 }
    requires names { clauses.SameNames before.locals.now before.names.now }
    ensures exact { Answers (λ x. x) (specs.item_by text.entry.bytes.now text.entry.tokens.now spot.depth (length before.entry.locals.now) (specs.local_behind text.entry.bytes.now text.entry.tokens.now spot.depth (env scope.now bound.now) before.entry.locals.now) spot.at) result }
    ensures from { IfOk result (λ x. spot.at + 1 ≤ x.1 + lists.first_only (length before.entry.locals.now)) }
    ensures within { IfOk result (λ x. x.1 ≤ length text.entry.tokens.now.items) }
{
    let depth = spot.depth;
    let first = take_before(text, spot, Punctuator::Semicolon, before.locals.len())?;
    local_at(alloc, scope, bound, text, Spot { at: first, depth }, before)
}

/// The temporaries up to the end of their list.
fn more_locals(
    alloc: Global,
    scope: &Scope<'_>,
    bound: &Variables,
    text: Text<'_>,
    spot: Spot,
) -> Result<(LocalList, u32), Halt>
    requires at { spot.at ≤ length text.tokens.now.items }
    requires count { length text.tokens.now.items < 2 ^ 32 }
    ensures exact { Answers (λ x. x) (lists.Listed text.entry.bytes.now text.entry.tokens.now spot.depth p.Semicolon (specs.local_behind text.entry.bytes.now text.entry.tokens.now spot.depth (env scope.now bound.now)) [] spot.at) result }
    ensures from { IfOk result (λ x. spot.at ≤ x.1) }
    ensures within { IfOk result (λ x. x.1 ≤ length text.entry.tokens.now.items) }
{
    let Spot { mut at, depth } = spot;
    let mut locals = Items::new(alloc);
    let mut names = Variables::new(alloc);
    'each: while !leads_mark(text, at, Punctuator::CloseParen) {
        let before = Before {
            locals: locals.as_slice(),
            names: &names,
        };
        let (local, next) = next_local(alloc, scope, bound, text, Spot { at, depth }, before)?;
        put_name(&local, &mut names)?;
        locals.push(local)?;
        at = next;
    }
    Ok((locals, at + 1))
}

/// Temporaries with their values in parentheses, `"temp" name "=" term` with `;` between them, from a spot on, and the
/// number of the token behind them. Two of one name are refused at the later name, with 501; a term is read or refused as
/// `term_at` does, and is to be a value; the marks are refused with 302 and 501.
pub fn local_list_at(
    alloc: Global,
    scope: &Scope<'_>,
    bound: &Variables,
    text: Text<'_>,
    spot: Spot,
) -> Result<(LocalList, u32), Halt>
    requires at { spot.at ≤ length text.tokens.now.items }
    requires count { length text.tokens.now.items < 2 ^ 32 }
    ensures exact { Answers (λ x. x) (specs.local_list text.entry.bytes.now text.entry.tokens.now spot.depth (env scope.now bound.now) spot.at) result }
    ensures from { IfOk result (λ x. spot.at ≤ x.1) }
    ensures within { IfOk result (λ x. x.1 ≤ length text.entry.tokens.now.items) }
{
    let (_open, first) = take_mark(text, spot, Punctuator::OpenParen)?;
    let depth = spot.depth + 1;
    more_locals(alloc, scope, bound, text, Spot { at: first, depth })
}

/// `"LOCAL"` and its temporaries, if it stands there.
pub fn locals_at(
    alloc: Global,
    scope: &Scope<'_>,
    bound: &Variables,
    text: Text<'_>,
    spot: Spot,
) -> Result<(LocalList, u32), Halt>
    requires at { spot.at ≤ length text.tokens.now.items }
    requires count { length text.tokens.now.items < 2 ^ 32 }
    ensures exact { Answers (λ x. x) (specs.locals text.entry.bytes.now text.entry.tokens.now spot.depth (env scope.now bound.now) spot.at) result }
    ensures from { IfOk result (λ x. spot.at ≤ x.1) }
    ensures within { IfOk result (λ x. x.1 ≤ length text.entry.tokens.now.items) }
{
    if !leads_word(text, spot.at, AssertionWord::Local) {
        return Ok((Items::new(alloc), spot.at));
    }
    let depth = spot.depth;
    let (_word, first) = take_word(text, spot, AssertionWord::Local)?;
    local_list_at(alloc, scope, bound, text, Spot { at: first, depth })
}
