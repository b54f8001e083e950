//! Sorts and binders.
ghost use Rattle.std.specs.Prelude.{◌≡◌, ◌≤◌, ◌<◌, ◌+◌, ◌^◌, IfOk, OnOk, length, Some};
ghost use Rattle.floyd_termread_assertions.specs.BoundClauses as clauses;
ghost use Rattle.floyd_termread_assertions.specs.Existentials as specs;
ghost use Rattle.floyd_termread_phrases.specs.Reads.{Answers};
ghost use Rattle.floyd_termread_scope.specs.Scopes.{sort_of};
ghost use Rattle.floyd_termread_scope.specs.WrittenSorts.{written_sort};

use floyd_assert_trees::{Binder, BinderList};
use floyd_lex::Punctuator;
use floyd_termread_binders::{read_binders_at, read_sort_at};
use floyd_termread_marks::{AssertionWord, first_place, leads_word, take_mark, take_word};
use floyd_termread_phrases::{Spot, Text};
use floyd_termread_scope::{Variables, sort_in};
use floyd_termread_trees::Binder as WrittenBinder;
use floyd_text::{Code, Halt, Place, Refusal, Shown};
use floyd_tree::Sort;
use sqlite_items::Items;
use std::alloc::{AllocError, Global};

/// The refusal of what was read and has no sort.
fn unreadable(place: Place) -> Refusal
    ensures { result ≡ specs.unreadable place }
{
    Refusal::at(Code::UnexpectedInSpec, place, Shown::Nothing)
}

/// The sort from a spot on, and the number of the token behind it. Else the refusal: 302 and 501 where the tokens so far
/// begin no sort; at one place the first of these.
pub fn sort_at(alloc: Global, text: Text<'_>, spot: Spot) -> Result<(Sort, u32), Halt>
    requires at { spot.at ≤ length text.tokens.now.items }
    requires count { length text.tokens.now.items < 2 ^ 32 }
    ensures exact { Answers (λ x. x) (specs.sort text.entry.bytes.now text.entry.tokens.now spot.depth spot.at) result }
    ensures from { IfOk result (λ x. spot.at ≤ x.1) }
    ensures within { IfOk result (λ x. x.1 ≤ length text.entry.tokens.now.items) }
{
    let (row, behind) = read_sort_at(alloc, text.bytes, text.tokens, spot.at, spot.depth)?;
    match sort_in(alloc, row.as_slice())? {
        Some(sort) => Ok((sort, behind)),
        None => Err(Halt::Refused(unreadable(first_place(text, spot.at)))),
    }
}

/// A binder with the sort that is written for it.
fn with_sort(alloc: Global, binder: &WrittenBinder) -> Result<Option<Binder>, AllocError>
    ensures { IfOk result (λ b. b ≡ specs.with_sort binder.now) }
{
    match sort_in(alloc, binder.sort.as_slice())? {
        Some(sort) => {
            let name = binder.name.name.share()?;
            Ok(Some(Binder { name, sort }))
        }
        None => Ok(None),
    }
}

/// Binders with the sorts that are written for them.
fn with_sorts(alloc: Global, rows: &[WrittenBinder]) -> Result<Option<BinderList>, AllocError>
    ensures { IfOk result (λ bs. bs ≡ specs.with_sorts rows.now) }
{
    let mut binders = Items::new(alloc);
    let mut rest = rows;
    'rows: while let Some((row, more)) = rest.split_first() {
        let Some(binder) = with_sort(alloc, row)? else {
            return Ok(None);
        };
        binders.push(binder)?;
        rest = more;
    }
    Ok(Some(binders))
}

/// Binders, `name ":" sort { "," name ":" sort }`, from a spot on, as `sort_at` has a sort. Two of one name, and a name
/// that is a word, are refused at the later name, with 501.
pub fn binders_at(alloc: Global, text: Text<'_>, spot: Spot) -> Result<(BinderList, u32), Halt>
    requires at { spot.at ≤ length text.tokens.now.items }
    requires count { length text.tokens.now.items < 2 ^ 32 }
    ensures exact { Answers (λ x. x) (specs.binders text.entry.bytes.now text.entry.tokens.now spot.depth spot.at) result }
    ensures from { IfOk result (λ x. spot.at ≤ x.1) }
    ensures within { IfOk result (λ x. x.1 ≤ length text.entry.tokens.now.items) }
{
    let (rows, behind) = read_binders_at(alloc, text.bytes, text.tokens, spot.at, spot.depth)?;
    match with_sorts(alloc, rows.as_slice())? {
        Some(binders) => Ok((binders, behind)),
        None => Err(Halt::Refused(unreadable(first_place(text, spot.at)))),
    }
}

/// `"EX" binders "."`
fn existentials_behind(alloc: Global, text: Text<'_>, spot: Spot) -> Result<(BinderList, u32), Halt>
    requires at { spot.at ≤ length text.tokens.now.items }
    requires count { length text.tokens.now.items < 2 ^ 32 }
    ensures exact { Answers (λ x. x) (specs.existentials_behind text.entry.bytes.now text.entry.tokens.now spot.depth spot.at) result }
    ensures from { IfOk result (λ x. spot.at ≤ x.1) }
    ensures within { IfOk result (λ x. x.1 ≤ length text.entry.tokens.now.items) }
{
    let depth = spot.depth;
    let (_word, first) = take_word(text, spot, AssertionWord::Exists)?;
    let (binders, end) = binders_at(alloc, text, Spot { at: first, depth })?;
    let (_dot, behind) = take_mark(text, Spot { at: end, depth }, Punctuator::Dot)?;
    Ok((binders, behind))
}

/// The existentials of an assertion from a spot on, if it has any. Their names and sorts are refused as `binders_at` refuses
/// them.
pub fn existentials_at(alloc: Global, text: Text<'_>, spot: Spot) -> Result<(BinderList, u32), Halt>
    requires at { spot.at ≤ length text.tokens.now.items }
    requires count { length text.tokens.now.items < 2 ^ 32 }
    ensures exact { Answers (λ x. x) (specs.existentials text.entry.bytes.now text.entry.tokens.now spot.depth spot.at) result }
    ensures from { IfOk result (λ x. spot.at ≤ x.1) }
    ensures within { IfOk result (λ x. x.1 ≤ length text.entry.tokens.now.items) }
{
    if leads_word(text, spot.at, AssertionWord::Exists) {
        return existentials_behind(alloc, text, spot);
    }
    Ok((Items::new(alloc), spot.at))
}

fn bind_one(binder: &Binder, bound: &mut Variables) -> Result<(), AllocError>
    ensures { OnOk result (sort_of bound.new ≡ clauses.bound_by binder.now (sort_of bound.old)) }
{
    let name = binder.name.share()?;
    let sort = binder.sort.share()?;
    let _hidden = bound.bind(name, sort)?;
    Ok(())
}

/// Binds the variables of binders, the first one first. Nothing is said of the variables that are bound where memory runs
/// out.
pub fn bind_all(binders: &[Binder], bound: &mut Variables) -> Result<(), AllocError>
    ensures { OnOk result (sort_of bound.new ≡ clauses.bound_by_all binders.now (sort_of bound.old)) }
{
    let mut rest = binders;
    'binders: while let Some((binder, more)) = rest.split_first() {
        bind_one(binder, bound)?;
        rest = more;
    }
    Ok(())
}
