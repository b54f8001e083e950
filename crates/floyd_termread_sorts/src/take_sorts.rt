//! Tokens of sorts and binders, as the reader takes them, and what is built of them.
ghost use Rattle.std.specs.Prelude.{◌≡◌, ◌<◌, ◌^◌, ◌≤◌, ◌+◌, IfOk};
ghost use Rattle.floyd_grammar.specs.ParseClauses.{leads, never, one};
ghost use Rattle.floyd_grammar.specs.GivesClauses.{Gives};
ghost use Rattle.floyd_termread_sorts.specs.Sorts as s;
ghost use Rattle.floyd_termread_sorts.specs.SortClauses as r;
ghost use Rattle.floyd_termread_sorts.specs.declared.values.SortParts.{SortParts};
ghost use Rattle.floyd_cparse_tokens.specs.Tokens.{is_type_text};

use crate::values::{Binders, SortParts, SortStart};
use floyd_cparse_tokens::{TypeNames, found_or};
use floyd_cparse_trees::Identifier;
use floyd_grammar::Stop;
use floyd_lex::Punctuator;
use floyd_termread_tokens::{Reader, Seen, UNEXPECTED};
use floyd_termread_trees::{Binder, SortItem, SortWord, Word};
use floyd_text::Place;
use sqlite_items::Items;
use std::alloc::{AllocError, Global};

fn sort_start(token: &Seen<'_>) -> Option<SortStart>
    ensures { result ≡ s.sort_start token.now }
{
    if token.is_mark(Punctuator::OpenParen) {
        return Some(SortStart::Open(token.place()));
    }
    match token.word() {
        Some(Word::Sort(word)) => Some(SortStart::Word(word, token.place())),
        _ => None,
    }
}

pub(crate) fn take_sort(
    reader: &mut Reader<'_>,
    room: u32,
    count: u32,
    parts: &SortParts,
) -> Result<SortStart, Stop>
    ensures value { Gives result reader.new (one (s.sort_token room count parts.now) reader.old) }
    ensures room { IfOk result (λ x. r.run_at x parts.now.run ≤ room + 2) }
{
    let token = reader.peek()?;
    if parts.wanted == 0 {
        return reader.take(Err(UNEXPECTED));
    }
    if token.is_cut() {
        return reader.take(Ok(SortStart::Word(SortWord::Z, token.place())));
    }
    let start = sort_start(&token);
    reader.take(token.demand(room, count as u64 + parts.run as u64, start))
}

/// The row is whole.
pub(crate) fn wants_none(parts: &SortParts) -> bool
    ensures { result ≡ s.wants_none parts.now }
{
    parts.wanted == 0
}

/// Refuses the next token, as the row in front of it is not whole.
pub(crate) fn refuse_row(reader: &mut Reader<'_>) -> Result<Items<SortItem>, Stop>
    ensures { Gives result reader.new (never 0 reader.old) }
{
    reader.peek()?;
    reader.take(Err(UNEXPECTED))
}

pub(crate) fn leads_sort(reader: &Reader<'_>, parts: &SortParts) -> bool
    ensures { result ≡ leads (r.wants_more parts.now) reader.now }
{
    parts.wanted != 0 && reader.leads_any()
}

pub(crate) fn take_sort_end(reader: &mut Reader<'_>, room: u32, count: u32) -> Result<Place, Stop>
    ensures { Gives result reader.new (one (s.sort_end room count) reader.old) }
{
    let token = reader.peek()?;
    if token.is_cut() {
        return reader.take(Ok(token.place()));
    }
    let cause = token.blame(room, count as u64);
    let place = token.place_if(token.is_mark(Punctuator::CloseParen));
    reader.take(found_or(cause, place))
}

pub(crate) fn take_binder_name(
    alloc: Global,
    reader: &mut Reader<'_>,
    room: u32,
    depth: u64,
    names: &TypeNames,
) -> Result<Identifier, Stop>
    requires { depth < 2 ^ 40 }
    ensures { Gives result reader.new (one (s.binder_name room depth names.now) reader.old) }
{
    let token = reader.peek()?;
    if token.is_cut() {
        return reader.take(Ok(token.identifier(alloc)?));
    }
    let name = fresh_name(alloc, &token, names)?;
    reader.take(token.demand(room, depth, name))
}

fn fresh_name(
    alloc: Global,
    token: &Seen<'_>,
    names: &TypeNames,
) -> Result<Option<Identifier>, AllocError>
    ensures { IfOk result (λ x. x ≡ s.fresh_name names.now token.now) }
{
    if token.is_free_name() && !names.contains(token.text()) {
        Ok(Some(token.identifier(alloc)?))
    } else {
        Ok(None)
    }
}

pub(crate) fn take_colon(reader: &mut Reader<'_>, room: u32, count: u32) -> Result<Place, Stop>
    ensures { Gives result reader.new (one (s.colon_token room count) reader.old) }
{
    let token = reader.peek()?;
    if token.is_cut() {
        return reader.take(Ok(token.place()));
    }
    let place = token.place_if(token.is_mark(Punctuator::Colon));
    reader.take(token.demand(room, count as u64, place))
}

pub(crate) fn take_comma(reader: &mut Reader<'_>) -> Result<Place, Stop>
    ensures { Gives result reader.new (one s.comma_token reader.old) }
{
    let token = reader.peek()?;
    let place = token.place_if(token.is_mark(Punctuator::Comma));
    reader.take(found_or(UNEXPECTED, place))
}

pub(crate) fn take_dot(reader: &mut Reader<'_>, room: u32, count: u32) -> Result<Place, Stop>
    ensures { Gives result reader.new (one (s.dot_token room count) reader.old) }
{
    let token = reader.peek()?;
    if token.is_cut() {
        return reader.take(Ok(token.place()));
    }
    let cause = if token.is_mark(Punctuator::Comma) {
        UNEXPECTED
    } else {
        token.blame(room, count as u64)
    };
    let place = token.place_if(token.is_mark(Punctuator::Dot));
    reader.take(found_or(cause, place))
}

pub(crate) fn no_sort(alloc: Global) -> SortParts
    ensures { result ≡ s.no_sort }
{
    SortParts {
        items: Items::new(alloc),
        wanted: 1,
        run: 0,
    }
}

fn wanted_behind(item: &SortItem, wanted: u64) -> Result<u64, AllocError>
    ensures { IfOk result (λ n. n ≡ s.wanted_behind item.now wanted) }
{
    match item {
        SortItem::Word(SortWord::Prod, _) => wanted.checked_add(1).ok_or(AllocError),
        SortItem::Word(SortWord::List | SortWord::Tree, _) => Ok(wanted),
        SortItem::Word(SortWord::Z | SortWord::Val, _) | SortItem::Parenthesised(_, _) => {
            Ok(wanted.saturating_sub(1))
        }
    }
}

fn run_behind(item: &SortItem, run: u32) -> u32
    requires { run < 2 ^ 31 }
    ensures { result ≡ s.run_behind item.now run }
{
    match item {
        SortItem::Word(SortWord::Prod | SortWord::List | SortWord::Tree, _) => run + 1,
        SortItem::Word(SortWord::Z | SortWord::Val, _) | SortItem::Parenthesised(_, _) => 0,
    }
}

pub(crate) fn plus_sort(parts: SortParts, item: SortItem) -> Result<SortParts, AllocError>
    requires { parts.run < 2 ^ 31 }
    ensures { IfOk result (λ x. x ≡ s.plus_sort parts item) }
{
    let mut parts = parts;
    parts.wanted = wanted_behind(&item, parts.wanted)?;
    parts.run = run_behind(&item, parts.run);
    parts.items.push(item)?;
    Ok(parts)
}

pub(crate) fn plus_binder(
    alloc: Global,
    all: Binders,
    binder: Binder,
) -> Result<Binders, AllocError>
    ensures { IfOk result (λ x. x ≡ s.plus_binder all binder) }
{
    let mut all = all;
    all.names.add(alloc, binder.name.name.as_slice())?;
    all.items.push(binder)?;
    Ok(all)
}

pub(crate) fn first_binder(alloc: Global, binder: Binder) -> Result<Binders, AllocError>
    ensures { IfOk result (λ x. x ≡ s.first_binder binder) }
{
    let none = Binders {
        items: Items::new(alloc),
        names: TypeNames::new(alloc),
    };
    plus_binder(alloc, none, binder)
}
