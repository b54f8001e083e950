//! Tokens of terms and formulas, as the reader takes them.
ghost use Rattle.std.specs.Prelude.{◌≡◌, ◌<◌, ◌^◌, ◌≤◌, ◌+◌, IfOk, IfSome};
ghost use Rattle.floyd_grammar.specs.ParseClauses.{leads, one};
ghost use Rattle.floyd_grammar.specs.GivesClauses.{Gives};
ghost use Rattle.floyd_cparse_tokens.specs.Tokens.{is_there};
ghost use Rattle.floyd_termread_grammar.specs.Terms as t;
ghost use Rattle.floyd_termread_grammar.specs.TermClauses.{begins_link};

use crate::build_terms::cut_side;
use crate::values::{Chain, Contents, Operand, Prefixes, StepStart};
use floyd_cparse_tokens::found_or;
use floyd_cparse_trees::Identifier;
use floyd_grammar::Stop;
use floyd_lex::Punctuator;
use floyd_termread_tables::{
    Class, Form, LinkStart, PrefixStart, Start, Want, goes_on, is_infix, link_start, prefix_of,
    start_of,
};
use floyd_termread_tokens::{Reader, Seen, UNEXPECTED};
use floyd_termread_trees::Written;
use floyd_text::Place;
use std::alloc::Global;

fn begins_prefix(token: &Seen<'_>, all: &Prefixes) -> bool
    ensures { result ≡ t.begins_prefix all.now token.now }
{
    prefix_of(all.want, all.minus, token).is_some()
}

pub(crate) fn leads_prefix(reader: &Reader<'_>, all: &Prefixes) -> bool
    ensures { result ≡ leads (t.begins_prefix all.now) reader.now }
{
    match reader.peek() {
        Ok(token) => begins_prefix(&token, all),
        Err(_) => false,
    }
}

pub(crate) fn take_prefix(
    reader: &mut Reader<'_>,
    room: u32,
    all: &Prefixes,
) -> Result<PrefixStart, Stop>
    ensures { Gives result reader.new (one (t.prefix_token room all.now) reader.old) }
{
    let token = reader.peek()?;
    let start = prefix_of(all.want, all.minus, &token);
    reader.take(token.offer(room, all.count as u64 + all.run as u64, start))
}

pub(crate) fn take_operand(
    alloc: Global,
    reader: &mut Reader<'_>,
    room: u32,
    all: &Prefixes,
) -> Result<Start, Stop>
    ensures { Gives result reader.new (one (t.operand_token room all.now) reader.old) }
{
    let token = reader.peek()?;
    if begins_prefix(&token, all) {
        return reader.take(Err(UNEXPECTED));
    }
    if token.is_cut() {
        return reader.take(Ok(Start::Alone(Written::Missing, Class::Other)));
    }
    let start = start_of(alloc, all.want, all.minus, &token)?;
    reader.take(token.demand(room, all.count as u64 + all.run as u64, start))
}

pub(crate) fn leads_link(reader: &Reader<'_>, chain: &Chain) -> bool
    ensures { result ≡ leads (begins_link chain.now) reader.now }
{
    match reader.peek() {
        Ok(token) => is_infix(chain.end.kind, &token),
        Err(_) => false,
    }
}

pub(crate) fn take_link(
    reader: &mut Reader<'_>,
    room: u32,
    chain: &Chain,
) -> Result<LinkStart, Stop>
    ensures value { Gives result reader.new (one (t.link_token room chain.now) reader.old) }
    ensures room { IfOk result (λ _. chain.now.end.count ≤ room + 1) }
{
    let token = reader.peek()?;
    let start = link_start(chain.end.kind, &token);
    reader.take(token.offer(room, chain.end.count as u64, start))
}

/// Refuses what stands behind a side of a relation that has no relation, unless the text is cut off there.
pub(crate) fn take_side_end(
    alloc: Global,
    reader: &mut Reader<'_>,
    room: u32,
    chain: Chain,
) -> Result<Operand, Stop>
    ensures { Gives result reader.new (one (t.side_end room chain) reader.old) }
{
    let token = reader.peek()?;
    if token.is_cut() {
        let side = cut_side(alloc, chain)?;
        return reader.take(Ok(side));
    }
    let cause = if goes_on(chain.end, &token) {
        UNEXPECTED
    } else {
        token.blame(room, chain.end.count as u64)
    };
    reader.take(Err(cause))
}

fn known_place(place: Option<Place>) -> Option<Option<Place>>
    ensures { result ≡ t.known_place place }
{
    match place {
        Some(place) => Some(Some(place)),
        None => None,
    }
}

fn known_name(name: Option<Identifier>) -> Option<Option<Identifier>>
    ensures { result ≡ t.known_name name }
{
    match name {
        Some(name) => Some(Some(name)),
        None => None,
    }
}

fn more_items(token: &Seen<'_>, form: Form, all: &Contents) -> bool
    ensures { result ≡ t.more_items form all.now token.now }
{
    form.next_want(all.items.len(), all.end.kind).is_some() && token.is_mark(form.separator())
}

pub(crate) fn leads_item(reader: &Reader<'_>, form: Form, all: &Contents) -> bool
    ensures { result ≡ leads (t.more_items form all.now) reader.now }
{
    match reader.peek() {
        Ok(token) => more_items(&token, form, all),
        Err(_) => false,
    }
}

pub(crate) fn take_separator(
    reader: &mut Reader<'_>,
    form: Form,
    all: &Contents,
) -> Result<Place, Stop>
    ensures { Gives result reader.new (one (t.separator_token form all.now) reader.old) }
{
    let token = reader.peek()?;
    let place = token.place_if(more_items(&token, form, all));
    reader.take(found_or(UNEXPECTED, place))
}

/// What is wanted of the next item.
pub(crate) fn want_of_next(form: Form, all: &Contents) -> Want
    ensures { result ≡ t.want_of_next form all.now }
{
    form.next_want(all.items.len(), all.end.kind)
        .unwrap_or(Want::Term)
}

pub(crate) fn take_bracket_end(
    reader: &mut Reader<'_>,
    room: u32,
    form: Form,
    all: &Contents,
) -> Result<Option<Place>, Stop>
    ensures { Gives result reader.new (one (t.bracket_end room form all.now) reader.old) }
{
    let token = reader.peek()?;
    if token.is_cut() {
        return reader.take(Ok(None));
    }
    let cause = if more_items(&token, form, all) || goes_on(all.end, &token) {
        UNEXPECTED
    } else {
        token.blame(room, all.end.count as u64)
    };
    let closes = form.is_enough(all.items.len()) && token.is_mark(form.closing_mark());
    let place = known_place(token.place_if(closes));
    reader.take(found_or(cause, place))
}

fn is_empty_end(token: &Seen<'_>, form: Form) -> bool
    ensures { result ≡ t.is_empty_end form token.now }
{
    form.may_be_empty() && token.is_mark(form.closing_mark())
}

pub(crate) fn leads_empty_end(reader: &Reader<'_>, form: Form) -> bool
    ensures { result ≡ leads (t.is_empty_end form) reader.now }
{
    match reader.peek() {
        Ok(token) => is_empty_end(&token, form),
        Err(_) => false,
    }
}

pub(crate) fn take_empty_end(reader: &mut Reader<'_>, form: Form) -> Result<Place, Stop>
    ensures { Gives result reader.new (one (t.empty_end form) reader.old) }
{
    let token = reader.peek()?;
    let place = token.place_if(is_empty_end(&token, form));
    reader.take(found_or(UNEXPECTED, place))
}

pub(crate) fn take_call(reader: &mut Reader<'_>, room: u32, count: u32) -> Result<Place, Stop>
    ensures value { Gives result reader.new (one (t.call_token room count) reader.old) }
    ensures room { IfOk result (λ _. count ≤ room + 1) }
{
    let token = reader.peek()?;
    let place = token.place_if(token.is_mark(Punctuator::OpenParen));
    reader.take(token.offer(room, count as u64, place))
}

pub(crate) fn take_open(
    reader: &mut Reader<'_>,
    room: u32,
    count: u32,
) -> Result<Option<Place>, Stop>
    ensures value { Gives result reader.new (one (t.open_token room count) reader.old) }
    ensures room { IfOk result (λ opened. IfSome opened (λ _. count ≤ room + 1)) }
{
    let token = reader.peek()?;
    if token.is_cut() {
        return reader.take(Ok(None));
    }
    let place = known_place(token.place_if(token.is_mark(Punctuator::OpenParen)));
    reader.take(token.demand(room, count as u64, place))
}

pub(crate) fn take_tag(
    alloc: Global,
    reader: &mut Reader<'_>,
    room: u32,
    count: u32,
) -> Result<Option<Identifier>, Stop>
    ensures { Gives result reader.new (one (t.tag_token room count) reader.old) }
{
    let token = reader.peek()?;
    if token.is_cut() {
        return reader.take(Ok(None));
    }
    let name = known_name(token.given_name(alloc)?);
    reader.take(token.demand(room, count as u64, name))
}

fn step_at(token: &Seen<'_>) -> Option<StepStart>
    ensures { result ≡ t.step_at token.now }
{
    if token.is_mark(Punctuator::Dot) {
        Some(StepStart::Dot(token.place()))
    } else if token.is_mark(Punctuator::OpenBracket) {
        Some(StepStart::Open(token.place()))
    } else {
        None
    }
}

pub(crate) fn leads_step(reader: &Reader<'_>) -> bool
    ensures { result ≡ leads (λ s. is_there (t.step_at s)) reader.now }
{
    match reader.peek() {
        Ok(token) => step_at(&token).is_some(),
        Err(_) => false,
    }
}

pub(crate) fn take_step(
    reader: &mut Reader<'_>,
    room: u32,
    all: &Contents,
) -> Result<StepStart, Stop>
    ensures { Gives result reader.new (one (t.step_token room all.now) reader.old) }
{
    let token = reader.peek()?;
    let start = step_at(&token);
    reader.take(token.offer(room, all.end.count as u64, start))
}

pub(crate) fn take_steps_end(
    reader: &mut Reader<'_>,
    room: u32,
    all: &Contents,
) -> Result<Option<Place>, Stop>
    ensures { Gives result reader.new (one (t.steps_end room all.now) reader.old) }
{
    let token = reader.peek()?;
    if token.is_cut() {
        return reader.take(Ok(None));
    }
    let cause = if step_at(&token).is_some() {
        UNEXPECTED
    } else {
        token.blame(room, all.end.count as u64)
    };
    let place = known_place(token.place_if(token.is_mark(Punctuator::CloseBracket)));
    reader.take(found_or(cause, place))
}
