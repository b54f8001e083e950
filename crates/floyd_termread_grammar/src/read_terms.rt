//! Readers of terms, formulas, types and paths.
ghost use Rattle.std.specs.Prelude.{◌≤◌, ◌+◌};
ghost use Rattle.floyd_grammar.specs.GivesClauses.{Gives};
ghost use Rattle.floyd_termread_grammar.specs.TermClauses as r;
ghost use Rattle.floyd_termread_grammar.specs.TermClauses.{nested};
ghost use Rattle.floyd_termread_tables.specs.declared.values.Form.TheVariants as form;

use crate::build_terms::{
    atom, bracket_atom, chain_operand, count_in, field_operand, filled, first_item, first_link,
    missing_atom, name_atom, no_items, path_atom, path_operand, plus_item, plus_link, struct_atom,
    subscript_operand, with_prefixes,
};
use crate::read_prefixes::read_prefixes;
use crate::take_terms::{
    leads_empty_end, leads_item, leads_link, leads_step, take_bracket_end, take_call,
    take_empty_end, take_link, take_open, take_operand, take_separator, take_side_end, take_step,
    take_steps_end, take_tag, want_of_next,
};
use crate::values::{Atom, Chain, Contents, Filled, Operand, Prefixes, StepStart};
use floyd_cparse_trees::Identifier;
use floyd_grammar::Stop;
use floyd_lex::Punctuator;
use floyd_termread_tables::{Class, Form, LinkStart, Start, Want, want_behind};
use floyd_termread_tokens::{Reader, inside};
use floyd_termread_trees::{Opening, Word};
use floyd_text::Place;
use std::alloc::Global;

/// What is wanted, with `room` less one brackets left and `count` operators before it.
#[cycle(terms)]
pub fn read_nested(
    alloc: Global,
    reader: &mut Reader<'_>,
    room: u32,
    want: Want,
    count: u32,
) -> Result<Operand, Stop>
    requires { room ≤ 201 }
    ensures { Gives result reader.new (nested room want count reader.old) }
{
    if room == 0 {
        return reader.refuse_without_room(count);
    }
    read_inside(alloc, reader, room - 1, want, count)
}

/// What is wanted, where `room` brackets are left.
#[cycle(terms)]
#[tactic(auto, unfolding(crate::specs::TermClauses::reading))]
fn read_inside(
    alloc: Global,
    reader: &mut Reader<'_>,
    room: u32,
    want: Want,
    count: u32,
) -> Result<Operand, Stop>
    requires { room ≤ 200 }
    ensures { Gives result reader.new (r.reading room (nested room) want count reader.old) }
{
    match want {
        Want::Steps(place) => read_steps(alloc, reader, room, place, count),
        _ => read_chain(alloc, reader, room, want, count),
    }
}

/// Operands with operators between them, to the end.
#[cycle(terms)]
#[tactic(auto, unfolding(crate::specs::TermClauses::chain))]
fn read_chain(
    alloc: Global,
    reader: &mut Reader<'_>,
    room: u32,
    want: Want,
    count: u32,
) -> Result<Operand, Stop>
    requires { room ≤ 200 }
    ensures { Gives result reader.new (r.chain room (nested room) want count reader.old) }
{
    let chain = read_links(alloc, reader, room, want, count)?;
    finish_chain(alloc, reader, room, chain)
}

/// `operand { infix operand }`
#[cycle(terms)]
#[tactic(auto, unfolding(crate::specs::TermClauses::links))]
fn read_links(
    alloc: Global,
    reader: &mut Reader<'_>,
    room: u32,
    want: Want,
    count: u32,
) -> Result<Chain, Stop>
    requires { room ≤ 200 }
    ensures { Gives result reader.new (r.links room (nested room) want count reader.old) }
{
    let first = read_operand(alloc, reader, room, want, count)?;
    let mut chain = first_link(alloc, first);
    'each: while leads_link(reader, &chain) {
        let (start, x) = read_link(alloc, reader, room, &chain)?;
        chain = plus_link(chain, start, x)?;
    }
    Ok(chain)
}

/// An operator and the operand behind it.
#[cycle(terms)]
#[tactic(auto, unfolding(crate::specs::TermClauses::one_link))]
fn read_link(
    alloc: Global,
    reader: &mut Reader<'_>,
    room: u32,
    chain: &Chain,
) -> Result<(LinkStart, Operand), Stop>
    requires { room ≤ 200 }
    ensures { Gives result reader.new (r.one_link room (nested room) chain.now reader.old) }
{
    let start = take_link(reader, room, chain)?;
    let want = want_behind(start.op);
    let x = read_operand(alloc, reader, room, want, chain.end.count + 1)?;
    Ok((start, x))
}

/// The chain, where it is no side of a relation still to come.
#[tactic(auto, unfolding(crate::specs::TermClauses::finish_chain))]
fn finish_chain(
    alloc: Global,
    reader: &mut Reader<'_>,
    room: u32,
    chain: Chain,
) -> Result<Operand, Stop>
    requires { room ≤ 200 }
    ensures { Gives result reader.new (r.finish_chain room (nested room) chain reader.old) }
{
    if chain.end.kind.must_relate() {
        return take_side_end(alloc, reader, room, chain);
    }
    Ok(chain_operand(alloc, chain)?)
}

/// Operators, and what they stand before.
#[cycle(terms)]
#[tactic(auto, unfolding(crate::specs::TermClauses::operand))]
fn read_operand(
    alloc: Global,
    reader: &mut Reader<'_>,
    room: u32,
    want: Want,
    count: u32,
) -> Result<Operand, Stop>
    requires { room ≤ 200 }
    ensures { Gives result reader.new (r.operand room (nested room) want count reader.old) }
{
    let all = read_prefixes(alloc, reader, room, want, count)?;
    let x = read_atom(alloc, reader, room, &all)?;
    Ok(with_prefixes(alloc, all, x)?)
}

/// What stands behind operators.
#[cycle(terms)]
#[tactic(auto, unfolding(crate::specs::TermClauses::one_atom, crate::specs::TermClauses::after_start))]
fn read_atom(
    alloc: Global,
    reader: &mut Reader<'_>,
    room: u32,
    all: &Prefixes,
) -> Result<Atom, Stop>
    requires { room ≤ 200 }
    ensures { Gives result reader.new (r.one_atom room (nested room) all.now reader.old) }
{
    let count = all.count;
    match take_operand(alloc, reader, room, all)? {
        Start::Alone(tree, class) => Ok(atom(tree, class, count)),
        Start::Name(name) => read_name(alloc, reader, room, name, count),
        Start::Open(opening, form, class, place) => {
            let filled = read_bracket(alloc, reader, room, form, count)?;
            Ok(bracket_atom(opening, class, place, filled))
        }
        Start::Word(word, form, class, place) => {
            read_form(
                alloc,
                reader,
                room,
                Formed {
                    word,
                    form,
                    class,
                    place,
                },
                count,
            )
        }
        Start::Path(place) => {
            let path = read_nested(alloc, reader, room, Want::Steps(place), count)?;
            Ok(path_atom(path))
        }
        Start::Struct(place) => {
            let tag = take_tag(alloc, reader, room, count)?;
            Ok(struct_atom(place, count, tag))
        }
    }
}

/// A name, or its call.
#[cycle(terms)]
#[tactic(auto, unfolding(crate::specs::TermClauses::name_or_call, crate::specs::TermClauses::call))]
fn read_name(
    alloc: Global,
    reader: &mut Reader<'_>,
    room: u32,
    name: Identifier,
    count: u32,
) -> Result<Atom, Stop>
    requires { room ≤ 200 }
    ensures { Gives result reader.new (r.name_or_call room (nested room) name count reader.old) }
{
    if !reader.leads_mark(Punctuator::OpenParen) {
        return Ok(name_atom(name, count));
    }
    let open = take_call(reader, room, count)?;
    let all = read_bracket(
        alloc,
        reader,
        room,
        Form::Terms,
        count_in(Class::Term, count),
    )?;
    Ok(bracket_atom(Opening::Call(name), Class::Term, open, all))
}

/// A word that a bracket follows, at its place.
#[derive(Clone, Copy)]
struct Formed {
    word: Word,
    form: Form,
    class: Class,
    place: Place,
}

/// The bracket behind a word.
#[cycle(terms)]
#[tactic(auto, unfolding(crate::specs::TermClauses::form_of, crate::specs::TermClauses::after_open))]
fn read_form(
    alloc: Global,
    reader: &mut Reader<'_>,
    room: u32,
    formed: Formed,
    count: u32,
) -> Result<Atom, Stop>
    requires { room ≤ 200 }
    ensures { Gives result reader.new (r.form_of room (nested room) formed.word formed.form formed.class formed.place count reader.old) }
{
    let Some(open) = take_open(reader, room, count)? else {
        return Ok(missing_atom(count));
    };
    let count = count_in(formed.class, count);
    let all = read_bracket(alloc, reader, room, formed.form, count)?;
    let opening = Opening::Word(formed.word, formed.place);
    Ok(bracket_atom(opening, formed.class, open, all))
}

/// What stands in a bracket, and the closing one.
#[cycle(terms)]
#[tactic(auto, unfolding(crate::specs::TermClauses::bracket, crate::specs::TermClauses::no_contents, crate::specs::TermClauses::some_contents))]
fn read_bracket(
    alloc: Global,
    reader: &mut Reader<'_>,
    room: u32,
    form: Form,
    count: u32,
) -> Result<Filled, Stop>
    requires { room ≤ 200 }
    ensures { Gives result reader.new (r.bracket room (nested room) form count reader.old) }
{
    if leads_empty_end(reader, form) {
        let close = take_empty_end(reader, form)?;
        return Ok(filled(no_items(alloc, count), Some(close)));
    }
    let all = read_contents(alloc, reader, room, form, count)?;
    let close = take_bracket_end(reader, inside(room), form, &all)?;
    Ok(filled(all, close))
}

/// The items of a bracket.
#[cycle(terms)]
#[tactic(auto, unfolding(crate::specs::TermClauses::contents))]
fn read_contents(
    alloc: Global,
    reader: &mut Reader<'_>,
    room: u32,
    form: Form,
    count: u32,
) -> Result<Contents, Stop>
    requires { room ≤ 200 }
    ensures { Gives result reader.new (r.contents room (nested room) form count reader.old) }
{
    let first = read_nested(alloc, reader, room, form.first_want(), count)?;
    let mut all = first_item(alloc, first)?;
    'each: while leads_item(reader, form, &all) {
        let next = read_item(alloc, reader, room, form, &all)?;
        all = plus_item(all, next)?;
    }
    Ok(all)
}

#[cycle(terms)]
fn read_item(
    alloc: Global,
    reader: &mut Reader<'_>,
    room: u32,
    form: Form,
    all: &Contents,
) -> Result<Operand, Stop>
    requires { room ≤ 200 }
    ensures { Gives result reader.new (r.next_item room (nested room) form all.now reader.old) }
{
    take_separator(reader, form, all)?;
    let want = want_of_next(form, all);
    read_nested(alloc, reader, room, want, all.end.count)
}

/// The steps of a path, and its closing bracket.
#[cycle(terms)]
#[tactic(auto, unfolding(crate::specs::TermClauses::steps))]
fn read_steps(
    alloc: Global,
    reader: &mut Reader<'_>,
    room: u32,
    place: Place,
    count: u32,
) -> Result<Operand, Stop>
    requires { room ≤ 200 }
    ensures { Gives result reader.new (r.steps room (nested room) place count reader.old) }
{
    let all = read_step_list(alloc, reader, room, count)?;
    let close = take_steps_end(reader, room, &all)?;
    Ok(path_operand(place, all, close))
}

#[cycle(terms)]
#[tactic(auto, unfolding(crate::specs::TermClauses::step_list))]
fn read_step_list(
    alloc: Global,
    reader: &mut Reader<'_>,
    room: u32,
    count: u32,
) -> Result<Contents, Stop>
    requires { room ≤ 200 }
    ensures { Gives result reader.new (r.step_list room (nested room) count reader.old) }
{
    let mut all = no_items(alloc, count);
    'each: while leads_step(reader) {
        let next = read_step(alloc, reader, room, &all)?;
        all = plus_item(all, next)?;
    }
    Ok(all)
}

/// `"." name | "[" term "]"`
#[cycle(terms)]
#[tactic(auto, unfolding(crate::specs::TermClauses::one_step, crate::specs::TermClauses::after_step))]
fn read_step(
    alloc: Global,
    reader: &mut Reader<'_>,
    room: u32,
    all: &Contents,
) -> Result<Operand, Stop>
    requires { room ≤ 200 }
    ensures { Gives result reader.new (r.one_step room (nested room) all.now reader.old) }
{
    let count = all.end.count;
    match take_step(reader, room, all)? {
        StepStart::Dot(place) => {
            let name = take_tag(alloc, reader, room, count)?;
            Ok(field_operand(place, count, name))
        }
        StepStart::Open(place) => {
            let subscript = read_bracket(alloc, reader, room, Form::Subscript, count)?;
            Ok(subscript_operand(place, subscript))
        }
    }
}
