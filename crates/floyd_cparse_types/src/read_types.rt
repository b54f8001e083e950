//! Readers of specifiers and declarators.
ghost use Rattle.std.specs.Prelude.{◌≡◌, ◌<◌, ◌^◌, ◌≤◌, ◌+◌, IfOk, length, None, false};
ghost use Rattle.floyd_cparse_types.specs.Types as t;
ghost use Rattle.floyd_cparse_types.specs.TypeClauses as r;
ghost use Rattle.floyd_cparse_types.specs.TypeClauses.{within};
ghost use Rattle.floyd_cparse_types.specs.declared.values.SuffixStart.TheVariants as suffix_start;
ghost use Rattle.floyd_grammar.specs.GivesClauses.{Gives};

use crate::take_types::{
    take_base_start, take_brace_end, take_comma, take_const, take_core, take_field_end,
    take_fields_open, take_inner_end, take_no_parameters_end, take_parameter_comma,
    take_parameters_end, take_size, take_size_end, take_star, take_suffix, take_tag, take_word,
};
use crate::type_tokens::{leads_core, leads_more, leads_suffix};
use crate::values::{
    BaseStart, CoreStart, DeclaratorEnd, Declarators, Declared, IntWords, Parameters, ReadBase,
    ReadDeclarator, ReadSpecifiers, SizeStart, SuffixStart, Tag,
};
use floyd_cparse_tokens::{Reader, TypeNames, inside};
use floyd_cparse_trees::{Base, Declarator, FieldDeclaration, Parameter, Specifiers, Star};
use floyd_grammar::Stop;
use floyd_lex::{Keyword, Punctuator};
use floyd_text::Place;
use sqlite_items::{Boxed, Items};
use std::alloc::{AllocError, Global};

/// `{"const"}`
#[tactic(auto, unfolding(crate::specs::TypeClauses::consts))]
fn read_consts(reader: &mut Reader<'_>, room: u32, count: u64) -> Result<Option<Place>, Stop>
    requires { count < 2 ^ 40 }
    ensures { Gives result reader.new (r.consts room count None reader.old) }
{
    let mut first = None;
    'each: while reader.leads_word(Keyword::Const) {
        first = keep_first(first, take_const(reader, room, count)?);
    }
    Ok(first)
}

fn keep_first(first: Option<Place>, place: Place) -> Option<Place>
    ensures { result ≡ t.keep_first first place }
{
    match first {
        Some(first) => Some(first),
        None => Some(place),
    }
}

#[tactic(auto, unfolding(crate::specs::TypeClauses::int_words))]
fn read_int_words(
    reader: &mut Reader<'_>,
    room: u32,
    count: u64,
    first: IntWords,
) -> Result<IntWords, Stop>
    requires { count < 2 ^ 40 }
    ensures { Gives result reader.new (r.int_words room count first reader.old) }
{
    let mut words = first;
    'each: while leads_more(reader, words) {
        words = take_word(reader, room, count, words)?;
    }
    Ok(words)
}

/// `"*" {"const"}`
#[tactic(auto, unfolding(crate::specs::TypeClauses::star))]
fn read_star(reader: &mut Reader<'_>, room: u32, count: u64) -> Result<Star, Stop>
    requires { count < 2 ^ 34 }
    ensures value { Gives result reader.new (r.star room count reader.old) }
    ensures room { IfOk result (λ _. count ≤ room + 1) }
{
    let place = take_star(reader, room, count)?;
    let constant = read_consts(reader, room, count + 1)?;
    Ok(Star { place, constant })
}

/// `{"*" {"const"}}`
#[tactic(auto, unfolding(crate::specs::TypeClauses::stars))]
fn read_stars(
    alloc: Global,
    reader: &mut Reader<'_>,
    room: u32,
    count: u32,
) -> Result<Items<Star>, Stop>
    ensures value { Gives result reader.new (r.stars room count reader.old) }
    ensures room { IfOk result (λ all. length all ≤ room + 2) }
{
    let mut all = Items::new(alloc);
    'each: while reader.leads_mark(Punctuator::Star) {
        let star = read_star(reader, room, count as u64 + all.len() as u64)?;
        all.push(star)?;
    }
    Ok(all)
}

/// `{"const"} base {"const"}`
#[cycle(declarators)]
pub fn read_specs(
    alloc: Global,
    reader: &mut Reader<'_>,
    types: &TypeNames,
    room: u32,
    count: u32,
) -> Result<ReadSpecifiers, Stop>
    requires { room ≤ 201 }
    ensures { Gives result reader.new ((within types.now room).specs count reader.old) }
{
    if room == 0 {
        return reader.refuse_without_room(count);
    }
    read_specs_inside(alloc, reader, types, room - 1, count)
}

#[cycle(declarators)]
#[tactic(auto, unfolding(crate::specs::TypeClauses::specs))]
fn read_specs_inside(
    alloc: Global,
    reader: &mut Reader<'_>,
    types: &TypeNames,
    room: u32,
    count: u32,
) -> Result<ReadSpecifiers, Stop>
    requires { room ≤ 200 }
    ensures { Gives result reader.new (r.specs types.now room (within types.now room) count reader.old) }
{
    let before = read_consts(reader, room, count as u64)?;
    let base = read_base(alloc, reader, types, room, count)?;
    let behind = read_consts(reader, room, count as u64)?;
    Ok(specifiers_of(base, before, behind))
}

fn specifiers_of(base: ReadBase, before: Option<Place>, behind: Option<Place>) -> ReadSpecifiers
    ensures { result ≡ t.specifiers_of base before behind }
{
    match (before, behind) {
        (None, None) => specifiers_with(base.tree, None, base.words),
        (Some(before), None) => specifiers_with(base.tree, Some(before), base.words),
        (None, Some(behind)) => specifiers_with(base.tree, Some(behind), None),
        (Some(before), Some(_)) => specifiers_with(base.tree, Some(before), None),
    }
}

fn specifiers_with(base: Base, constant: Option<Place>, words: Option<IntWords>) -> ReadSpecifiers
    ensures { result ≡ record { tree = record { constant = constant; base = base }; words = words } }
{
    ReadSpecifiers {
        tree: Specifiers { constant, base },
        words,
    }
}

#[cycle(declarators)]
#[tactic(auto, unfolding(crate::specs::TypeClauses::base, crate::specs::TypeClauses::after_base_start, crate::specs::TypeClauses::after_tag))]
fn read_base(
    alloc: Global,
    reader: &mut Reader<'_>,
    types: &TypeNames,
    room: u32,
    count: u32,
) -> Result<ReadBase, Stop>
    requires { room ≤ 200 }
    ensures { Gives result reader.new (r.base types.now room (within types.now room) count reader.old) }
{
    match take_base_start(alloc, reader, types, room, count as u64)? {
        BaseStart::Void => Ok(wordless(Base::Void)),
        BaseStart::Typedef(name) => Ok(wordless(Base::Typedef(name))),
        BaseStart::Word(first) => {
            let words = read_int_words(reader, room, count as u64, first)?;
            Ok(ReadBase {
                tree: Base::Int(words.kind()),
                words: Some(words),
            })
        }
        BaseStart::Struct => match take_tag(alloc, reader, types, room, count as u64)? {
            Tag::Alone(name) => Ok(wordless(Base::Struct(name))),
            Tag::WithFields(name) => {
                take_fields_open(reader, types, room, count as u64)?;
                let all = read_fields(alloc, reader, types, room)?;
                Ok(wordless(Base::StructWith(name, all)))
            }
        },
    }
}

fn wordless(tree: Base) -> ReadBase
    ensures { result ≡ record { tree = tree; words = None } }
{
    ReadBase { tree, words: None }
}

/// The fields of a struct, at least one, and `}`.
#[cycle(declarators)]
#[tactic(auto, unfolding(crate::specs::TypeClauses::fields, crate::specs::TypeClauses::field_list))]
fn read_fields(
    alloc: Global,
    reader: &mut Reader<'_>,
    types: &TypeNames,
    room: u32,
) -> Result<Items<FieldDeclaration>, Stop>
    requires { room ≤ 200 }
    ensures { Gives result reader.new (r.fields types.now room (within types.now room) reader.old) }
{
    let first = read_field(alloc, reader, types, room)?;
    let mut all = Items::new(alloc);
    all.push(first)?;
    'each: while reader.leads_other(Punctuator::CloseBrace) {
        let next = read_field(alloc, reader, types, room)?;
        all.push(next)?;
    }
    take_brace_end(reader)?;
    Ok(all)
}

/// `specs dtor {"," dtor} ";"`
#[cycle(declarators)]
#[tactic(auto, unfolding(crate::specs::TypeClauses::field))]
fn read_field(
    alloc: Global,
    reader: &mut Reader<'_>,
    types: &TypeNames,
    room: u32,
) -> Result<FieldDeclaration, Stop>
    requires { room ≤ 200 }
    ensures { Gives result reader.new (r.field types.now room (within types.now room) reader.old) }
{
    let specifiers = read_specs(alloc, reader, types, room, 0)?;
    let all = read_field_declarators(alloc, reader, types, room)?;
    take_field_end(reader, types, inside(room), all.end)?;
    Ok(FieldDeclaration {
        specifiers: specifiers.tree,
        declarators: all.items,
    })
}

/// `dtor {"," dtor}`
#[cycle(declarators)]
#[tactic(auto, unfolding(crate::specs::TypeClauses::field_declarators))]
fn read_field_declarators(
    alloc: Global,
    reader: &mut Reader<'_>,
    types: &TypeNames,
    room: u32,
) -> Result<Declarators, Stop>
    requires { room ≤ 200 }
    ensures { Gives result reader.new (r.field_declarators types.now room (within types.now room) reader.old) }
{
    let first = read_dtor(alloc, reader, types, Declared::Field, room, 0)?;
    let mut all = first_declarator(alloc, first)?;
    'each: while reader.leads_mark(Punctuator::Comma) {
        take_comma(reader)?;
        let next = read_dtor(alloc, reader, types, Declared::Field, room, 0)?;
        all = plus_declarator(all, next)?;
    }
    Ok(all)
}

fn first_declarator(alloc: Global, first: ReadDeclarator) -> Result<Declarators, AllocError>
    ensures { IfOk result (λ x. x ≡ t.first_declarator first) }
{
    let mut items = Items::new(alloc);
    items.push(first.tree)?;
    Ok(Declarators {
        items,
        end: first.end,
    })
}

fn plus_declarator(all: Declarators, next: ReadDeclarator) -> Result<Declarators, AllocError>
    ensures { IfOk result (λ x. x ≡ t.plus_declarator all next) }
{
    let mut items = all.items;
    items.push(next.tree)?;
    Ok(Declarators {
        items,
        end: next.end,
    })
}

/// `{"*" {"const"}} core`, and what stands behind it.
#[cycle(declarators)]
pub fn read_dtor(
    alloc: Global,
    reader: &mut Reader<'_>,
    types: &TypeNames,
    declared: Declared,
    room: u32,
    count: u32,
) -> Result<ReadDeclarator, Stop>
    requires { room ≤ 201 }
    ensures { Gives result reader.new ((within types.now room).dtor declared count reader.old) }
{
    if room == 0 {
        return reader.refuse_without_room(count);
    }
    read_dtor_inside(alloc, reader, types, declared, room - 1, count)
}

#[cycle(declarators)]
#[tactic(auto, unfolding(crate::specs::TypeClauses::dtor))]
fn read_dtor_inside(
    alloc: Global,
    reader: &mut Reader<'_>,
    types: &TypeNames,
    declared: Declared,
    room: u32,
    count: u32,
) -> Result<ReadDeclarator, Stop>
    requires { room ≤ 200 }
    ensures { Gives result reader.new (r.dtor types.now room (within types.now room) declared count reader.old) }
{
    let before = read_stars(alloc, reader, room, count)?;
    let end = DeclaratorEnd {
        count,
        stars: before.len() as u32,
        bare: true,
    };
    let first = read_core(alloc, reader, types, declared, room, end)?;
    let all = read_suffixes(alloc, reader, types, declared, room, first)?;
    Ok(ReadDeclarator {
        tree: with_stars(alloc, before, all.tree)?,
        name: all.name,
        end: all.end,
    })
}

fn with_stars(alloc: Global, stars: Items<Star>, core: Declarator) -> Result<Declarator, AllocError>
    ensures { IfOk result (λ x. x ≡ t.with_stars stars core) }
{
    if stars.is_empty() {
        Ok(core)
    } else {
        Ok(Declarator::Pointer {
            stars,
            inner: Boxed::new(alloc, core)?,
        })
    }
}

/// A name or a declarator in parentheses, where there is one, behind stars that end so.
#[cycle(declarators)]
#[tactic(auto, unfolding(crate::specs::TypeClauses::core, crate::specs::TypeClauses::core_by, crate::specs::TypeClauses::present, crate::specs::TypeClauses::after_core))]
fn read_core(
    alloc: Global,
    reader: &mut Reader<'_>,
    types: &TypeNames,
    declared: Declared,
    room: u32,
    end: DeclaratorEnd,
) -> Result<ReadDeclarator, Stop>
    requires { room ≤ 200 }
    ensures { Gives result reader.new (r.core types.now room (within types.now room) declared end.count end.stars reader.old) }
{
    if !declared.is_named() && !leads_core(reader, types, declared) {
        return Ok(absent(end.count, end.stars));
    }
    match take_core(alloc, reader, types, declared, room, end)? {
        CoreStart::Name(name) => Ok(ReadDeclarator {
            name: Some(name.name.share()?),
            tree: Declarator::Name(name),
            end: closed_end(end.count),
        }),
        CoreStart::Open(place) => {
            let inner = read_dtor(alloc, reader, types, declared, room, end.count)?;
            take_inner_end(reader, types, declared, inside(room), inner.end)?;
            Ok(ReadDeclarator {
                tree: Declarator::Parenthesised {
                    place,
                    inner: Boxed::new(alloc, inner.tree)?,
                },
                name: inner.name,
                end: closed_end(inner.end.count),
            })
        }
    }
}

fn absent(count: u32, stars: u32) -> ReadDeclarator
    ensures { result ≡ t.absent count stars }
{
    ReadDeclarator {
        tree: Declarator::Absent,
        name: None,
        end: DeclaratorEnd {
            count,
            stars,
            bare: true,
        },
    }
}

fn closed_end(count: u32) -> DeclaratorEnd
    ensures { result ≡ record { count = count; stars = 0; bare = false } }
{
    DeclaratorEnd {
        count,
        stars: 0,
        bare: false,
    }
}

/// The parts behind a declarator.
#[cycle(declarators)]
fn read_suffixes(
    alloc: Global,
    reader: &mut Reader<'_>,
    types: &TypeNames,
    declared: Declared,
    room: u32,
    first: ReadDeclarator,
) -> Result<ReadDeclarator, Stop>
    requires { room ≤ 200 }
    ensures { Gives result reader.new (r.suffixes types.now room (within types.now room) declared first reader.old) }
{
    let mut all = first;
    'each: while leads_suffix(reader, types, &all) {
        all = read_suffix(alloc, reader, types, declared, room, all)?;
    }
    Ok(all)
}

/// `"[" [literal] "]"` or `"(" [params] ")"` behind a declarator.
#[cycle(declarators)]
#[tactic(auto, unfolding(crate::specs::TypeClauses::suffix, crate::specs::TypeClauses::after_suffix))]
fn read_suffix(
    alloc: Global,
    reader: &mut Reader<'_>,
    types: &TypeNames,
    declared: Declared,
    room: u32,
    declarator: ReadDeclarator,
) -> Result<ReadDeclarator, Stop>
    requires { room ≤ 200 }
    ensures { Gives result reader.new (r.suffix types.now room (within types.now room) declared declarator reader.old) }
{
    match take_suffix(reader, types, declared, room, declarator.end)? {
        SuffixStart::Array(place) => read_array(alloc, reader, types, room, declarator, place),
        SuffixStart::Function(place) => {
            let all = read_parameters(alloc, reader, types, room, declarator.end.count + 1)?;
            Ok(ReadDeclarator {
                tree: Declarator::Function {
                    inner: Boxed::new(alloc, declarator.tree)?,
                    place,
                    parameters: all.items,
                },
                name: declarator.name,
                end: closed_end(all.end.count),
            })
        }
    }
}

/// `[literal] "]"` behind a declarator and `[`.
#[tactic(auto, unfolding(crate::specs::TypeClauses::after_suffix, crate::specs::TypeClauses::after_size))]
fn read_array(
    alloc: Global,
    reader: &mut Reader<'_>,
    types: &TypeNames,
    room: u32,
    declarator: ReadDeclarator,
    place: Place,
) -> Result<ReadDeclarator, Stop>
    requires { declarator.end.count ≤ 1000 }
    ensures { Gives result reader.new (r.after_suffix types.now room (within types.now room) declarator (suffix_start.Array place) reader.old) }
{
    let inner = inside(room);
    let count = declarator.end.count + 1;
    let size = match take_size(reader, types, inner, count)? {
        SizeStart::End => None,
        SizeStart::Size(literal) => {
            take_size_end(reader, types, inner, count)?;
            Some(literal)
        }
    };
    Ok(ReadDeclarator {
        tree: Declarator::Array {
            inner: Boxed::new(alloc, declarator.tree)?,
            place,
            size,
        },
        name: declarator.name,
        end: closed_end(count),
    })
}

/// `[params] ")"`
#[cycle(declarators)]
#[tactic(auto, unfolding(crate::specs::TypeClauses::params, crate::specs::TypeClauses::empty_parameters, crate::specs::TypeClauses::parameter_list))]
fn read_parameters(
    alloc: Global,
    reader: &mut Reader<'_>,
    types: &TypeNames,
    room: u32,
    count: u32,
) -> Result<Parameters, Stop>
    requires { room ≤ 200 }
    ensures { Gives result reader.new (r.params types.now room (within types.now room) count reader.old) }
{
    if reader.leads_mark(Punctuator::CloseParen) {
        take_no_parameters_end(reader)?;
        return Ok(Parameters {
            items: Items::new(alloc),
            end: closed_end(count),
        });
    }
    let all = read_some_parameters(alloc, reader, types, room, count)?;
    take_parameters_end(reader, types, inside(room), all.end)?;
    Ok(Parameters {
        items: without_void(alloc, all.items),
        end: all.end,
    })
}

/// `specs pdtor {"," specs pdtor}`
#[cycle(declarators)]
#[tactic(auto, unfolding(crate::specs::TypeClauses::parameters))]
fn read_some_parameters(
    alloc: Global,
    reader: &mut Reader<'_>,
    types: &TypeNames,
    room: u32,
    count: u32,
) -> Result<Parameters, Stop>
    requires { room ≤ 200 }
    ensures { Gives result reader.new (r.parameters types.now room (within types.now room) count reader.old) }
{
    let mut all = read_parameter(alloc, reader, types, room, count)?;
    'each: while reader.leads_mark(Punctuator::Comma) {
        take_parameter_comma(reader, inside(room), all.end)?;
        let next = read_parameter(alloc, reader, types, room, all.end.count)?;
        all = plus_parameter(all, next)?;
    }
    Ok(all)
}

#[cycle(declarators)]
#[tactic(auto, unfolding(crate::specs::TypeClauses::parameter))]
fn read_parameter(
    alloc: Global,
    reader: &mut Reader<'_>,
    types: &TypeNames,
    room: u32,
    count: u32,
) -> Result<Parameters, Stop>
    requires { room ≤ 200 }
    ensures { Gives result reader.new (r.parameter types.now room (within types.now room) count reader.old) }
{
    let specifiers = read_specs(alloc, reader, types, room, count)?;
    let declarator = read_dtor(alloc, reader, types, Declared::Parameter, room, count)?;
    let end = declarator.end;
    let mut items = Items::new(alloc);
    items.push(Parameter {
        specifiers: specifiers.tree,
        declarator: declarator.tree,
    })?;
    Ok(Parameters { items, end })
}

fn plus_parameter(all: Parameters, next: Parameters) -> Result<Parameters, AllocError>
    ensures { IfOk result (λ x. x ≡ t.plus_parameter all next) }
{
    let mut items = all.items;
    items.append(next.items)?;
    Ok(Parameters {
        items,
        end: next.end,
    })
}

/// Without a `void` that stands alone.
fn without_void(alloc: Global, parameters: Items<Parameter>) -> Items<Parameter>
    ensures { result ≡ t.without_void parameters }
{
    let alone = match parameters.as_slice() {
        [only] => is_void_alone(only),
        _ => false,
    };
    if alone { Items::new(alloc) } else { parameters }
}

fn is_void_alone(parameter: &Parameter) -> bool
    ensures { result ≡ t.is_void_alone parameter.now }
{
    match (&parameter.specifiers.base, &parameter.declarator) {
        (Base::Void, Declarator::Absent) => parameter.specifiers.constant.is_none(),
        _ => false,
    }
}
