//! What is found in a token where a type is read.
ghost use Rattle.std.specs.Prelude.{◌≡◌, ◌<◌, ◌≤◌, ◌+◌, ◌&&◌, ◌||◌, not, IfOk};
ghost use Rattle.floyd_cparse_types.specs.Types as t;
ghost use Rattle.floyd_lex.specs.declared.kinds.Punctuator.TheVariants as p;
ghost use Rattle.floyd_cparse_tokens.specs.Tokens.{is_there, is_mark, is_literal_token};
ghost use Rattle.floyd_cparse_types.specs.TypeClauses as r;
ghost use Rattle.floyd_grammar.specs.ParseClauses.{leads};

use crate::values::{
    BaseStart, CoreStart, DeclaratorEnd, Declared, IntWords, ReadDeclarator, SuffixStart, Tag,
};
use floyd_cparse_tokens::{LEFT_OUT, Reader, SHADOWED, Sight, TypeNames, UNEXPECTED};
use floyd_cparse_trees::Identifier;
use floyd_lex::{Keyword, Punctuator};
use std::alloc::{AllocError, Global};

impl Declared {
    pub fn is_parameter(self) -> bool
        ensures { result ≡ t.is_parameter self }
    {
        match self {
            Declared::Parameter => true,
            _ => false,
        }
    }

    /// It must have a name.
    pub fn is_named(self) -> bool
        ensures { result ≡ t.is_named self }
    {
        match self {
            Declared::Object | Declared::Type | Declared::Field => true,
            Declared::Parameter | Declared::Nothing => false,
        }
    }
}

pub(crate) fn base_start(
    alloc: Global,
    sight: &Sight<'_>,
    types: &TypeNames,
) -> Result<Option<BaseStart>, AllocError>
    ensures { IfOk result (λ x. x ≡ t.start_of_base types.now sight.now) }
{
    if sight.is_word(Keyword::Void) {
        Ok(Some(BaseStart::Void))
    } else if sight.is_word(Keyword::Struct) {
        Ok(Some(BaseStart::Struct))
    } else if sight.is_type(types) {
        Ok(Some(BaseStart::Typedef(sight.identifier(alloc)?)))
    } else {
        match IntWords::new().with(sight) {
            Some(words) => Ok(Some(BaseStart::Word(words))),
            None => Ok(None),
        }
    }
}

pub(crate) fn tag(alloc: Global, sight: &Sight<'_>) -> Result<Option<Tag>, AllocError>
    ensures { IfOk result (λ x. x ≡ t.tag_of sight.now) }
{
    if !sight.is_name() {
        return Ok(None);
    }
    let name = sight.identifier(alloc)?;
    if sight.precedes(Punctuator::OpenBrace) {
        Ok(Some(Tag::WithFields(name)))
    } else {
        Ok(Some(Tag::Alone(name)))
    }
}

fn is_literal(sight: &Sight<'_>) -> bool
    ensures { result ≡ is_literal_token sight.now.token }
{
    sight.literal().is_some()
}

/// `]` or a literal and `]` stand behind it, or the file ends there.
fn precedes_size(sight: &Sight<'_>, declared: Declared) -> bool
    ensures { result ≡ t.has_size declared sight.now.behind }
{
    let Some(first) = sight.next() else {
        return declared.is_parameter();
    };
    let closes = match first.next() {
        Some(second) => second.is_mark(Punctuator::CloseBracket),
        None => true,
    };
    (is_literal(&first) && closes)
        || (declared.is_parameter() && first.is_mark(Punctuator::CloseBracket))
}

/// What opens a parameter list stands behind it.
fn precedes_parameters(sight: &Sight<'_>, types: &TypeNames) -> bool
    ensures { result ≡ t.opens_parameters types.now sight.now.behind }
{
    match sight.next() {
        Some(next) => next.is_mark(Punctuator::CloseParen) || next.begins_type(types),
        None => false,
    }
}

pub(crate) fn may_precede(sight: &Sight<'_>, stars: u32) -> bool
    ensures { result ≡ t.may_precede stars sight.now }
{
    sight.is_mark(Punctuator::Star)
        || sight.is_word(Keyword::Const)
        || (stars < 1 && sight.is_integer_word())
}

/// It may go on with a declarator that ends so.
fn goes_on_declarator(sight: &Sight<'_>, declared: Declared, end: DeclaratorEnd) -> bool
    ensures { result ≡ t.goes_on_declarator declared end sight.now }
{
    sight.is_mark(Punctuator::OpenBracket)
        || sight.is_mark(Punctuator::OpenParen)
        || (end.bare
            && (may_precede(sight, end.stars) || (declared.is_parameter() && sight.is_name())))
}

/// For what it is refused directly behind a declarator that ends so.
pub fn after_declarator(
    sight: &Sight<'_>,
    types: &TypeNames,
    declared: Declared,
    room: u32,
    end: DeclaratorEnd,
    special: u8,
) -> u8
    ensures { result ≡ t.after_declarator types.now declared room end special sight.now }
{
    if goes_on_declarator(sight, declared, end) {
        UNEXPECTED
    } else {
        sight.blame(types, room, end.count as u64 + end.stars as u64, special)
    }
}

fn is_name_declared(sight: &Sight<'_>, types: &TypeNames, declared: Declared) -> bool
    ensures { result ≡ is_there (t.name_declared types.now declared sight.now) }
{
    match declared {
        Declared::Object | Declared::Parameter => sight.is_plain(types),
        Declared::Type | Declared::Field => sight.is_name(),
        Declared::Nothing => false,
    }
}

fn name_declared(
    alloc: Global,
    sight: &Sight<'_>,
    types: &TypeNames,
    declared: Declared,
) -> Result<Option<Identifier>, AllocError>
    ensures { IfOk result (λ x. x ≡ t.name_declared types.now declared sight.now) }
{
    if is_name_declared(sight, types, declared) {
        Ok(Some(sight.identifier(alloc)?))
    } else {
        Ok(None)
    }
}

pub(crate) fn is_shadowed(sight: &Sight<'_>, types: &TypeNames, declared: Declared) -> bool
    ensures { result ≡ t.is_shadowed types.now declared sight.now }
{
    match declared {
        Declared::Object | Declared::Parameter => sight.is_type(types),
        _ => false,
    }
}

fn opens_core(sight: &Sight<'_>, types: &TypeNames, declared: Declared) -> bool
    ensures { result ≡ (is_mark p.OpenParen sight.now && (t.is_named declared || not (t.opens_parameters types.now sight.now.behind))) }
{
    sight.is_mark(Punctuator::OpenParen)
        && (declared.is_named() || !precedes_parameters(sight, types))
}

pub(crate) fn core_start(
    alloc: Global,
    sight: &Sight<'_>,
    types: &TypeNames,
    declared: Declared,
) -> Result<Option<CoreStart>, AllocError>
    ensures { IfOk result (λ x. x ≡ t.start_of_core types.now declared sight.now) }
{
    if opens_core(sight, types, declared) {
        return Ok(Some(CoreStart::Open(sight.place())));
    }
    match name_declared(alloc, sight, types, declared)? {
        Some(name) => Ok(Some(CoreStart::Name(name))),
        None => Ok(None),
    }
}

fn begins_core(sight: &Sight<'_>, types: &TypeNames, declared: Declared) -> bool
    ensures { result ≡ r.begins_core types.now declared sight.now }
{
    opens_core(sight, types, declared)
        || is_name_declared(sight, types, declared)
        || is_shadowed(sight, types, declared)
}

pub(crate) fn shadow_cause(sight: &Sight<'_>, types: &TypeNames, declared: Declared) -> u8
    ensures { result ≡ t.shadow_cause types.now declared sight.now }
{
    if is_shadowed(sight, types, declared) {
        SHADOWED
    } else {
        UNEXPECTED
    }
}

/// It opens the parameters of a declarator that ends so.
fn opens_function(sight: &Sight<'_>, types: &TypeNames, end: DeclaratorEnd) -> bool
    ensures { result ≡ (is_mark p.OpenParen sight.now && not (end.bare && not (t.opens_parameters types.now sight.now.behind))) }
{
    sight.is_mark(Punctuator::OpenParen) && !(end.bare && !precedes_parameters(sight, types))
}

fn begins_suffix(sight: &Sight<'_>, types: &TypeNames, end: DeclaratorEnd) -> bool
    ensures { result ≡ (is_mark p.OpenBracket sight.now || (is_mark p.OpenParen sight.now && not (end.bare && not (t.opens_parameters types.now sight.now.behind)))) }
{
    sight.is_mark(Punctuator::OpenBracket) || opens_function(sight, types, end)
}

pub(crate) fn suffix_start(
    sight: &Sight<'_>,
    types: &TypeNames,
    declared: Declared,
    room: u32,
    end: DeclaratorEnd,
) -> Result<SuffixStart, u8>
    ensures value { result ≡ t.suffix_token types.now declared room end sight.now }
    ensures room { IfOk result (λ _. end.count + end.stars ≤ room + 1) }
{
    let count = end.count as u64 + end.stars as u64;
    if opens_function(sight, types, end) {
        return sight.offer(room, count, Some(SuffixStart::Function(sight.place())));
    }
    if !sight.is_mark(Punctuator::OpenBracket) {
        return Err(UNEXPECTED);
    }
    if precedes_size(sight, declared) || sight.is_deep(room, count) {
        sight.offer(room, count, Some(SuffixStart::Array(sight.place())))
    } else {
        Err(LEFT_OUT)
    }
}

/// A core stands next that need not stand there.
pub(crate) fn leads_core(reader: &Reader<'_>, types: &TypeNames, declared: Declared) -> bool
    ensures { result ≡ leads (r.begins_core types.now declared) reader.now }
{
    match reader.peek() {
        Ok(sight) => begins_core(&sight, types, declared),
        Err(_) => false,
    }
}

/// A word stands next that may stand beside these.
pub(crate) fn leads_more(reader: &Reader<'_>, words: IntWords) -> bool
    ensures { result ≡ leads (λ s. is_there (t.with_word s.token.kind words)) reader.now }
{
    match reader.peek() {
        Ok(sight) => words.with(&sight).is_some(),
        Err(_) => false,
    }
}

/// A part behind the declarator stands next.
pub(crate) fn leads_suffix(
    reader: &Reader<'_>,
    types: &TypeNames,
    declarator: &ReadDeclarator,
) -> bool
    ensures { result ≡ leads (r.begins_suffix types.now declarator.now) reader.now }
{
    match reader.peek() {
        Ok(sight) => begins_suffix(&sight, types, declarator.end),
        Err(_) => false,
    }
}
