//! Terms and types that stand alone.
ghost use Rattle.std.specs.Prelude.{◌≡◌, ◌<◌, ◌^◌, [], IfOk};
ghost use Rattle.std.specs.Option.{option_copied};
ghost use Rattle.floyd_tree_sorts.specs.Table.{arrays};
ghost use Rattle.floyd_termread_scope.specs.Scopes.{env};
ghost use Rattle.floyd_termread_wants.specs.Judging.{Judges};
ghost use Rattle.floyd_termread_brackets.specs.Leaves as specs;

use floyd_cparse_trees::Identifier;
use floyd_termread_scope::{Scope, Variables};
use floyd_termread_trees::{TermWord, TypeWord, Word};
use floyd_termread_wants::{JudgeStop, Wanted, ill_sorted, place_term, unknown};
use floyd_text::{Place, Shared};
use floyd_tree::{AType, Head, Shape, Sort, Term};
use sqlite_items::Items;
use std::alloc::{AllocError, Global};

fn number(minus: bool, n: u128) -> i128
    requires { n < 2 ^ 126 }
    ensures { result ≡ specs.number minus n }
{
    if minus { -(n as i128) } else { n as i128 }
}

fn literal(
    alloc: Global,
    wanted: &Wanted,
    place: Place,
    minus: bool,
    n: u128,
) -> Result<Term, JudgeStop>
    ensures exact { Judges (λ t. t) result (specs.literal wanted.now place minus n) }
{
    if n >= 1 << 126 {
        return Err(JudgeStop::CutOff);
    }
    place_term(alloc, wanted, place, Head::Literal(number(minus, n)), &[])
}

/// A number begins at its minus.
pub fn number_place(minus: Option<Place>, place: Place) -> Place
    ensures { result ≡ specs.number_place minus place }
{
    match minus {
        Some(minus) => minus,
        None => place,
    }
}

/// A number, with the place of a minus directly before it.
pub fn literal_term(
    alloc: Global,
    wanted: &Wanted,
    minus: Option<Place>,
    n: u128,
    place: Place,
) -> Result<Term, JudgeStop>
    ensures exact { Judges (λ t. t) result (specs.signed_literal minus n place wanted.now) }
{
    literal(
        alloc,
        wanted,
        number_place(minus, place),
        minus.is_some(),
        n,
    )
}

fn variable_of(
    alloc: Global,
    wanted: &Wanted,
    i: &Identifier,
    sort: Option<&Sort>,
) -> Result<Term, JudgeStop>
    ensures exact { Judges (λ t. t) result (specs.variable_of wanted.now i.now (option_copied sort.entry)) }
{
    let Some(sort) = sort else {
        return Err(JudgeStop::Refused(unknown(i)?));
    };
    let head = Head::Variable(i.name.share()?, sort.share()?);
    place_term(alloc, wanted, i.place, head, &[])
}

/// A variable, which must be there.
pub fn variable(
    alloc: Global,
    scope: &Scope<'_>,
    bound: &Variables,
    wanted: &Wanted,
    i: &Identifier,
) -> Result<Term, JudgeStop>
    ensures exact { Judges (λ t. t) result (specs.variable (env scope.now bound.now) wanted.now i.now) }
{
    variable_of(alloc, wanted, i, scope.sort_of(bound, &i.name))
}

fn expected_list(wanted: &Wanted) -> Result<Option<Sort>, AllocError>
    ensures { IfOk result (λ s. s ≡ specs.expected_list wanted.now) }
{
    match wanted.expected()? {
        Some(sort) => sort.item(),
        None => Ok(None),
    }
}

fn expected_tree(wanted: &Wanted) -> Result<Option<Sort>, AllocError>
    ensures { IfOk result (λ s. s ≡ specs.expected_tree wanted.now) }
{
    match wanted.expected()? {
        Some(sort) => sort.node_item(),
        None => Ok(None),
    }
}

/// `nil`, which needs an expected sort.
fn nil(alloc: Global, wanted: &Wanted, place: Place) -> Result<Term, JudgeStop>
    ensures exact { Judges (λ t. t) result (specs.nil wanted.now place) }
{
    match expected_list(wanted)? {
        Some(item) => place_term(alloc, wanted, place, Head::Nil(item), &[]),
        None => Err(JudgeStop::Refused(ill_sorted(place))),
    }
}

/// `Leaf`, which needs an expected sort.
fn empty_tree(alloc: Global, wanted: &Wanted, place: Place) -> Result<Term, JudgeStop>
    ensures exact { Judges (λ t. t) result (specs.empty_tree wanted.now place) }
{
    match expected_tree(wanted)? {
        Some(item) => place_term(alloc, wanted, place, Head::Leaf(item), &[]),
        None => Err(JudgeStop::Refused(ill_sorted(place))),
    }
}

/// A word that stands alone, as a term.
pub fn word_term(
    alloc: Global,
    wanted: &Wanted,
    word: Word,
    place: Place,
) -> Result<Term, JudgeStop>
    ensures exact { Judges (λ t. t) result (specs.lone_term word place wanted.now) }
{
    match word {
        Word::Term(TermWord::Nil) => nil(alloc, wanted, place),
        Word::Term(TermWord::Leaf) => empty_tree(alloc, wanted, place),
        Word::Term(TermWord::Operator(operator)) => {
            place_term(alloc, wanted, place, Head::Operator(operator), &[])
        }
        _ => Err(JudgeStop::CutOff),
    }
}

/// A type that has no arrays.
fn plain_type(alloc: Global, shape: Shape) -> Result<AType, AllocError>
    requires { arrays shape ≡ 0 }
    ensures { IfOk result (λ t. t ≡ record { shape = shape; sizes = [] }) }
{
    Ok(AType::new(Shared::new(alloc, shape)?, Items::new(alloc)))
}

/// A word that stands alone, as a type.
pub fn word_type(alloc: Global, word: Word) -> Result<AType, JudgeStop>
    ensures exact { Judges (λ t. t) result (specs.lone_type word) }
{
    match word {
        Word::Type(TypeWord::Void) => Ok(plain_type(alloc, Shape::Void)?),
        Word::Type(TypeWord::Int(kind)) => Ok(plain_type(alloc, Shape::Int(kind))?),
        _ => Err(JudgeStop::CutOff),
    }
}

/// `struct` and its tag.
pub fn struct_type(alloc: Global, tag: &Identifier) -> Result<AType, AllocError>
    ensures { IfOk result (λ t. t ≡ record { shape = Shape.Struct tag.now.name; sizes = [] }) }
{
    plain_type(alloc, Shape::Struct(tag.name.share()?))
}
