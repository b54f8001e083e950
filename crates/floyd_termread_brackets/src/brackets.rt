//! Terms that are made of a bracket whose items were read.
ghost use Rattle.std.specs.Prelude.{◌≡◌, ◌++◌, ◌∷◌, [], map, length, IfOk, OnOk};
ghost use Rattle.std.specs.Option.{option_copied};
ghost use Rattle.floyd_tree_sorts.specs.Table.{forms};
ghost use Rattle.floyd_termread_brackets.specs.Brackets as specs;
ghost use Rattle.floyd_termread_wants.specs.Judging.{Judges};

use crate::slots::Part;
use floyd_assert_trees::{Binder, Fun};
use floyd_cparse_trees::Identifier;
use floyd_termread_scope::Scope;
use floyd_termread_trees::{Opening, TermWord, Word};
use floyd_termread_wants::{JudgeStop, Wanted, ill_sorted, place_term, take_term, width_of};
use floyd_text::{Name, Place, Shared};
use floyd_tree::{Head, Operator, Sort, SortList, Term, Width, head, sort};
use floyd_tree_sorts::Arguments;
use sqlite_items::Items;
use std::alloc::{AllocError, Global};

/// The terms among parts.
fn terms_in(alloc: Global, parts: &[Part]) -> Result<Vec<Term>, AllocError>
    ensures { IfOk result (λ v. v.items ≡ specs.terms_in parts.now) }
{
    let mut all = Vec::new(alloc);
    'parts: for part in parts {
        put_term(part, &mut all)?;
    }
    Ok(all)
}

fn put_term(part: &Part, all: &mut Vec<Term>) -> Result<(), AllocError>
    ensures { OnOk result (all.new.items ≡ all.old.items ++ specs.terms_in (part.now ∷ [])) }
{
    match part {
        Part::Term(term) => {
            all.push(term.share()?)?;
            Ok(())
        }
        _ => Ok(()),
    }
}

fn count_of(takes: Arguments) -> usize
    ensures { result ≡ length (forms takes) }
{
    match takes {
        Arguments::Nothing => 0,
        Arguments::One(_) => 1,
        Arguments::Two(_, _) => 2,
        Arguments::Three(_, _, _) => 3,
    }
}

/// What stands around the items of a bracket.
#[derive(Clone, Copy)]
pub struct Edges<'a> {
    pub opening: &'a Opening,
    /// The place of the bracket.
    pub place: Place,
    /// None where the text is cut off before it.
    pub close: Option<Place>,
}

/// Where a phrase begins, and where its bracket closes.
#[derive(Clone, Copy)]
struct Ends {
    place: Place,
    close: Place,
}

/// A head applied to so many terms.
fn applied(
    alloc: Global,
    wanted: &Wanted,
    ends: Ends,
    head: Head,
    count: usize,
    parts: &[Part],
) -> Result<Term, JudgeStop>
    ensures exact { Judges (λ t. t) result (specs.applied wanted.now ends.place head count parts.now ends.close) }
{
    if parts.len() != count {
        return Err(JudgeStop::Refused(ill_sorted(ends.close)));
    }
    let terms = terms_in(alloc, parts)?;
    place_term(alloc, wanted, ends.place, head, terms.as_slice())
}

fn sorts_of(alloc: Global, binders: &[Binder]) -> Result<SortList, AllocError>
    ensures { IfOk result (λ s. s ≡ map specs.binder_sort binders.now) }
{
    let mut all = Items::new(alloc);
    'binders: for binder in binders {
        all.push(binder.sort.share()?)?;
    }
    Ok(all)
}

fn fun_head(alloc: Global, i: &Identifier, fun: &Fun) -> Result<Head, AllocError>
    ensures { IfOk result (λ h. h ≡ specs.fun_head i.now fun.now) }
{
    let arguments = Shared::new(alloc, sorts_of(alloc, fun.arguments.as_slice())?)?;
    Ok(Head::Fun(i.name.share()?, arguments, fun.result.share()?))
}

fn call_made(
    alloc: Global,
    wanted: &Wanted,
    i: &Identifier,
    fun: Option<&Fun>,
    parts: &[Part],
    close: Place,
) -> Result<Term, JudgeStop>
    ensures exact { Judges (λ t. t) result (specs.call_made wanted.now i.now (option_copied fun.entry) parts.now close) }
{
    let Some(fun) = fun else {
        return Err(JudgeStop::CutOff);
    };
    let ends = Ends {
        place: i.place,
        close,
    };
    let head = fun_head(alloc, i, fun)?;
    applied(alloc, wanted, ends, head, fun.arguments.len(), parts)
}

/// `signed` or `unsigned`.
fn width_head(width: Width, signed: bool) -> Head
    ensures { result ≡ specs.width_head signed width }
{
    if signed {
        Head::Signed(width)
    } else {
        Head::Unsigned(width)
    }
}

/// `signed` and `unsigned`, whose first argument stands in the head.
fn width_made(
    alloc: Global,
    wanted: &Wanted,
    ends: Ends,
    signed: bool,
    parts: &[Part],
) -> Result<Term, JudgeStop>
    ensures exact { Judges (λ t. t) result (specs.width_made wanted.now ends.place signed parts.now ends.close) }
{
    match parts {
        [Part::Term(x), Part::Term(z)] => {
            let Some(width) = width_of(head(x)) else {
                return Err(JudgeStop::CutOff);
            };
            let kids = [z.share()?];
            place_term(alloc, wanted, ends.place, width_head(width, signed), &kids)
        }
        _ => Err(JudgeStop::Refused(ill_sorted(ends.close))),
    }
}

fn name_head(name: Name, global: bool) -> Head
    ensures { result ≡ specs.name_head global name }
{
    if global {
        Head::Gv(name)
    } else {
        Head::Lv(name)
    }
}

/// `gv` or `lv`.
fn name_made(
    alloc: Global,
    wanted: &Wanted,
    place: Place,
    global: bool,
    parts: &[Part],
) -> Result<Term, JudgeStop>
    ensures exact { Judges (λ t. t) result (specs.name_made wanted.now place global parts.now) }
{
    match parts {
        [Part::Name(name)] => {
            let head = name_head(name.share()?, global);
            place_term(alloc, wanted, place, head, &[])
        }
        _ => Err(JudgeStop::CutOff),
    }
}

/// The default of a type, whose sizes are numbers.
fn default_made(
    alloc: Global,
    wanted: &Wanted,
    place: Place,
    parts: &[Part],
) -> Result<Term, JudgeStop>
    ensures exact { Judges (λ t. t) result (specs.default_made wanted.now place parts.now) }
{
    match parts {
        [Part::Valued(t, sort)] => {
            if t.shape().get().is_scalar() {
                return place_term(alloc, wanted, place, Head::Operator(Operator::Vundef), &[]);
            }
            let head = Head::Default(t.shape().share()?, sort.share()?);
            place_term(alloc, wanted, place, head, t.sizes().as_slice())
        }
        _ => Err(JudgeStop::CutOff),
    }
}

/// A term in parentheses, or a pair.
fn parenthesis_made(
    alloc: Global,
    wanted: &Wanted,
    place: Place,
    terms: &[Term],
) -> Result<Term, JudgeStop>
    ensures exact { Judges (λ t. t) result (specs.parenthesis_made wanted.now place terms.now) }
{
    match terms {
        [x] => take_term(wanted, place, x.share()?),
        [_, _] => place_term(alloc, wanted, place, Head::Operator(Operator::Pair), terms),
        _ => Err(JudgeStop::CutOff),
    }
}

/// One item more before a list.
fn cons(alloc: Global, place: Place, item: &Term, rest: Term) -> Result<Term, JudgeStop>
    ensures exact { Judges (λ t. t) result (specs.one_more place item.now rest) }
{
    let kids = [item.share()?, rest];
    let head = Head::Operator(Operator::Cons);
    place_term(alloc, &Wanted::Any(None), place, head, &kids)
}

/// A list of these items, which is made from its end.
fn consed(alloc: Global, place: Place, item: &Sort, terms: &[Term]) -> Result<Term, JudgeStop>
    ensures exact { Judges (λ t. t) result (specs.consed place item.now terms.now) }
{
    let nil = Head::Nil(item.share()?);
    let mut list = place_term(alloc, &Wanted::Any(None), place, nil, &[])?;
    'terms: for i in (0..terms.len()).rev() {
        list = cons(alloc, place, &terms[i], list)?;
    }
    Ok(list)
}

/// A literal list.
fn list_made(
    alloc: Global,
    wanted: &Wanted,
    place: Place,
    terms: &[Term],
) -> Result<Term, JudgeStop>
    ensures exact { Judges (λ t. t) result (specs.list_made wanted.now place terms.now) }
{
    let [first, ..] = terms else {
        return Err(JudgeStop::CutOff);
    };
    let list = Sort::list_of(alloc, sort(first).share()?)?;
    if !wanted.takes(&Head::Operator(Operator::Cons), &list) {
        return Err(JudgeStop::Refused(ill_sorted(place)));
    }
    consed(alloc, place, sort(first), terms)
}

fn word_made(
    alloc: Global,
    wanted: &Wanted,
    word: TermWord,
    ends: Ends,
    parts: &[Part],
) -> Result<Term, JudgeStop>
    ensures exact { Judges (λ t. t) result (specs.word_made wanted.now word ends.place parts.now ends.close) }
{
    match word {
        TermWord::Operator(operator) => {
            let count = count_of(operator.row().takes);
            applied(alloc, wanted, ends, Head::Operator(operator), count, parts)
        }
        TermWord::Signed => width_made(alloc, wanted, ends, true, parts),
        TermWord::Unsigned => width_made(alloc, wanted, ends, false, parts),
        TermWord::Gv => name_made(alloc, wanted, ends.place, true, parts),
        TermWord::Lv => name_made(alloc, wanted, ends.place, false, parts),
        TermWord::Default => default_made(alloc, wanted, ends.place, parts),
        TermWord::Nil | TermWord::Leaf => Err(JudgeStop::CutOff),
    }
}

/// The term that is made of a bracket whose items were read as these parts.
fn made_of(
    alloc: Global,
    scope: &Scope<'_>,
    wanted: &Wanted,
    opening: &Opening,
    ends: Ends,
    parts: &[Part],
) -> Result<Term, JudgeStop>
    ensures exact { Judges (λ t. t) result (specs.made_of scope.now.defs.now.funs opening.now ends.place parts.now ends.close wanted.now) }
{
    match opening {
        Opening::Call(i) => call_made(alloc, wanted, i, scope.fun(&i.name), parts, ends.close),
        Opening::Word(Word::Term(word), at) => {
            let ends = Ends {
                place: *at,
                close: ends.close,
            };
            word_made(alloc, wanted, *word, ends, parts)
        }
        Opening::Parenthesis => {
            let terms = terms_in(alloc, parts)?;
            parenthesis_made(alloc, wanted, ends.place, terms.as_slice())
        }
        Opening::List => {
            let terms = terms_in(alloc, parts)?;
            list_made(alloc, wanted, ends.place, terms.as_slice())
        }
        _ => Err(JudgeStop::CutOff),
    }
}

/// The term that is made of a bracket whose items were read as these parts, unless the text is cut off in it.
pub fn closed_term(
    alloc: Global,
    scope: &Scope<'_>,
    wanted: &Wanted,
    edges: Edges<'_>,
    parts: &[Part],
) -> Result<Term, JudgeStop>
    ensures exact { Judges (λ t. t) result (specs.closed_term scope.now.defs.now.funs edges.entry.opening.now edges.entry.place parts.now edges.entry.close wanted.now) }
{
    let Some(close) = edges.close else {
        return Err(JudgeStop::CutOff);
    };
    let ends = Ends {
        place: edges.place,
        close,
    };
    made_of(alloc, scope, wanted, edges.opening, ends, parts)
}

/// Where a phrase with a bracket begins.
pub fn bracket_place(opening: &Opening, place: Place) -> Place
    ensures { result ≡ specs.bracket_place opening.now place }
{
    match opening {
        Opening::Call(i) => i.place,
        Opening::Word(_, at) => *at,
        _ => place,
    }
}
