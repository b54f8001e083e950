//! Formulas of words, of words with a bracket, and of one relation.
ghost use Rattle.std.specs.Prelude.{◌≡◌, ◌++◌, ◌∷◌, [], map, slice_get, IfOk};
ghost use Rattle.std.specs.Option.{option_copied};
ghost use Rattle.floyd_termread_formulas.specs.Formulas as specs;
ghost use Rattle.floyd_termread_forms.specs.Making as making;
ghost use Rattle.floyd_termread_scope.specs.Scopes.{env};
ghost use Rattle.floyd_termread_terms.specs.Terms.{sense_of};
ghost use Rattle.floyd_termread_wants.specs.Judging.{Judges};

use crate::paths::{judge_path, put_subscripts, put_terms, step_shapes};
use floyd_cparse_trees::Identifier;
use floyd_termread_brackets::{Goal, Part};
use floyd_termread_forms::{Sides, first_wanted, place_formula, related, second_wanted};
use floyd_termread_groups::{Grouped, GroupedLink};
use floyd_termread_scope::{Scope, Variables};
use floyd_termread_terms::{first_place, judge_part, judge_term, name_of};
use floyd_termread_trees::{FormulaWord, Word};
use floyd_termread_wants::{JudgeStop, Wanted, unknown};
use floyd_text::{Name, Place, Shared};
use floyd_tree::{AType, Formula, FormulaHead, Path, Sort, Term, TermList};
use sqlite_items::Items;
use std::alloc::{AllocError, Global};

/// A term where a formula is wanted, which the text cuts off behind it.
pub(crate) fn lone(
    alloc: Global,
    scope: &Scope<'_>,
    bound: &Variables,
    tree: &Grouped,
) -> Result<Formula, JudgeStop>
    ensures exact { Judges (λ x. x) result (specs.lone (sense_of tree.now) (env scope.now bound.now)) }
{
    judge_term(alloc, scope, bound, tree, &Wanted::Any(None))?;
    Err(JudgeStop::CutOff)
}

fn truth_of(word: Word) -> Option<FormulaHead>
    ensures { result ≡ specs.truth_of word }
{
    match word {
        Word::Formula(FormulaWord::True) => Some(FormulaHead::True),
        Word::Formula(FormulaWord::False) => Some(FormulaHead::False),
        _ => None,
    }
}

/// A word that stands alone.
pub(crate) fn word_formula(
    alloc: Global,
    scope: &Scope<'_>,
    bound: &Variables,
    tree: &Grouped,
    word: Word,
    place: Place,
) -> Result<Formula, JudgeStop>
    ensures exact { Judges (λ x. x) result (specs.word_formula word place (sense_of tree.now) (env scope.now bound.now)) }
{
    match truth_of(word) {
        Some(head) => place_formula(alloc, place, head, &[], &[]),
        None => lone(alloc, scope, bound, tree),
    }
}

/// What was read, unless the text is cut off behind it.
pub(crate) fn closed(close: Option<Place>, x: Formula) -> Result<Formula, JudgeStop>
    ensures exact { Judges (λ y. y) result (specs.closed close x) }
{
    if close.is_some() {
        Ok(x)
    } else {
        Err(JudgeStop::CutOff)
    }
}

/// The item of a bracket with that number.
fn item_at(items: &[Grouped], number: usize) -> Option<&Grouped>
    ensures { option_copied result ≡ slice_get items.now number }
{
    items.get(number)
}

/// The item of a bracket with that number, as a value.
fn value_at(
    alloc: Global,
    scope: &Scope<'_>,
    bound: &Variables,
    items: &[Grouped],
    number: usize,
) -> Result<Term, JudgeStop>
    ensures exact { Judges (λ t. t) result (specs.value_at number (map specs.reading_of items.now) (env scope.now bound.now)) }
{
    match item_at(items, number) {
        Some(item) => judge_term(alloc, scope, bound, item, &Wanted::This(Sort::Val)),
        None => Err(JudgeStop::CutOff),
    }
}

/// Where a phrase begins, and where its bracket closes, unless the text is cut off before it.
#[derive(Clone, Copy)]
pub(crate) struct Ends {
    pub(crate) place: Place,
    pub(crate) close: Option<Place>,
}

/// A formula on one value.
fn one_value(
    alloc: Global,
    scope: &Scope<'_>,
    bound: &Variables,
    ends: Ends,
    head: FormulaHead,
    items: &[Grouped],
) -> Result<Formula, JudgeStop>
    ensures exact { Judges (λ x. x) result (specs.one_value head ends.place (map specs.reading_of items.now) ends.close (env scope.now bound.now)) }
{
    let v = value_at(alloc, scope, bound, items, 0)?;
    if ends.close.is_none() {
        return Err(JudgeStop::CutOff);
    }
    let terms = [v];
    place_formula(alloc, ends.place, head, &terms, &[])
}

/// The type that an item was read as.
fn type_in(alloc: Global, part: &Part) -> Result<AType, JudgeStop>
    ensures exact { Judges (λ t. t) result (specs.type_in part.now) }
{
    match part {
        Part::Type(t) => Ok(t.share(alloc)?),
        Part::Valued(t, _) => Ok(t.share(alloc)?),
        Part::Term(_) => Err(JudgeStop::CutOff),
        Part::Name(_) => Err(JudgeStop::CutOff),
    }
}

/// The first item of a bracket, as a type.
fn first_type(
    alloc: Global,
    scope: &Scope<'_>,
    bound: &Variables,
    goal: &Goal,
    items: &[Grouped],
) -> Result<AType, JudgeStop>
    ensures exact { Judges (λ t. t) result (specs.first_type (env scope.now bound.now) goal.now (map specs.reading_of items.now)) }
{
    match items.first() {
        Some(item) => type_in(alloc, &judge_part(alloc, scope, bound, item, goal)?),
        None => Err(JudgeStop::CutOff),
    }
}

/// The sizes of a type's arrays, the subscripts of a path and a value, as the terms of a formula.
fn type_terms(alloc: Global, t: &AType, path: &Path, v: Term) -> Result<TermList, AllocError>
    ensures { IfOk result (λ ts. ts ≡ t.now.sizes ++ (making.subscripts_in path.now ++ v ∷ [])) }
{
    let mut terms = Items::new(alloc);
    put_terms(t.sizes().as_slice(), &mut terms)?;
    put_subscripts(path, &mut terms)?;
    terms.push(v)?;
    Ok(terms)
}

/// The sizes of a type's arrays and a value.
fn sized_terms(alloc: Global, t: &AType, v: Term) -> Result<TermList, AllocError>
    ensures { IfOk result (λ ts. ts ≡ t.now.sizes ++ v ∷ []) }
{
    let mut terms = Items::new(alloc);
    put_terms(t.sizes().as_slice(), &mut terms)?;
    terms.push(v)?;
    Ok(terms)
}

fn hasty_made(alloc: Global, place: Place, t: &AType, v: Term) -> Result<Formula, JudgeStop>
    ensures exact { Judges (λ x. x) result (making.hasty place t.now v) }
{
    let terms = sized_terms(alloc, t, v)?;
    let head = FormulaHead::Hasty(t.shape().share()?);
    place_formula(alloc, place, head, terms.as_slice(), &[])
}

fn compatible_made(
    alloc: Global,
    place: Place,
    t: &AType,
    path: &Path,
    v: Term,
) -> Result<Formula, JudgeStop>
    ensures exact { Judges (λ x. x) result (making.compatible place t.now path.now v) }
{
    let terms = type_terms(alloc, t, path, v)?;
    let steps = Shared::new(alloc, step_shapes(alloc, path)?)?;
    let head = FormulaHead::Compatible(t.shape().share()?, steps);
    place_formula(alloc, place, head, terms.as_slice(), &[])
}

/// `hasty`.
fn hasty_formula(
    alloc: Global,
    scope: &Scope<'_>,
    bound: &Variables,
    ends: Ends,
    items: &[Grouped],
) -> Result<Formula, JudgeStop>
    ensures exact { Judges (λ x. x) result (specs.hasty_formula ends.place (map specs.reading_of items.now) ends.close (env scope.now bound.now)) }
{
    let t = first_type(alloc, scope, bound, &Goal::ScalarType, items)?;
    let v = value_at(alloc, scope, bound, items, 1)?;
    if ends.close.is_none() {
        return Err(JudgeStop::CutOff);
    }
    hasty_made(alloc, ends.place, &t, v)
}

fn path_at(
    alloc: Global,
    scope: &Scope<'_>,
    bound: &Variables,
    items: &[Grouped],
    number: usize,
) -> Result<Path, JudgeStop>
    ensures exact { Judges (λ p. p) result (specs.path_at number (map specs.reading_of items.now) (env scope.now bound.now)) }
{
    match item_at(items, number) {
        Some(item) => judge_path(alloc, scope, bound, item),
        None => Err(JudgeStop::CutOff),
    }
}

/// `compatible`.
fn compatible_formula(
    alloc: Global,
    scope: &Scope<'_>,
    bound: &Variables,
    ends: Ends,
    items: &[Grouped],
) -> Result<Formula, JudgeStop>
    ensures exact { Judges (λ x. x) result (specs.compatible_formula ends.place (map specs.reading_of items.now) ends.close (env scope.now bound.now)) }
{
    let t = first_type(alloc, scope, bound, &Goal::ValueType, items)?;
    let path = path_at(alloc, scope, bound, items, 1)?;
    let v = value_at(alloc, scope, bound, items, 2)?;
    if ends.close.is_none() {
        return Err(JudgeStop::CutOff);
    }
    compatible_made(alloc, ends.place, &t, &path, v)
}

/// The name of a SPEC, which must be visible.
fn spec_name(scope: &Scope<'_>, name: Option<&Identifier>) -> Result<Name, JudgeStop>
    ensures exact { Judges (λ x. x) result (specs.spec_name_in scope.now.specs.now (option_copied name.entry)) }
{
    let Some(i) = name else {
        return Err(JudgeStop::CutOff);
    };
    if scope.has_spec(&i.name) {
        Ok(i.name.share()?)
    } else {
        Err(JudgeStop::Refused(unknown(i)?))
    }
}

fn name_at(items: &[Grouped], number: usize) -> Option<&Identifier>
    ensures { option_copied result ≡ (specs.item number (map specs.reading_of items.now)).sense.name }
{
    match item_at(items, number) {
        Some(item) => name_of(item),
        None => None,
    }
}

/// `func_ptr`.
fn func_ptr_formula(
    alloc: Global,
    scope: &Scope<'_>,
    bound: &Variables,
    ends: Ends,
    items: &[Grouped],
) -> Result<Formula, JudgeStop>
    ensures exact { Judges (λ x. x) result (specs.func_ptr_formula ends.place (map specs.reading_of items.now) ends.close (env scope.now bound.now)) }
{
    let spec = spec_name(scope, name_at(items, 0))?;
    let v = value_at(alloc, scope, bound, items, 1)?;
    if ends.close.is_none() {
        return Err(JudgeStop::CutOff);
    }
    let terms = [v];
    place_formula(alloc, ends.place, FormulaHead::FuncPtr(spec), &terms, &[])
}

/// A word with a bracket, as a formula.
pub(crate) fn word_bracket(
    alloc: Global,
    scope: &Scope<'_>,
    bound: &Variables,
    word: FormulaWord,
    ends: Ends,
    items: &[Grouped],
) -> Result<Formula, JudgeStop>
    ensures exact { Judges (λ x. x) result (specs.word_bracket word ends.place (map specs.reading_of items.now) ends.close (env scope.now bound.now)) }
{
    match word {
        FormulaWord::IsPtr => one_value(alloc, scope, bound, ends, FormulaHead::IsPtr, items),
        FormulaWord::Defined => one_value(alloc, scope, bound, ends, FormulaHead::Defined, items),
        FormulaWord::Hasty => hasty_formula(alloc, scope, bound, ends, items),
        FormulaWord::Compatible => compatible_formula(alloc, scope, bound, ends, items),
        FormulaWord::FuncPtr => func_ptr_formula(alloc, scope, bound, ends, items),
        FormulaWord::Or
        | FormulaWord::And
        | FormulaWord::Not
        | FormulaWord::Forall
        | FormulaWord::Exists
        | FormulaWord::True
        | FormulaWord::False => Err(JudgeStop::CutOff),
    }
}

/// One relation between two terms.
pub(crate) fn relation_row(
    alloc: Global,
    scope: &Scope<'_>,
    bound: &Variables,
    first: &Grouped,
    links: &[GroupedLink],
) -> Result<Formula, JudgeStop>
    ensures exact { Judges (λ x. x) result (specs.relation_row (specs.reading_of first.now) (map specs.link_reading links.now) (env scope.now bound.now)) }
{
    match links {
        [link] => relation(alloc, scope, bound, first, link),
        _ => Err(JudgeStop::CutOff),
    }
}

fn relation(
    alloc: Global,
    scope: &Scope<'_>,
    bound: &Variables,
    first: &Grouped,
    link: &GroupedLink,
) -> Result<Formula, JudgeStop>
    ensures exact { Judges (λ x. x) result (specs.relation link.now.infix (sense_of first.now) (sense_of link.now.operand) (env scope.now bound.now)) }
{
    let Some(wanted) = first_wanted(link.infix) else {
        return Err(JudgeStop::CutOff);
    };
    let t = judge_term(alloc, scope, bound, first, &wanted)?;
    let right_wanted = second_wanted(&t)?;
    let u = judge_term(alloc, scope, bound, &link.operand, &right_wanted)?;
    let ends = Sides {
        left: first_place(first),
        right: first_place(&link.operand),
    };
    related(alloc, link.infix, ends, t, u)
}
