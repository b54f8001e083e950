//! What the items of a bracket are to be.
ghost use Rattle.std.specs.Prelude.{◌≡◌, [], ◌∷◌, map, IfOk, is_some};
ghost use Rattle.std.specs.Option.{option_copied};
ghost use Rattle.floyd_tree_sorts.specs.Table.{forms};
ghost use Rattle.floyd_termread_brackets.specs.Slots as specs;
ghost use Rattle.floyd_termread_wants.specs.Judging.{Judges, there};

use floyd_assert_trees::{Binder, Fun};
use floyd_cparse_trees::Identifier;
use floyd_termread_scope::Scope;
use floyd_termread_trees::{Opening, TermWord, TypeWord, Word};
use floyd_termread_wants::{JudgeStop, Known, Wanted, unknown};
use floyd_text::{Name, Place};
use floyd_tree::{AType, Operator, Sort, Term, sort};
use floyd_tree_sorts::{Arguments, RowSort};
use sqlite_items::Items;
use std::alloc::{AllocError, Global};

/// What an item of a bracket is to be.
pub enum Goal {
    Term(Wanted),
    Type,
    /// A type that has a value sort.
    ValueType,
    /// The type of an integer or a pointer.
    ScalarType,
    /// A name that `gv` may take.
    Global,
    /// A name that `lv` may take.
    Local,
}

impl Drop for Goal {
    fn drop(self) {
        match self {
            Goal::Term(wanted) => drop(wanted),
            Goal::Type => {}
            Goal::ValueType => {}
            Goal::ScalarType => {}
            Goal::Global => {}
            Goal::Local => {}
        }
    }
}

/// A place in a bracket: one that a row of the sort table writes, or another.
pub enum Slot {
    Row(RowSort),
    Fixed(Goal),
}

impl Drop for Slot {
    fn drop(self) {
        match self {
            Slot::Row(_) => {}
            Slot::Fixed(goal) => drop(goal),
        }
    }
}

/// The places in a bracket: the first ones, and what each further item is to be. What is expected of the whole says what S
/// and T may stand for.
pub struct Slots {
    pub first: Items<Slot>,
    pub rest: Slot,
    pub above: Known,
}

impl Drop for Slots {
    fn drop(self) {
        let Slots { first, rest, above } = self;
        drop(first);
        drop(rest);
        drop(above);
    }
}

/// What an item of a bracket was read as.
pub enum Part {
    Term(Term),
    Type(AType),
    /// A type with its value sort.
    Valued(AType, Sort),
    Name(Name),
}

impl Drop for Part {
    fn drop(self) {
        match self {
            Part::Term(term) => drop(term),
            Part::Type(atype) => drop(atype),
            Part::Valued(atype, sort) => {
                drop(atype);
                drop(sort);
            }
            Part::Name(name) => drop(name),
        }
    }
}

impl Goal {
    fn share(&self) -> Result<Goal, AllocError>
        ensures { IfOk result (λ g. g ≡ self.now) }
    {
        match self {
            Goal::Term(wanted) => Ok(Goal::Term(wanted.share()?)),
            Goal::Type => Ok(Goal::Type),
            Goal::ValueType => Ok(Goal::ValueType),
            Goal::ScalarType => Ok(Goal::ScalarType),
            Goal::Global => Ok(Goal::Global),
            Goal::Local => Ok(Goal::Local),
        }
    }
}

fn any_term() -> Slot
    ensures { result ≡ specs.any_term }
{
    Slot::Fixed(Goal::Term(Wanted::Any(None)))
}

fn one_goal(alloc: Global, goal: Goal) -> Result<Slots, AllocError>
    ensures { IfOk result (λ s. s ≡ specs.fixed (goal ∷ [])) }
{
    let mut first = Items::new(alloc);
    first.push(Slot::Fixed(goal))?;
    Ok(Slots {
        first,
        rest: any_term(),
        above: Known::nothing(),
    })
}

fn two_goals(alloc: Global, one: Goal, other: Goal) -> Result<Slots, AllocError>
    ensures { IfOk result (λ s. s ≡ specs.fixed (one ∷ other ∷ [])) }
{
    let mut first = Items::new(alloc);
    first.push(Slot::Fixed(one))?;
    first.push(Slot::Fixed(other))?;
    Ok(Slots {
        first,
        rest: any_term(),
        above: Known::nothing(),
    })
}

fn row_slots(alloc: Global, takes: Arguments) -> Result<Items<Slot>, AllocError>
    ensures { IfOk result (λ s. s ≡ map specs.row_slot (forms takes)) }
{
    let mut first = Items::new(alloc);
    match takes {
        Arguments::Nothing => {}
        Arguments::One(p) => first.push(Slot::Row(p))?,
        Arguments::Two(p, q) => {
            first.push(Slot::Row(p))?;
            first.push(Slot::Row(q))?;
        }
        Arguments::Three(p, q, o) => {
            first.push(Slot::Row(p))?;
            first.push(Slot::Row(q))?;
            first.push(Slot::Row(o))?;
        }
    }
    Ok(first)
}

/// The arguments of an operator.
fn by_row(alloc: Global, operator: Operator, wanted: &Wanted) -> Result<Slots, AllocError>
    ensures { IfOk result (λ s. s ≡ specs.by_row operator wanted.now) }
{
    let row = operator.row();
    let first = row_slots(alloc, row.takes)?;
    let above = Known::from_above(row.gives, wanted)?;
    Ok(Slots {
        first,
        rest: any_term(),
        above,
    })
}

/// The items of a literal list.
fn list_slots(alloc: Global, wanted: &Wanted) -> Result<Slots, AllocError>
    ensures { IfOk result (λ s. s ≡ specs.list_slots wanted.now) }
{
    let above = Known::from_above(RowSort::ListS, wanted)?;
    Ok(Slots {
        first: Items::new(alloc),
        rest: Slot::Row(RowSort::S),
        above,
    })
}

fn argument_slots(alloc: Global, arguments: &[Binder]) -> Result<Items<Slot>, AllocError>
    ensures { IfOk result (λ s. s ≡ map specs.argument_slot arguments.now) }
{
    let mut first = Items::new(alloc);
    'arguments: for argument in arguments {
        first.push(Slot::Fixed(Goal::Term(Wanted::This(argument.sort.share()?))))?;
    }
    Ok(first)
}

/// The arguments of a FUN, which must be there.
fn fun_slots(alloc: Global, i: &Identifier, fun: Option<&Fun>) -> Result<Slots, JudgeStop>
    ensures exact { Judges (λ s. s) result (specs.fun_slots i.now (option_copied fun.entry)) }
{
    let Some(fun) = fun else {
        return Err(JudgeStop::Refused(unknown(i)?));
    };
    let first = argument_slots(alloc, fun.arguments.as_slice())?;
    Ok(Slots {
        first,
        rest: any_term(),
        above: Known::nothing(),
    })
}

/// One term, or a pair.
fn parenthesis_slots(alloc: Global, count: usize, wanted: &Wanted) -> Result<Slots, AllocError>
    ensures { IfOk result (λ s. s ≡ specs.parenthesis_slots count wanted.now) }
{
    if count == 1 {
        one_goal(alloc, Goal::Term(Wanted::Any(wanted.expected()?)))
    } else {
        by_row(alloc, Operator::Pair, wanted)
    }
}

fn width_slots(alloc: Global) -> Result<Slots, AllocError>
    ensures { IfOk result (λ s. s ≡ specs.width_slots) }
{
    two_goals(
        alloc,
        Goal::Term(Wanted::Width),
        Goal::Term(Wanted::This(Sort::Z)),
    )
}

/// The name of a local variable, where `lv` may stand.
fn local_slots(alloc: Global, scope: &Scope<'_>, place: Place) -> Result<Slots, JudgeStop>
    ensures exact { Judges (λ s. s) result (specs.local_slots (is_some scope.now.locals) place) }
{
    if scope.takes_locals() {
        return Ok(one_goal(alloc, Goal::Local)?);
    }
    let word = Identifier {
        name: Name::from_slice(alloc, b"lv")?,
        place,
    };
    Err(JudgeStop::Refused(unknown(&word)?))
}

fn word_slots(
    alloc: Global,
    scope: &Scope<'_>,
    word: TermWord,
    place: Place,
    wanted: &Wanted,
) -> Result<Slots, JudgeStop>
    ensures exact { Judges (λ s. s) result (specs.word_slots (is_some scope.now.locals) word place wanted.now) }
{
    match word {
        TermWord::Operator(operator) => Ok(by_row(alloc, operator, wanted)?),
        TermWord::Signed | TermWord::Unsigned => Ok(width_slots(alloc)?),
        TermWord::Gv => Ok(one_goal(alloc, Goal::Global)?),
        TermWord::Lv => local_slots(alloc, scope, place),
        TermWord::Default => Ok(one_goal(alloc, Goal::ValueType)?),
        TermWord::Nil | TermWord::Leaf => Err(JudgeStop::CutOff),
    }
}

/// What the items of a bracket of a term are to be, of which there are so many.
pub fn slots_of(
    alloc: Global,
    scope: &Scope<'_>,
    opening: &Opening,
    count: usize,
    wanted: &Wanted,
) -> Result<Slots, JudgeStop>
    ensures exact { Judges (λ s. s) result (specs.slots_of scope.now.defs.now.funs (is_some scope.now.locals) opening.now count wanted.now) }
{
    match opening {
        Opening::Call(i) => fun_slots(alloc, i, scope.fun(&i.name)),
        Opening::Word(Word::Term(word), place) => word_slots(alloc, scope, *word, *place, wanted),
        Opening::Parenthesis => Ok(parenthesis_slots(alloc, count, wanted)?),
        Opening::List => Ok(list_slots(alloc, wanted)?),
        _ => Err(JudgeStop::CutOff),
    }
}

fn type_word_slots(alloc: Global, word: TypeWord) -> Result<Option<Slots>, AllocError>
    ensures { IfOk result (λ s. s ≡ specs.type_word_slots word) }
{
    match word {
        TypeWord::Ptr => Ok(Some(one_goal(alloc, Goal::Type)?)),
        TypeWord::Array => {
            let size = Goal::Term(Wanted::This(Sort::Z));
            Ok(Some(two_goals(alloc, Goal::Type, size)?))
        }
        TypeWord::Fn => Ok(Some(Slots {
            first: Items::new(alloc),
            rest: Slot::Fixed(Goal::Type),
            above: Known::nothing(),
        })),
        TypeWord::Void | TypeWord::Int(_) | TypeWord::Struct => Ok(None),
    }
}

fn some_type_slots(alloc: Global, opening: &Opening) -> Result<Option<Slots>, AllocError>
    ensures { IfOk result (λ s. s ≡ specs.type_slots opening.now) }
{
    match opening {
        Opening::Word(Word::Type(word), _) => type_word_slots(alloc, *word),
        _ => Ok(None),
    }
}

/// What the items of a bracket of a type are to be.
pub fn type_slots(alloc: Global, opening: &Opening) -> Result<Slots, JudgeStop>
    ensures exact { Judges (λ s. s) result (there (specs.type_slots opening.now)) }
{
    match some_type_slots(alloc, opening)? {
        Some(slots) => Ok(slots),
        None => Err(JudgeStop::CutOff),
    }
}

impl Slot {
    /// What an item at this place is to be.
    fn goal(&self, alloc: Global, known: &Known, above: &Known) -> Result<Goal, AllocError>
        ensures { IfOk result (λ g. g ≡ specs.goal_of known.now above.now self.now) }
    {
        match self {
            Slot::Row(form) => Ok(Goal::Term(known.wanted_by(alloc, above, *form)?)),
            Slot::Fixed(goal) => goal.share(),
        }
    }

    /// What is known besides, where an item at this place was read as this.
    pub fn learn(&self, known: Known, part: &Part) -> Result<Known, AllocError>
        ensures { IfOk result (λ k. k ≡ specs.learn_part known self.now part.now) }
    {
        match (self, part) {
            (Slot::Row(form), Part::Term(term)) => known.learn(*form, sort(term)),
            _ => Ok(known),
        }
    }
}

impl Slots {
    /// The place of an item by its number, from 0.
    pub fn at(&self, number: usize) -> &Slot
        ensures { result.now ≡ specs.slot_at self.now number }
    {
        match self.first.get(number) {
            Some(slot) => slot,
            None => &self.rest,
        }
    }

    /// What the item of that number is to be.
    pub fn goal_at(&self, alloc: Global, number: usize, known: &Known) -> Result<Goal, AllocError>
        ensures { IfOk result (λ g. g ≡ specs.goal_of known.now self.now.above (specs.slot_at self.now number)) }
    {
        self.at(number).goal(alloc, known, &self.above)
    }
}
