ghost use Rattle.std.specs.Prelude.{◌≡◌, [], true, is_some, map, IfOk};
ghost use Rattle.std.specs.Option.{option_copied};
ghost use Rattle.floyd_pure_formulas.specs.ConstructorsClauses.{IsBuilt};
ghost use Rattle.floyd_pure_formulas.specs.VariableCases.{as_term, binders as binders_lem, constructors_of as constructors_of_lem, first_taken as first_taken_lem, of_list as of_list_lem, of_tree as of_tree_lem, sort_named as sort_named_lem};
ghost use Rattle.floyd_tree.specs.Plain.{At, Done, plains};
ghost use Rattle.floyd_tree_sorts.specs.Table.{sort_at};

use crate::naming::{has_name, variable};
use floyd_assert_trees::{Binder, BinderList};
use floyd_text::{Name, Steps};
use floyd_tree::{Head, MakeStop, Operator, Sort, SortList, Term, make};
use sqlite_items::Items;
use std::alloc::{AllocError, Global};
use std::sync::ledger::Ledger;

/// The constructors of a sort: the term of the one without arguments, and the head of the other one, with the sorts of its
/// arguments.
pub struct Constructors {
    pub empty: Term,
    pub head: Head,
    pub sorts: SortList,
}

impl Drop for Constructors {
    fn drop(self) {
        let Constructors { empty, head, sorts } = self;
        drop(empty);
        drop(head);
        drop(sorts);
    }
}

/// The term of a head without kids, which is never too large.
fn childless<L: Ledger>(alloc: Global, head: Head, steps: &mut Steps<L>) -> Result<Term, AllocError>
    requires { is_some (sort_at head []) ≡ true }
    ensures { IfOk result (λ t. t ≡ At head Done) }
{
    match make(alloc, head, &[], steps) {
        Ok(term) => Ok(term),
        Err(MakeStop::Memory) => Err(AllocError),
        Err(_) => unreachable!(),
    }
}

/// nil, and `::` of an item and a list.
fn of_list<L: Ledger>(
    alloc: Global,
    item: &Sort,
    steps: &mut Steps<L>,
) -> Result<Constructors, AllocError>
    ensures { IfOk result (λ c. c ≡ of_list_lem item.now) }
{
    let empty = childless(alloc, Head::Nil(item.share()?), steps)?;
    let mut sorts = SortList::new(alloc);
    sorts.push(item.share()?)?;
    sorts.push(Sort::list_of(alloc, item.share()?)?)?;
    Ok(Constructors {
        empty,
        head: Head::Operator(Operator::Cons),
        sorts,
    })
}

/// Leaf, and Node of a tree, an item and a tree.
fn of_tree<L: Ledger>(
    alloc: Global,
    item: &Sort,
    steps: &mut Steps<L>,
) -> Result<Constructors, AllocError>
    ensures { IfOk result (λ c. c ≡ of_tree_lem item.now) }
{
    let empty = childless(alloc, Head::Leaf(item.share()?), steps)?;
    let mut sorts = SortList::new(alloc);
    sorts.push(Sort::tree_of(alloc, item.share()?)?)?;
    sorts.push(item.share()?)?;
    sorts.push(Sort::tree_of(alloc, item.share()?)?)?;
    Ok(Constructors {
        empty,
        head: Head::Operator(Operator::Node),
        sorts,
    })
}

/// The constructors of a sort of lists or trees.
pub fn constructors_of<L: Ledger>(
    alloc: Global,
    sort: &Sort,
    steps: &mut Steps<L>,
) -> Result<Option<Constructors>, AllocError>
    ensures { IfOk result (λ c. c ≡ constructors_of_lem sort.now) }
{
    if let Some(item) = sort.item()? {
        return Ok(Some(of_list(alloc, &item, steps)?));
    }
    match sort.node_item()? {
        Some(item) => Ok(Some(of_tree(alloc, &item, steps)?)),
        None => Ok(None),
    }
}

/// The sort of the variable of that name.
pub fn sort_named<'a>(x: &Name, variables: &'a [Binder]) -> Option<&'a Sort>
    ensures { option_copied result ≡ sort_named_lem x.now variables.now }
{
    'variables: for binder in variables {
        if *x == binder.name {
            return Some(&binder.sort);
        }
    }
    None
}

/// Variables of these names and sorts, where there are as many.
pub fn binders(
    alloc: Global,
    names: &[Name],
    sorts: &[Sort],
) -> Result<Option<BinderList>, AllocError>
    ensures { IfOk result (λ o. o ≡ binders_lem names.now sorts.now) }
{
    if names.len() != sorts.len() {
        return Ok(None);
    }
    let mut all = Vec::with_capacity(alloc, names.len())?;
    'names: for i in 0..names.len() {
        let name = names[i].share()?;
        let sort = sorts[i].share()?;
        all.push(Binder { name, sort })?;
    }
    Ok(Some(Items::from_vec(all)))
}

/// The first new variable whose name a variable of the context has, or an earlier new one.
pub fn first_taken<'a>(variables: &[Binder], new: &'a [Binder]) -> Option<&'a Name>
    ensures { option_copied result ≡ first_taken_lem variables.now [] new.now }
{
    'new: for i in 0..new.len() {
        let name = &new[i].name;
        if has_name(name, variables) || has_name(name, &new[..i]) {
            return Some(name);
        }
    }
    None
}

/// The variables as terms.
fn variables_of<L: Ledger>(
    alloc: Global,
    binders: &[Binder],
    steps: &mut Steps<L>,
) -> Result<Vec<Term>, AllocError>
    ensures { IfOk result (λ all. all.items ≡ map as_term binders.now) }
{
    let mut all = Vec::with_capacity(alloc, binders.len())?;
    'binders: for binder in binders {
        all.push(variable(alloc, &binder.name, &binder.sort, steps)?)?;
    }
    Ok(all)
}

/// The term of that head of these variables.
pub fn built<L: Ledger>(
    alloc: Global,
    head: &Head,
    new: &[Binder],
    steps: &mut Steps<L>,
) -> Result<Term, AllocError>
    requires { IsBuilt (At head.now (plains (map as_term new.now))) }
    ensures { IfOk result (λ t. t ≡ At head.now (plains (map as_term new.now))) }
{
    let kids = variables_of(alloc, new, steps)?;
    match make(alloc, head.share()?, kids.as_slice(), steps) {
        Ok(term) => Ok(term),
        Err(MakeStop::Memory) => Err(AllocError),
        Err(_) => unreachable!(),
    }
}
