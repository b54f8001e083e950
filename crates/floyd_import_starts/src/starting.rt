ghost use Rattle.std.specs.Prelude.{◌≡◌, ◌++◌, ◌∷◌, [], ◌<◌, IfOk};
ghost use Rattle.floyd_assert_instances.specs.Specifications.{TakesTerms};
ghost use Rattle.floyd_goal_trees.specs.declared.goal.Goal.TheVariants.{Entail};
ghost use Rattle.floyd_links.specs.Imports.{first_goal as first_goal_lem, second_goal as second_goal_lem};

use crate::first::first_goal;
use crate::instances::own_instance;
use crate::posts::second_goal;
use floyd_assert_trees::{Funspec, Sep};
use floyd_goal_trees::{Goal, GoalList};
use floyd_text::Steps;
use floyd_tree::TermList;
use std::alloc::{AllocError, Global};
use std::marker::Brand;
use std::sync::ledger::{Blank, Ledger};

#[tactic(auto, using(crate::proofs::ImportLemmas::first_is, crate::proofs::ImportLemmas::second_is))]
fn starts_from<L: Ledger>(
    alloc: Global,
    import: &Funspec,
    own: &Funspec,
    terms: &TermList,
    frame: &[Sep],
    blank: Blank,
) -> Result<GoalList, AllocError>
    requires name { blank.name ≡ L.name }
    requires parts { blank.parts ≡ L.parts }
    requires some { 0 < blank.parts }
    requires takes { TakesTerms own.now terms.now }
    ensures { IfOk result (λ gs. gs ≡ Entail (first_goal_lem import.now own.now terms.now frame.now) ∷ Entail (second_goal_lem import.now own.now terms.now frame.now) ∷ []) }
{
    let mut steps = Steps::<L>::new(blank);
    let instance = own_instance(alloc, own, terms, &mut steps)?;
    let mut goals = GoalList::new(alloc);
    goals.push(Goal::Entail(first_goal(alloc, import, &instance, frame, &mut steps)?))?;
    goals.push(Goal::Entail(second_goal(alloc, import, &instance, frame, &mut steps)?))?;
    Ok(goals)
}

/// The two goals with which the proof of an import starts: its precondition gives that of the function's own specification at
/// these terms, and the parts beside it; and the own postcondition at them, with those parts, gives the import's.
///
/// Each free variable of the own specification that is one of WITH has the sort that it has there. Goals beyond the limits,
/// which no linked import has, are want of memory.
pub fn import_starts(
    alloc: Global,
    import: &Funspec,
    own: &Funspec,
    terms: &TermList,
    frame: &[Sep],
) -> Result<GoalList, AllocError>
    requires takes { TakesTerms own.now terms.now }
    ensures { IfOk result (λ gs. gs ≡ Entail (first_goal_lem import.now own.now terms.now frame.now) ∷ Entail (second_goal_lem import.now own.now terms.now frame.now) ∷ []) }
{
    starts_from::<Brand>(alloc, import, own, terms, frame, Blank::new(1))
}
