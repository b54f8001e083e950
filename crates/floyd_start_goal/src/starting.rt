ghost use Rattle.std.specs.Prelude.{◌≡◌, ◌∷◌, [], Some, IfOk, bytes_eq};
ghost use Rattle.std.specs.Map.{lookup};
ghost use Rattle.floyd_assert_trees.specs.declared.items.Lemma.{Lemma};
ghost use Rattle.floyd_goal_forms.specs.Starts.{lemma_start as lemma_start_lem};
ghost use Rattle.floyd_links.specs.Links.{Links};
ghost use Rattle.floyd_start_goal.specs.Starts.{CanStart, IsStart};

use crate::bodies::body_starts;
use crate::imports::import_starts;
use floyd_goal_meaning::Module;
use floyd_goal_trees::GoalList;
use floyd_linked::Linked;
use floyd_soundness::{Kind, kind_in};
use floyd_starts::lemma_start;
use floyd_text::Name;
use std::alloc::{AllocError, Global};

fn lemma_starts(alloc: Global, module: &Module, name: &Name) -> Result<GoalList, AllocError>
    requires there { (a : Lemma) × (lookup (bytes_eq name.now) «module».now.defs.lemmas ≡ Some a) }
    ensures { IfOk result (λ goals. (a : Lemma) × (lookup (bytes_eq name.now) «module».now.defs.lemmas ≡ Some a) × (goals ≡ lemma_start_lem name.now a ∷ [])) }
{
    let Some(lemma) = module.defs.get().lemmas.get(name) else {
        unreachable!()
    };
    let mut goals = GoalList::new(alloc);
    goals.push(lemma_start(alloc, name, lemma)?)?;
    Ok(goals)
}

/// The goals with which the proof of that name starts in the module of that number: one for a lemma of the module or a
/// function with a body that the module declares, and two for an import with a specification of its own.
pub fn start_goal(
    alloc: Global,
    linked: &Linked,
    module: u32,
    name: &Name,
) -> Result<GoalList, AllocError>
    requires links { Links linked.now }
    requires can { CanStart linked.now «module» name.now }
    ensures exact { IfOk result (IsStart linked.now «module» name.now) }
{
    let number = module as usize;
    let Some(home) = linked.parts().modules.get(number) else {
        unreachable!()
    };
    match kind_in(linked, number, name) {
        Kind::Lemma => lemma_starts(alloc, home, name),
        Kind::Body => body_starts(alloc, linked, home, name),
        Kind::Import => import_starts(alloc, linked, number, home, name),
    }
}
