ghost use Rattle.std.specs.Prelude.{◌≡◌, IfOk};
ghost use Rattle.floyd_program_soundness.specs.Proofs.{BodyOf, OfBody, StartsWith};

use floyd_goal_meaning::Module;
use floyd_goal_trees::GoalList;
use floyd_linked::Linked;
use floyd_starts::function_start;
use floyd_text::Name;
use std::alloc::{AllocError, Global};

/// The start goal of a function with a body that the module declares.
pub(crate) fn body_starts(
    alloc: Global,
    linked: &Linked,
    module: &Module,
    name: &Name,
) -> Result<GoalList, AllocError>
    requires there { BodyOf linked.now «module».now name.now }
    ensures { IfOk result (StartsWith linked.now «module».now OfBody name.now) }
{
    let Some(spec) = module.specs.get().functions.get(name) else {
        unreachable!()
    };
    let Some(function) = linked.function(name) else {
        unreachable!()
    };
    let Some(body) = &function.body else {
        unreachable!()
    };
    let mut goals = GoalList::new(alloc);
    goals.push(function_start(alloc, &linked.parts().structs, spec, body)?)?;
    Ok(goals)
}
