ghost use Rattle.std.specs.Prelude.{◌≡◌, Some, IfOk};
ghost use Rattle.floyd_assert_instances.specs.Specifications.{TakesTerms};
ghost use Rattle.floyd_links.specs.Links.{Links};
ghost use Rattle.floyd_linked.specs.Found.{import_in};
ghost use Rattle.floyd_program_soundness.specs.Proofs.{ImportOf, OfImport, StartsWith};

use floyd_goal_meaning::Module;
use floyd_goal_trees::GoalList;
use floyd_import_starts::import_starts as starts_of;
use floyd_linked::Linked;
use floyd_text::Name;
use std::alloc::{AllocError, Global};

/// The two start goals of an import with a specification of its own.
pub(crate) fn import_starts(
    alloc: Global,
    linked: &Linked,
    number: usize,
    module: &Module,
    name: &Name,
) -> Result<GoalList, AllocError>
    requires links { Links linked.now }
    requires there { (i : ImportOf linked.now «module».now name.now) × (import_in linked.now number name.now ≡ Some i.by'.import) }
    ensures { IfOk result (StartsWith linked.now «module».now OfImport name.now) }
{
    let Some(spec) = module.specs.get().functions.get(name) else {
        unreachable!()
    };
    let Some(function) = linked.function(name) else {
        unreachable!()
    };
    let Some(own) = &function.own else {
        unreachable!()
    };
    let Some(import) = linked.import(number, name) else {
        unreachable!()
    };
    starts_of(
        alloc,
        spec,
        own.get(),
        &import.terms,
        import.frame.as_slice(),
    )
}
