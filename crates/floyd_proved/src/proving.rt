ghost use Rattle.std.specs.Prelude.{◌≡◌};
ghost use Rattle.floyd_proved.specs.Claims.{IsProved};

use crate::claim::{Claim, Proved};
use floyd_assert_trees::{Defs, NameList, SpecTable};
use floyd_goal_trees::GoalList;
use floyd_text::{Name, Shared};

/// The proof of that name in the script of that number, as one that is played through. Each start goal holds for every
/// number of steps where the lemmas of `before` are true. It takes no memory.
pub fn proved(
    name: Name,
    file: u32,
    start: GoalList,
    before: NameList,
    defs: Shared<Defs>,
    specs: Shared<SpecTable>,
) -> Proved
    requires holds { IsProved (record { name = name; file = file; start = start; before = before; defs = defs; specs = specs }) }
    ensures { result ≡ record { name = name; file = file; start = start; before = before; defs = defs; specs = specs } }
{
    Proved {
        claim: Claim {
            name,
            file,
            start,
            before,
            defs,
            specs,
        },
    }
}
