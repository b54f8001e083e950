use floyd_assert_trees::{Defs, NameList, SpecTable};
use floyd_goal_trees::GoalList;
use floyd_text::{Name, Shared};
use sqlite_items::Items;
use std::marker::Model;

/// What is proved: the name of a function or a lemma in the script of that number, its start goals, the names of the lemmas
/// that its proof may use, and what the proof stands on.
pub struct Claim {
    pub name: Name,
    /// The number of the script's file.
    pub file: u32,
    pub start: GoalList,
    pub before: NameList,
    pub defs: Shared<Defs>,
    pub specs: Shared<SpecTable>,
}

impl Drop for Claim {
    fn drop(self) {
        let Claim {
            name,
            file: _,
            start,
            before,
            defs,
            specs,
        } = self;
        drop(name);
        drop(start);
        drop(before);
        drop(defs);
        drop(specs);
    }
}

/// A claim that is proved: each of its start goals holds for every number of steps, where the lemmas that it may use are
/// true.
pub struct Proved {
    pub(crate) claim: Claim,
}

impl Model for Proved {
    ghost use Rattle.floyd_proved.specs.declared.claim.Claim.{Claim};
    ghost use Rattle.floyd_proved.specs.contracts.claim.Claim as c;
    ghost use Rattle.floyd_proved.specs.Claims.{IsProved};

    ghost Value = { Claim };

    ghost coded = { c.the_row.coded };

    ghost view = { λ p. p.claim };

    ghost invariant = { λ p. IsProved p.claim };
}

impl Drop for Proved {
    fn drop(self) {
        let Proved { claim } = self;
        drop(claim);
    }
}

/// Proofs in the order in which they were played.
pub type ProvedList = Items<Proved>;

impl Proved {
    ghost use Rattle.std.specs.Prelude.{◌≡◌};
    ghost use Rattle.floyd_proved.specs.Claims.{IsProved};

    /// What is proved.
    pub fn claim(&self) -> &Claim
        ensures is { result.now ≡ self.now }
        ensures holds { IsProved self.now }
    {
        &self.claim
    }
}
