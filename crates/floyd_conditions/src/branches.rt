ghost use Rattle.std.specs.Prelude.{◌≡◌};
ghost use Rattle.floyd_conditions.specs.Conditions.{exchanged as exchanged_lem};

use floyd_symexpr_rows::Needs;
use floyd_tree::Formula;

/// What holds where a test is met, and where it is not.
pub struct Branches {
    pub met: Formula,
    pub unmet: Formula,
}

impl Drop for Branches {
    fn drop(self) {
        let Branches { met, unmet } = self;
        drop(met);
        drop(unmet);
    }
}

impl Branches {
    /// What holds where the negated test is met.
    pub(crate) fn exchanged(self) -> Branches
        ensures { result ≡ exchanged_lem self }
    {
        let Branches { met, unmet } = self;
        Branches {
            met: unmet,
            unmet: met,
        }
    }
}

/// What holds in the branches of a test, and what it needs.
pub struct Condition {
    pub branches: Branches,
    pub needs: Needs,
}

impl Drop for Condition {
    fn drop(self) {
        let Condition { branches, needs } = self;
        drop(branches);
        drop(needs);
    }
}
