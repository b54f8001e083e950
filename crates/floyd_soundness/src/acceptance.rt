use floyd_assert_trees::NameList;
use floyd_linked::Linked;
use floyd_text::Name;
use std::marker::Model;

/// A linked program that was accepted, with the names that its text has. It is sound.
pub struct Accepted {
    pub(crate) linked: Linked,
    pub(crate) proved: NameList,
    pub(crate) trusted: NameList,
}

impl Model for Accepted {
    ghost use Rattle.floyd_goal_meaning.specs.declared.linked.Linked as p;
    ghost use Rattle.floyd_goal_meaning.specs.contracts.linked.Linked as c;
    ghost use Rattle.floyd_soundness.specs.Accepted.{IsAccepted};

    ghost Value = { p.Linked };

    ghost coded = { c.the_row.coded };

    ghost view = { λ a. a.linked };

    ghost invariant = { λ a. IsAccepted a.linked a.proved a.trusted };
}

impl Drop for Accepted {
    fn drop(self) {
        let Accepted {
            linked,
            proved,
            trusted,
        } = self;
        drop(linked);
        drop(proved);
        drop(trusted);
    }
}

impl Accepted {
    ghost use Rattle.std.specs.Prelude.{◌≡◌};
    ghost use Rattle.floyd_soundness.specs.Accepted.{IsSoundProgram, proved_names, trusted_names};

    /// The program. For every choice of blocks for its names no run of it is ever stuck, and each call that returns meets
    /// its specification.
    pub fn linked(&self) -> &Linked
        ensures is { result.now ≡ self.now }
        ensures sound { IsSoundProgram self.now }
    {
        &self.linked
    }

    /// The names of the functions with a body, in link order.
    pub fn proved(&self) -> &[Name]
        ensures { result.now ≡ proved_names self.now }
    {
        self.proved.as_slice()
    }

    /// The names of the external functions that have a specification, in link order.
    pub fn trusted(&self) -> &[Name]
        ensures { result.now ≡ trusted_names self.now }
    {
        self.trusted.as_slice()
    }
}
