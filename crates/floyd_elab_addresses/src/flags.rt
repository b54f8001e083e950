ghost use Rattle.std.specs.Prelude.{◌≡◌, [], ◌∷◌, MatchOption, OnOk};

use std::alloc::{AllocError, Global};
use std::marker::Model;

/// For each declared variable, in the order of the text, whether its address is taken.
pub struct Flags {
    /// The last one first.
    flags: Vec<bool>,
}

impl Drop for Flags {
    fn drop(self) {
        let Flags { flags } = self;
        drop(flags);
    }
}

impl Model for Flags {
    ghost use Rattle.std.specs.Prelude.{Bool, List, reverse};

    ghost Value = { List Bool };

    ghost view = { λ f. reverse f.flags.items };
}

impl Flags {
    pub(crate) fn new(alloc: Global) -> Flags
        ensures { result ≡ [] }
    {
        Flags {
            flags: Vec::new(alloc),
        }
    }

    /// Puts a flag before all others.
    pub(crate) fn push_first(&mut self, flag: bool) -> Result<(), AllocError>
        ensures { OnOk result (self.new ≡ flag ∷ self.old) }
    {
        self.flags.push(flag)?;
        Ok(())
    }

    /// Takes the first flag.
    pub fn pop_first(&mut self) -> Option<bool>
        ensures { MatchOption result ((self.old ≡ []) × (self.new ≡ [])) (λ flag. self.old ≡ flag ∷ self.new) }
    {
        self.flags.pop()
    }
}
