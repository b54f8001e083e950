ghost use Rattle.std.specs.Prelude.{◌≡◌};

use std::alloc::{AllocError, AllocFailed};

/// Tokens that do not read.
#[derive(Clone, Copy, PartialEq, Eq, Debug)]
pub struct Fault {
    /// How many tokens are left where they stop to, the refused one with them; 0 at the end of the tokens.
    pub left: usize,
    /// For what the token is refused. Of two causes at one token the greater goes first; 0 says that it is only not
    /// wanted there.
    pub cause: u8,
}

/// Tokens that do not read, or want of memory, which no clause ties to anything.
#[derive(Clone, Copy, PartialEq, Eq, Debug)]
pub enum Stop {
    Fault(Fault),
    Memory,
}

impl From<AllocError> for Stop {
    ghost use Rattle.floyd_grammar.specs.declared.stop.Stop.TheVariants.{Memory};

    ghost from_gives = { λ _ e. e ≡ Memory };

    fn from(_error: AllocError) -> Stop {
        Stop::Memory
    }
}

impl<T: Drop> From<AllocFailed<T>> for Stop {
    ghost use Rattle.floyd_grammar.specs.declared.stop.Stop.TheVariants.{Memory};

    ghost from_gives = { λ _ e. e ≡ Memory };

    fn from(_error: AllocFailed<T>) -> Stop {
        Stop::Memory
    }
}
