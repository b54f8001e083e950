ghost use Rattle.std.specs.Prelude.{◌≡◌};

use crate::assertion::Assertion;
use crate::term::Term;

/// What a function asks of its caller.
#[derive(Clone, Copy, PartialEq, Eq, Debug)]
pub enum Precondition {
    /// That of `main`, MAIN_PRE: no arguments, and the memory of all global variables, of which there are none.
    Main,
}

/// The specification of a function: what it asks, and what it gives back besides the term of its result. The
/// postcondition has no LOCAL.
pub struct Funspec {
    pub pre: Precondition,
    pub post: Assertion,
    pub value: Term,
}

impl Funspec {
    pub fn into_parts(self) -> (Precondition, Assertion, Term)
        ensures { result ≡ (self.pre, self.post, self.value) }
    {
        let Funspec { pre, post, value } = self;
        (pre, post, value)
    }
}

impl Drop for Funspec {
    fn drop(self) {
        let Funspec { pre, post, value } = self;
        drop(pre);
        drop(post);
        drop(value);
    }
}
