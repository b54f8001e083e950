ghost use Rattle.std.specs.Prelude.{◌≡◌, IfOk};
ghost use Rattle.floyd_stub_assert.specs.Terms.{same_term};
ghost use Rattle.floyd_stub_assert.specs.declared.term.Term.{Number, Vint};

use floyd_text::Shared;
use std::alloc::{AllocError, Global};

/// A term of a specification.
pub enum Term {
    /// A literal of sort Z.
    Number(u64),
    /// The int with the bits of a number, of sort val.
    Vint(Shared<Term>),
}

impl Drop for Term {
    fn drop(self) {
        match self {
            Term::Number(_) => {}
            Term::Vint(term) => drop(term),
        }
    }
}

impl Term {
    /// The int of a literal.
    pub fn vint(alloc: Global, number: u64) -> Result<Term, AllocError>
        ensures { IfOk result (λ t. t ≡ Vint (Number number)) }
    {
        Ok(Term::Vint(Shared::new(alloc, Term::Number(number))?))
    }

    /// Another owner of the same term.
    pub fn share(&self) -> Result<Term, AllocError>
        ensures { IfOk result (λ t. t ≡ self.now) }
    {
        match self {
            Term::Number(number) => Ok(Term::Number(*number)),
            Term::Vint(term) => Ok(Term::Vint(term.share()?)),
        }
    }

    pub fn same(&self, other: &Term) -> bool
        ensures { result ≡ same_term self.now other.now }
    {
        match (self, other) {
            (Term::Number(m), Term::Number(n)) => m == n,
            (Term::Vint(a), Term::Vint(b)) => a.get().same(b.get()),
            _ => false,
        }
    }
}
