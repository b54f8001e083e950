ghost use Rattle.std.specs.Prelude.{◌≡◌, IfOk, IsTrue, ◌↔◌};

use std::alloc::{AllocError, Global};
use std::hash::{Hash, Hasher};
use std::marker::Model;
use std::rc::Rc;

/// A name of a program, a specification or a file, which contracts see as the list of its bytes. It is shared and
/// not copied.
#[derive(Debug)]
pub struct Name {
    bytes: Rc<Vec<u8>>,
}

impl Drop for Name {
    fn drop(self) {
        let Name { bytes } = self;
        drop(bytes);
    }
}

impl Model for Name {
    ghost use Rattle.std.specs.Prelude.{List, ℕ};

    ghost Value = { List ℕ };

    ghost view = { λ n. n.bytes.value.items };
}

impl Name {
    pub fn new(alloc: Global, bytes: Vec<u8>) -> Result<Name, AllocError>
        ensures { IfOk result (λ n. n ≡ bytes.items) }
    {
        Ok(Name {
            bytes: Rc::new(alloc, bytes)?,
        })
    }

    pub fn from_slice(alloc: Global, bytes: &[u8]) -> Result<Name, AllocError>
        ensures { IfOk result (λ n. n ≡ bytes.now) }
    {
        Name::new(alloc, Vec::from_slice(alloc, bytes)?)
    }

    /// Another owner of the same bytes.
    pub fn share(&self) -> Result<Name, AllocError>
        ensures { IfOk result (λ n. n ≡ self.now) }
    {
        Ok(Name {
            bytes: self.bytes.clone()?,
        })
    }

    pub fn as_slice(&self) -> &[u8]
        ensures { result.now ≡ self.now }
    {
        self.bytes.as_slice()
    }

    pub fn same(&self, other: &Name) -> bool
        ensures { IsTrue result ↔ (self.now ≡ other.now) }
    {
        self == other
    }
}

impl PartialEq for Name {
    ghost use Rattle.std.specs.Prelude.{bytes_eq};
    ghost use Rattle.std.proofs.Common.{rules};
    ghost use Rattle.std.specs.Cmp.Rules.{comparing};

    ghost eq = { bytes_eq };

    ghost laws = { Prim.search (comparing, rules) };

    fn eq(&self, other: &Name) -> bool {
        self.bytes.as_slice() == other.bytes.as_slice()
    }
}

impl Eq for Name {
    ghost use Rattle.std.proofs.Common.{rules};
    ghost use Rattle.std.specs.Cmp.Rules.{comparing};

    ghost laws = { Prim.search (comparing, rules) };
}

impl Clone for Name {
    ghost is_clone = { λ n copy. copy ≡ n };

    fn clone(&self) -> Result<Name, AllocError> {
        self.share()
    }
}

impl Hash for Name {
    ghost use Rattle.std.proofs.Common.{rules};
    ghost use Rattle.std.specs.Cmp.Rules.{hashing};
    ghost use Rattle.std.specs.Hash as fed;

    ghost hash_input = { λ n. fed.slice fed.u8 n };

    ghost respects_eq = { Prim.search (hashing, rules) };

    fn hash<H: Hasher>(&self, state: &mut H) {
        self.bytes.as_slice().hash(state)
    }
}
