//! The numbers of goals.
ghost use Rattle.std.specs.Prelude.{◌≡◌, ◌+◌, ◌<◌, ◌^◌, ◌∷◌, ◌++◌, [], drop, IfOk};
ghost use Rattle.floyd_play_steps.specs.Numbers.{first_number, numbers_behind};

use std::alloc::{AllocError, Global};
use std::marker::Model;
use std::rc::Rc;

/// The numbers of the goals that are left, the first one first: a list whose nodes are shared, so that what a command
/// leaves stands beside what was there before.
#[cycle(numbers)]
pub struct NumberList {
    alloc: Global,
    top: Option<Rc<NumberNode>>,
}

/// A number, and those behind it.
#[cycle(numbers)]
struct NumberNode {
    number: u32,
    below: NumberList,
}

impl Model for NumberList {
    ghost use Rattle.std.specs.Prelude.{List, ℕ};

    ghost Value = { List ℕ };

    ghost use Rattle.std.specs.Prelude.{length};
    ghost use Rattle.std.specs.Coded.{coded_list, coded_ℕ};

    ghost coded = { coded_list coded_ℕ };

    ghost use Rattle.floyd_play_steps.specs.NumberClauses.{numbers_in};
    ghost use Rattle.std.proofs.Common.{arith};

    ghost view = { λ s. numbers_in s.top };

    ghost size = { length };

    ghost size_decreases = { λ s h. Prim.grind (arith) };
}

impl NumberNode {
    /// What stands behind the number.
    fn into_below(self) -> NumberList
        ensures { result ≡ self.below }
    {
        let NumberNode { number: _, below } = self;
        below
    }
}

impl Drop for NumberNode {
    fn drop(self) {
        let NumberNode { number: _, below } = self;
        drop(below);
    }
}

/// A loop, since a list may have more nodes than calls have room.
impl Drop for NumberList {
    fn drop(mut self) {
        'nodes: loop {
            match self {
                NumberList {
                    alloc: _,
                    top: None,
                } => return,
                NumberList {
                    alloc: _,
                    top: Some(node),
                } => match Rc::into_inner(node) {
                    None => return,
                    Some(node) => self = node.into_below(),
                },
            }
        }
    }
}

impl NumberList {
    pub fn new(alloc: Global) -> NumberList
        ensures { result ≡ [] }
    {
        NumberList { alloc, top: None }
    }

    /// The first number, and 0 where there is none.
    pub fn first(&self) -> u32
        ensures { result ≡ first_number self.now }
    {
        match &self.top {
            None => 0,
            Some(node) => node.number,
        }
    }

    /// Another owner of the same numbers.
    pub fn share(&self) -> Result<NumberList, AllocError>
        ensures { IfOk result (λ s. s ≡ self.now) }
    {
        let top = match &self.top {
            None => None,
            Some(node) => Some(node.clone()?),
        };
        Ok(NumberList {
            alloc: self.alloc,
            top,
        })
    }

    /// The numbers behind the first one.
    fn behind(&self) -> Result<NumberList, AllocError>
        ensures { IfOk result (λ s. s ≡ drop 1 self.now) }
    {
        match &self.top {
            None => Ok(NumberList::new(self.alloc)),
            Some(node) => node.below.share(),
        }
    }

    /// The number before these numbers.
    fn under(self, number: u32) -> Result<NumberList, AllocError>
        ensures { IfOk result (λ s. s ≡ number ∷ self) }
    {
        let alloc = self.alloc;
        let node = NumberNode {
            number,
            below: self,
        };
        Ok(NumberList {
            alloc,
            top: Some(Rc::new(alloc, node)?),
        })
    }

    /// So many numbers that follow a number, before these.
    fn under_all(self, made: u32, count: u32) -> Result<NumberList, AllocError>
        requires { made + count < 2 ^ 32 }
        ensures { IfOk result (λ s. s ≡ numbers_behind made count ++ self) }
    {
        let mut left = count;
        let mut list = self;
        'numbers: while left > 0 {
            list = list.under(made + left)?;
            left -= 1;
        }
        Ok(list)
    }

    /// So many numbers that follow a number, in place of the first one. The list itself stays as it is.
    pub fn with_made(&self, made: u32, count: u32) -> Result<NumberList, AllocError>
        requires { made + count < 2 ^ 32 }
        ensures { IfOk result (λ s. s ≡ numbers_behind made count ++ drop 1 self.now) }
    {
        self.behind()?.under_all(made, count)
    }
}
