use floyd_clight::{Stmt, StmtList};
use floyd_text::Shared;
use std::alloc::AllocError;
use std::marker::Model;

/// The statements that are left of a list: the list, which is shared, and a position in it. Contracts see what is left.
pub struct Rest {
    all: Shared<StmtList>,
    at: usize,
}

impl Drop for Rest {
    fn drop(self) {
        let Rest { all, at: _ } = self;
        drop(all);
    }
}

impl Model for Rest {
    ghost use Rattle.std.specs.Prelude.{List, drop};
    ghost use Rattle.floyd_clight.specs.declared.syntax.Stmt.{Stmt};
    ghost use Rattle.floyd_clight.specs.contracts.syntax.Stmt as s;
    ghost use Rattle.std.specs.Coded.{codes};

    ghost Value = { List Stmt };

    ghost coded = { Prim.hlevel (codes, s.the_row.coded) };

    ghost view = { λ r. drop r.at r.all };
}

impl Rest {
    ghost use Rattle.std.specs.Prelude.{◌≡◌, IfOk, IsTrue, ◌↔◌, [], slice_get, drop};
    ghost use Rattle.std.specs.Option.{option_copied};

    /// All of these statements.
    pub fn new(all: Shared<StmtList>) -> Rest
        ensures { result ≡ all }
    {
        Rest { all, at: 0 }
    }

    /// The same statements, which are not copied.
    pub fn share(&self) -> Result<Rest, AllocError>
        ensures { IfOk result (λ r. r ≡ self.now) }
    {
        Ok(Rest {
            all: self.all.share()?,
            at: self.at,
        })
    }

    /// The next statement.
    pub fn first(&self) -> Option<&Stmt>
        ensures { option_copied result ≡ slice_get self.now 0 }
    {
        self.all.get().get(self.at)
    }

    pub fn is_empty(&self) -> bool
        ensures { IsTrue result ↔ (self.now ≡ []) }
    {
        self.at >= self.all.get().len()
    }

    /// Goes on behind the next statement, if there is one.
    pub fn advance(&mut self)
        ensures { self.new ≡ drop 1 self.old }
    {
        if self.at < self.all.get().len() {
            self.at += 1;
        }
    }
}
