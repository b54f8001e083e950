ghost use Rattle.std.specs.Prelude.{◌≡◌, IfOk};
ghost use Rattle.floyd_stub_soundness.specs.Programs.{spec_of as spec_of_lem};

use floyd_clight::{Stmt, StmtList};
use floyd_stub_assert::{Assertion, Funspec, Locals, Precondition, Term};
use sqlite_items::Items;
use std::alloc::{AllocError, Global};

/// What the files of a project say: the statements of `main`, and the int that it returns.
pub struct MainProgram {
    pub statements: StmtList,
    pub value: u32,
}

impl Drop for MainProgram {
    fn drop(self) {
        let MainProgram {
            statements,
            value: _,
        } = self;
        drop(statements);
    }
}

/// The same statements.
pub(crate) fn shared_statements(alloc: Global, statements: &[Stmt]) -> Result<StmtList, AllocError>
    ensures { IfOk result (λ all. all ≡ statements.now) }
{
    let mut all = Items::new(alloc);
    'statements: for statement in statements {
        all.push(statement.share(alloc)?)?;
    }
    Ok(all)
}

/// The specification of a main that returns this int.
pub(crate) fn spec_of(alloc: Global, value: u32) -> Result<Funspec, AllocError>
    ensures { IfOk result (λ s. s ≡ spec_of_lem value) }
{
    Ok(Funspec {
        pre: Precondition::Main,
        post: Assertion {
            prop: Items::new(alloc),
            local: Locals::new(alloc),
            sep: Items::new(alloc),
        },
        value: Term::vint(alloc, u64::from(value))?,
    })
}
