//! What was read so far.
ghost use Rattle.std.specs.Prelude.{◌≡◌, []};
ghost use Rattle.floyd_termread.specs.Brackets.{outermost};
ghost use Rattle.floyd_specread_state.specs.States as specs;

use floyd_assert_trees::{Defs, Fun, Funspec, Lemma, NameList, Names, Pred, Table};
use floyd_ctypes::StructTable;
use floyd_specread_trees::{DeclarationList, LockList, SpecItems};
use floyd_termread_scope::{Scope, Variables};
use sqlite_items::Items;
use std::alloc::Global;

/// What was read so far of a specification file, with what its imports made visible. What names stand for is in `sight` and
/// in `specs_in_sight`: items there are bare, since nothing that is read looks at a body.
pub struct State {
    pub sight: Defs,
    pub specs_in_sight: Table<Funspec>,
    pub funs: Table<Fun>,
    pub preds: Table<Pred>,
    pub lemmas: Table<Lemma>,
    pub specs: SpecItems,
    pub imports: NameList,
    pub declarations: DeclarationList,
    pub locks: LockList,
}

impl Drop for State {
    fn drop(self) {
        let State {
            sight,
            specs_in_sight,
            funs,
            preds,
            lemmas,
            specs,
            imports,
            declarations,
            locks,
        } = self;
        drop(sight);
        drop(specs_in_sight);
        drop(funs);
        drop(preds);
        drop(lemmas);
        drop(specs);
        drop(imports);
        drop(declarations);
        drop(locks);
    }
}

/// Structs and names, and no items.
fn no_items(alloc: Global, structs: StructTable, globals: Names, home: u32) -> Defs
    ensures { result ≡ specs.no_items structs globals home }
{
    Defs {
        structs,
        globals,
        funs: Table::new(alloc),
        preds: Table::new(alloc),
        lemmas: Table::new(alloc),
        proved: Table::new(alloc),
        home,
    }
}

impl State {
    /// Nothing was read. `home` is the number of the module.
    pub fn new(alloc: Global, structs: StructTable, globals: Names, home: u32) -> State
        ensures { result ≡ specs.at_first structs globals home }
    {
        State {
            sight: no_items(alloc, structs, globals, home),
            specs_in_sight: Table::new(alloc),
            funs: Table::new(alloc),
            preds: Table::new(alloc),
            lemmas: Table::new(alloc),
            specs: Table::new(alloc),
            imports: Items::new(alloc),
            declarations: Items::new(alloc),
            locks: Items::new(alloc),
        }
    }

    /// What names stand for. No variables are bound, and `lv` may not stand.
    pub fn scope(&self, alloc: Global) -> Scope<'_>
        ensures { outermost result ≡ specs.env_of self.now }
    {
        Scope {
            variables: Variables::new(alloc),
            defs: &self.sight,
            specs: &self.specs_in_sight,
            locals: None,
        }
    }
}
