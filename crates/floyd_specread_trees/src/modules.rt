use crate::declarations::{DeclarationList, LockList, SpecItems};
use floyd_assert_trees::{Defs, NameList};
use floyd_text::{Name, Shared};
use sqlite_items::Items;

/// The specification of a module: what is visible at its end, with what is visible by its imports; the names of the modules
/// that it imports, as they are written; its declarations; and its locks.
pub struct ModuleSpec {
    pub defs: Shared<Defs>,
    pub specs: Shared<SpecItems>,
    pub imports: NameList,
    pub declarations: DeclarationList,
    pub locks: LockList,
}

impl Drop for ModuleSpec {
    fn drop(self) {
        let ModuleSpec {
            defs,
            specs,
            imports,
            declarations,
            locks,
        } = self;
        drop(defs);
        drop(specs);
        drop(imports);
        drop(declarations);
        drop(locks);
    }
}

/// A module by its name, with what is visible at the end of its specification.
pub struct ModuleDefs {
    pub name: Name,
    pub defs: Shared<Defs>,
    pub specs: Shared<SpecItems>,
}

impl Drop for ModuleDefs {
    fn drop(self) {
        let ModuleDefs { name, defs, specs } = self;
        drop(name);
        drop(defs);
        drop(specs);
    }
}

/// The modules before one, in the order of the project.
pub type ProjectDefs = Items<ModuleDefs>;
