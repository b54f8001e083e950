use floyd_assert_trees::{Defs, Funspec, SepList, SpecTable};
use floyd_clight::{Defined, Initial};
use floyd_ctypes::{CType, StructTable, TypeList};
use floyd_text::{Name, Place, Shared};
use floyd_tree::TermList;
use sqlite_items::Items;

/// A global variable of a project, with its contents at the start. It is read-only where its type is const at the top in
/// the declaration that defines it.
pub struct LinkedVariable {
    pub name: Name,
    pub ctype: CType,
    pub contents: Initial,
    pub read_only: bool,
}

impl Drop for LinkedVariable {
    fn drop(self) {
        let LinkedVariable {
            name,
            ctype,
            contents,
            read_only: _,
        } = self;
        drop(name);
        drop(ctype);
        drop(contents);
    }
}

/// Variables in link order.
pub type LinkedVariableList = Items<LinkedVariable>;

/// A function of a project. `place` is that of its name where it is defined, or else first declared, and `own` is the
/// specification that its module, or the EXTERN item of an external function, gives it.
pub struct LinkedFunction {
    pub name: Name,
    pub place: Place,
    pub parameters: TypeList,
    pub result: CType,
    pub own: Option<Shared<Funspec>>,
    /// What it does, unless it is external.
    pub body: Option<Defined>,
}

impl Drop for LinkedFunction {
    fn drop(self) {
        let LinkedFunction {
            name,
            place: _,
            parameters,
            result,
            own,
            body,
        } = self;
        drop(name);
        drop(parameters);
        drop(result);
        drop(own);
        drop(body);
    }
}

/// Functions in link order.
pub type LinkedFunctionList = Items<LinkedFunction>;

/// An import with a specification of its own: the terms that stand for the WITH variables of the function's own
/// specification, and the parts of memory beside it.
pub struct ImportBy {
    pub name: Name,
    pub place: Place,
    pub terms: TermList,
    pub frame: SepList,
}

impl Drop for ImportBy {
    fn drop(self) {
        let ImportBy {
            name,
            place: _,
            terms,
            frame,
        } = self;
        drop(name);
        drop(terms);
        drop(frame);
    }
}

/// Imports in order.
pub type ByList = Items<ImportBy>;

/// A module: what its proofs stand on, the specifications that it sees, and its imports with a specification of their own.
pub struct Module {
    pub defs: Shared<Defs>,
    pub specs: Shared<SpecTable>,
    pub imports: ByList,
}

impl Drop for Module {
    fn drop(self) {
        let Module {
            defs,
            specs,
            imports,
        } = self;
        drop(defs);
        drop(specs);
        drop(imports);
    }
}

/// Modules in the order of the project.
pub type ModuleList = Items<Module>;

/// A linked program: the structs, variables and functions of all sources, and the modules.
pub struct Linked {
    pub structs: StructTable,
    pub variables: LinkedVariableList,
    pub functions: LinkedFunctionList,
    pub modules: ModuleList,
}

impl Drop for Linked {
    fn drop(self) {
        let Linked {
            structs,
            variables,
            functions,
            modules,
        } = self;
        drop(structs);
        drop(variables);
        drop(functions);
        drop(modules);
    }
}
