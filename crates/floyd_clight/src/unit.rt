use crate::initial::Initial;
use crate::syntax::Stmt;
use floyd_ctypes::{CType, FieldList, TypeList};
use floyd_text::{Name, Place};
use sqlite_items::Items;

/// A struct that is complete.
pub struct StructDef {
    pub tag: Name,
    pub place: Place,
    pub fields: FieldList,
}

impl Drop for StructDef {
    fn drop(self) {
        let StructDef {
            tag,
            place: _,
            fields,
        } = self;
        drop(tag);
        drop(fields);
    }
}

pub type StructList = Items<StructDef>;

/// A global variable.
pub struct Variable {
    pub name: Name,
    pub place: Place,
    pub ctype: CType,
    /// Its contents at the start. There are none where it is only declared.
    pub contents: Option<Initial>,
}

impl Drop for Variable {
    fn drop(self) {
        let Variable {
            name,
            place: _,
            ctype,
            contents,
        } = self;
        drop(name);
        drop(ctype);
        drop(contents);
    }
}

pub type VariableList = Items<Variable>;

/// A function that is declared, by a definition too.
pub struct Declared {
    pub name: Name,
    pub place: Place,
    pub parameters: TypeList,
    pub result: CType,
}

impl Drop for Declared {
    fn drop(self) {
        let Declared {
            name,
            place: _,
            parameters,
            result,
        } = self;
        drop(name);
        drop(parameters);
        drop(result);
    }
}

pub type DeclaredList = Items<Declared>;

/// A variable of a function.
pub struct Local {
    pub name: Name,
    pub ctype: CType,
}

impl Drop for Local {
    fn drop(self) {
        let Local { name, ctype } = self;
        drop(name);
        drop(ctype);
    }
}

pub type LocalList = Items<Local>;

/// Local variables that have a place in memory, each a block of its own, in the order in which they are made.
pub type BlockList = Items<Local>;

/// A function with a body.
pub struct Defined {
    pub name: Name,
    pub place: Place,
    pub result: CType,
    /// They are temporaries too.
    pub parameters: LocalList,
    pub blocks: BlockList,
    /// The temporaries that are no parameters.
    pub temporaries: LocalList,
    pub body: Stmt,
}

impl Drop for Defined {
    fn drop(self) {
        let Defined {
            name,
            place: _,
            result,
            parameters,
            blocks,
            temporaries,
            body,
        } = self;
        drop(name);
        drop(result);
        drop(parameters);
        drop(blocks);
        drop(temporaries);
        drop(body);
    }
}

pub type DefinedList = Items<Defined>;

/// What a source stands for. Each place is that of the name.
pub struct ClightUnit {
    /// In the order in which they are completed.
    pub structs: StructList,
    /// In the order in which they are defined, and then those that are only declared.
    pub variables: VariableList,
    /// All functions, each once, in the order of their first declarations.
    pub declared: DeclaredList,
    /// Those with a body, in the order of their definitions.
    pub defined: DefinedList,
}

impl Drop for ClightUnit {
    fn drop(self) {
        let ClightUnit {
            structs,
            variables,
            declared,
            defined,
        } = self;
        drop(structs);
        drop(variables);
        drop(declared);
        drop(defined);
    }
}
