use crate::binder::{BinderList, NameList};
use crate::sep::SepList;
use crate::table::Table;
use floyd_text::Name;
use floyd_tree::{AType, FormulaList, Term, TermList};
use sqlite_items::Items;

/// Types in order, as those of a function's parameters.
pub type TypeList = Items<AType>;

/// What a function asks of its caller: formulas, the values of its arguments, and memory. `globals` claims nothing.
pub struct Precondition {
    pub props: FormulaList,
    pub params: TermList,
    pub globals: NameList,
    pub parts: SepList,
}

impl Drop for Precondition {
    fn drop(self) {
        let Precondition {
            props,
            params,
            globals,
            parts,
        } = self;
        drop(props);
        drop(params);
        drop(globals);
        drop(parts);
    }
}

/// What a function gives back: for some data for the existentials the formulas are true, its result is the value, where
/// it has one, and memory is as the parts say.
pub struct Postcondition {
    pub existentials: BinderList,
    pub props: FormulaList,
    pub value: Option<Term>,
    pub parts: SepList,
}

impl Drop for Postcondition {
    fn drop(self) {
        let Postcondition {
            existentials,
            props,
            value,
            parts,
        } = self;
        drop(existentials);
        drop(props);
        drop(value);
        drop(parts);
    }
}

/// The specification of a function, for all data for the variables of WITH. It may carry the name of a SPEC.
pub struct Funspec {
    pub name: Option<Name>,
    pub with: BinderList,
    pub params: TypeList,
    pub result: AType,
    pub pre: Precondition,
    pub post: Postcondition,
}

impl Drop for Funspec {
    fn drop(self) {
        let Funspec {
            name,
            with,
            params,
            result,
            pre,
            post,
        } = self;
        drop(name);
        drop(with);
        drop(params);
        drop(result);
        drop(pre);
        drop(post);
    }
}

/// The specifications of functions, and the SPEC items that are visible, each by name and in order.
pub struct SpecTable {
    pub functions: Table<Funspec>,
    pub items: Table<Funspec>,
}

impl Drop for SpecTable {
    fn drop(self) {
        let SpecTable { functions, items } = self;
        drop(functions);
        drop(items);
    }
}
