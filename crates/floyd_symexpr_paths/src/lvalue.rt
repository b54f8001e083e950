use floyd_ctypes::CType;
use floyd_symexpr_rows::Number;
use floyd_tree::{AType, PathStep, Term};
use sqlite_items::Items;

/// Numbers in order.
pub type NumberList = Items<Number>;

/// Steps in order.
pub type TakenList = Items<Taken>;

/// The object that an expression stands for.
pub struct Lvalue {
    /// The address of a variable, or the value of a pointer.
    pub root: Term,
    /// Whether the root is a pointer's value.
    pub is_value: bool,
    /// The type of the whole object at the root.
    pub whole: CType,
    /// The path in it.
    pub form: TakenList,
    /// The subscripts, with their kinds.
    pub subscripts: NumberList,
}

impl Drop for Lvalue {
    fn drop(self) {
        let Lvalue {
            root,
            is_value: _,
            whole,
            form,
            subscripts,
        } = self;
        drop(root);
        drop(whole);
        drop(form);
        drop(subscripts);
    }
}

/// A step of a form of a path, with the type beside it: that of the struct before a field, or of the element after a
/// subscript. A step that was added has none.
pub struct Taken {
    pub step: PathStep,
    pub ty: Option<AType>,
}

impl Drop for Taken {
    fn drop(self) {
        let Taken { step, ty } = self;
        drop(step);
        drop(ty);
    }
}
