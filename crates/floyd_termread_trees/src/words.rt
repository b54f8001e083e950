use floyd_int::IntKind;
use floyd_tree_sorts::Operator;

/// A word of the grammar of specifications: no name of its own may be one.
#[derive(Clone, Copy, PartialEq, Eq, Debug)]
pub enum Word {
    Sort(SortWord),
    Type(TypeWord),
    Formula(FormulaWord),
    Term(TermWord),
    /// A word of items, specifications, assertions and parts.
    Item,
}

#[derive(Clone, Copy, PartialEq, Eq, Debug)]
pub enum SortWord {
    Z,
    Val,
    List,
    Tree,
    Prod,
}

#[derive(Clone, Copy, PartialEq, Eq, Debug)]
pub enum TypeWord {
    Void,
    /// `char`, `uchar`, `short`, `ushort`, `int`, `uint`, `long` and `ulong`.
    Int(IntKind),
    Ptr,
    Struct,
    Array,
    Fn,
}

#[derive(Clone, Copy, PartialEq, Eq, Debug)]
pub enum FormulaWord {
    Or,
    And,
    Not,
    Forall,
    Exists,
    True,
    False,
    IsPtr,
    Defined,
    Hasty,
    Compatible,
    FuncPtr,
}

#[derive(Clone, Copy, PartialEq, Eq, Debug)]
pub enum TermWord {
    /// A built-in operator that has a word.
    Operator(Operator),
    Nil,
    Leaf,
    Gv,
    Lv,
    Signed,
    Unsigned,
    Default,
}
