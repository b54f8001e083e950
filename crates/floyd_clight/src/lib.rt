//! Clight, in which expressions have no effects: its syntax.
#![tactic(auto)]

mod flatten;
mod initial;
mod syntax;
mod unit;
mod word;

pub use flatten::flat;
pub use initial::{Initial, InitialList};
pub use syntax::{Binding, Case, CaseList, Expr, ExprList, Stmt, StmtList, UnaryOp};
pub use unit::{
    BlockList, ClightUnit, Declared, DeclaredList, Defined, DefinedList, Local, LocalList,
    StructDef, StructList, Variable, VariableList,
};
pub use word::{Word, next_word};
