//! The syntax trees of sources of C. Nodes keep the places that a later refusal may show.
#![tactic(auto)]

mod declarations;
mod expressions;
mod statements;
mod types;

pub use declarations::{
    CUnit, Constant, Declaration, External, FunctionDefinition, InitDeclarator, Initialiser,
    Typedef,
};
pub use expressions::{BinaryOp, CExpr, MemberOp, Prefix, PrefixOp, StepOp};
pub use statements::{
    BlockItem, CStatement, LocalDeclaration, LocalDeclarator, SwitchCase, SwitchLabel,
};
pub use types::{
    Base, Declarator, FieldDeclaration, Identifier, Literal, Parameter, Specifiers, Star, TypeName,
};
