use crate::types::{Identifier, Literal, TypeName};
use floyd_int::IntOp;
use floyd_text::Place;
use sqlite_items::{Boxed, Items};

/// `-`, `+`, `~`, `!`, `*` and `&` before an operand.
#[derive(Clone, Copy, PartialEq, Eq, Debug)]
pub enum PrefixOp {
    Minus,
    Plus,
    Complement,
    Not,
    Dereference,
    Address,
}

/// `++` and `--`.
#[derive(Clone, Copy, PartialEq, Eq, Debug)]
pub enum StepOp {
    Increment,
    Decrement,
}

/// An operator or cast before an operand, with the place of its first token.
pub enum Prefix {
    Op(PrefixOp, Place),
    Step(StepOp, Place),
    Cast(TypeName, Place),
}

impl Drop for Prefix {
    fn drop(self) {
        match self {
            Prefix::Op(prefix_op, _) => drop(prefix_op),
            Prefix::Step(step_op, _) => drop(step_op),
            Prefix::Cast(type_name, _) => drop(type_name),
        }
    }
}

/// `.` and `->`.
#[derive(Clone, Copy, PartialEq, Eq, Debug)]
pub enum MemberOp {
    Dot,
    Arrow,
}

/// A binary operator: one on integers, `&&` or `||`.
#[derive(Clone, Copy, PartialEq, Eq, Debug)]
pub enum BinaryOp {
    Int(IntOp),
    And,
    Or,
}

/// An expression as it is written. `place` is that of the operator, the opening bracket or `sizeof`. Assignments, `++`,
/// `--` and calls may stand anywhere in it. It is nested no deeper than a small multiple of the limit on depth.
pub enum CExpr {
    Name(Identifier),
    Literal(Literal),
    Parenthesised(Boxed<CExpr>),
    /// Operators and casts before an operand, at least one. The last binds first.
    Prefixed {
        prefixes: Items<Prefix>,
        operand: Boxed<CExpr>,
    },
    SizeOf {
        place: Place,
        type_name: Boxed<TypeName>,
    },
    /// `++` or `--` behind its operand.
    PostfixStep {
        operand: Boxed<CExpr>,
        op: StepOp,
        place: Place,
    },
    Index {
        array: Boxed<CExpr>,
        place: Place,
        index: Boxed<CExpr>,
    },
    Call {
        function: Boxed<CExpr>,
        place: Place,
        arguments: Items<CExpr>,
    },
    Member {
        operand: Boxed<CExpr>,
        op: MemberOp,
        place: Place,
        field: Identifier,
    },
    Binary {
        left: Boxed<CExpr>,
        op: BinaryOp,
        place: Place,
        right: Boxed<CExpr>,
    },
    Conditional {
        condition: Boxed<CExpr>,
        place: Place,
        then: Boxed<CExpr>,
        otherwise: Boxed<CExpr>,
    },
    /// `=`, or with an operator `op=`.
    Assign {
        target: Boxed<CExpr>,
        op: Option<IntOp>,
        place: Place,
        value: Boxed<CExpr>,
    },
}

impl Drop for CExpr {
    fn drop(self) {
        match self {
            CExpr::Name(identifier) => drop(identifier),
            CExpr::Literal(literal) => drop(literal),
            CExpr::Parenthesised(expression) => drop(expression),
            CExpr::Prefixed { prefixes, operand } => {
                drop(prefixes);
                drop(operand);
            }
            CExpr::SizeOf {
                place: _,
                type_name,
            } => drop(type_name),
            CExpr::PostfixStep {
                operand,
                op,
                place: _,
            } => {
                drop(operand);
                drop(op);
            }
            CExpr::Index {
                array,
                place: _,
                index,
            } => {
                drop(array);
                drop(index);
            }
            CExpr::Call {
                function,
                place: _,
                arguments,
            } => {
                drop(function);
                drop(arguments);
            }
            CExpr::Member {
                operand,
                op,
                place: _,
                field,
            } => {
                drop(operand);
                drop(op);
                drop(field);
            }
            CExpr::Binary {
                left,
                op: _,
                place: _,
                right,
            } => {
                drop(left);
                drop(right);
            }
            CExpr::Conditional {
                condition,
                place: _,
                then,
                otherwise,
            } => {
                drop(condition);
                drop(then);
                drop(otherwise);
            }
            CExpr::Assign {
                target,
                op: _,
                place: _,
                value,
            } => {
                drop(target);
                drop(value);
            }
        }
    }
}
