//! What is read of expressions, beside their trees: what is known there of the depth and of what may follow.

use floyd_cparse_trees::{
    BinaryOp, CExpr, Identifier, Literal, MemberOp, Prefix, PrefixOp, StepOp,
};
use floyd_int::IntOp;
use floyd_text::Place;
use sqlite_items::Items;

/// What an expression is, by which an assignment may follow and it may be a statement.
#[derive(Clone, Copy)]
pub enum Form {
    /// An unary expression that is an effect: `++`, `--` or a call.
    Effect,
    Unary,
    /// No unary expression, to which nothing can be assigned.
    Wide,
}

/// How an expression ends.
#[derive(Clone, Copy)]
pub struct Ending {
    /// The binary and postfix operators so far in the full expression.
    pub count: u32,
    /// What it is, or the last that was assigned in it.
    pub form: Form,
    /// It ends in an effect.
    pub effect: bool,
    /// It ends in `sizeof` and a type name.
    pub type_name: bool,
}

#[derive(Drop)]
pub struct Operand {
    pub tree: CExpr,
    pub end: Ending,
}

/// What a `,` is directly behind an expression.
#[derive(Clone, Copy)]
pub enum Comma {
    Separates,
    /// Not wanted, and left out of the profile behind an effect.
    Plain,
    /// Left out of the profile, as in parentheses that are not a call's.
    LeftOut,
}

/// Prefixes, with the operators so far in the full expression, and whether the last of them is a cast.
#[derive(Drop)]
pub struct Prefixes {
    pub items: Items<Prefix>,
    pub count: u32,
    pub cast: bool,
}

#[derive(Clone, Copy)]
pub enum PrefixStart {
    Op(PrefixOp, Place),
    Step(StepOp, Place),
    Cast(Place),
}

#[derive(Drop)]
pub enum OperandStart {
    Name(Identifier),
    Literal(Literal),
    Open(Place),
    SizeOf(Place),
}

#[derive(Clone, Copy)]
pub enum PostfixStart {
    Index(Place),
    Call(Place),
    Member(MemberOp, Place),
    Step(StepOp, Place),
}

/// `.` or `->`, where it stands.
#[derive(Clone, Copy)]
pub struct MemberMark {
    pub op: MemberOp,
    pub place: Place,
}

/// Arguments, and how the last of them ends.
#[derive(Drop)]
pub struct Arguments {
    pub items: Items<CExpr>,
    pub end: Ending,
}

#[derive(Clone, Copy)]
pub struct Infix {
    pub op: BinaryOp,
    pub place: Place,
}

/// `=`, or `op=` with its operator.
#[derive(Clone, Copy)]
pub struct Assigning {
    pub op: Option<IntOp>,
    pub place: Place,
}

#[derive(Drop)]
pub struct Target {
    pub tree: CExpr,
    pub by: Assigning,
}

/// Targets, each of what stands behind it, and what the last is assigned.
#[derive(Drop)]
pub struct Chain {
    pub targets: Items<Target>,
    pub last: Operand,
}

/// What follows an unary expression that begins an effect.
#[derive(Clone, Copy)]
pub enum EffectNext {
    Assign(Assigning),
    End,
}
