//! What is read of statements, beside their trees: how they end, and whether an `else` behind them is theirs.

use floyd_cparse_expressions::Ending;
use floyd_cparse_trees::{BlockItem, CExpr, CStatement, Declarator, Literal, LocalDeclarator};
use floyd_cparse_types::DeclaratorEnd;
use floyd_text::{Name, Place};
use sqlite_items::{Boxed, Items};

/// How a declarator with or without a right side ends.
#[derive(Clone, Copy)]
pub enum LocalEnd {
    Declarator(DeclaratorEnd),
    Value(Ending),
}

#[derive(Drop)]
pub struct ReadLocal {
    pub item: LocalDeclarator,
    pub end: LocalEnd,
}

#[derive(Drop)]
pub struct Locals {
    pub items: Items<LocalDeclarator>,
    pub end: LocalEnd,
}

/// A statement, and whether an `else` behind it belongs to it.
#[derive(Drop)]
pub struct ReadStatement {
    pub tree: Boxed<CStatement>,
    pub takes_else: bool,
}

#[derive(Drop)]
pub struct ReadItem {
    pub tree: BlockItem,
    pub takes_else: bool,
}

/// Items of a block, and whether an `else` behind the last belongs to it.
#[derive(Drop)]
pub struct BlockItems {
    pub items: Items<BlockItem>,
    pub takes_else: bool,
}

/// The word or mark with which a statement begins that is no effect.
#[derive(Clone, Copy)]
pub enum StatementStart {
    Block,
    Empty,
    If(Place),
    While(Place),
    Do,
    For(Place),
    Switch(Place),
    Break,
    Continue,
    Return(Place),
}

/// The word with which a label of `switch` begins.
#[derive(Clone, Copy)]
pub enum LabelStart {
    Case,
    Default(Place),
}

/// A literal with its text.
#[derive(Drop)]
pub struct LabelLiteral {
    pub literal: Literal,
    pub text: Name,
}

/// What stands directly behind `case`.
#[derive(Drop)]
pub enum CaseStart {
    Minus,
    Literal(LabelLiteral),
}

/// What stands in the parentheses of `for`.
#[derive(Drop)]
pub struct ForHead {
    pub first: Option<Boxed<CExpr>>,
    pub condition: Option<Boxed<CExpr>>,
    pub third: Option<Boxed<CExpr>>,
}
