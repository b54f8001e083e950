//! What is read of terms and formulas, beside their trees: what is known there of the depth and of what may follow.

use floyd_termread_tables::{Class, End, Want};
use floyd_termread_trees::{Link, Prefix, Written};
use floyd_text::{Place, Refusal};
use sqlite_items::Items;

/// What is written from one token on, whole or cut off.
#[derive(Drop)]
pub struct Passage {
    /// The tree, in which what is missing is left open where it is cut off.
    pub tree: Written,
    /// The number of the token behind it, or the refusal that cuts it off.
    pub end: Result<u32, Refusal>,
}

/// An operand without the operators before it.
#[derive(Drop)]
pub struct Atom {
    pub tree: Written,
    pub class: Class,
    pub bare: bool,
    pub count: u32,
}

#[derive(Drop)]
pub struct Operand {
    pub tree: Written,
    pub end: End,
}

/// Operators before an operand.
#[derive(Drop)]
pub struct Prefixes {
    pub items: Items<Prefix>,
    /// Those directly before what follows.
    pub run: u32,
    pub count: u32,
    pub want: Want,
    /// A `-` is among them, behind which no formula may stand.
    pub minus: bool,
}

/// Operands with operators between them.
#[derive(Drop)]
pub struct Chain {
    pub first: Written,
    pub links: Items<Link>,
    pub end: End,
}

/// What stands in a bracket so far.
#[derive(Drop)]
pub struct Contents {
    pub items: Items<Written>,
    /// How the last of them ends.
    pub end: End,
}

/// What stands in a bracket, and the place of the closing one.
#[derive(Drop)]
pub struct Filled {
    pub items: Items<Written>,
    pub end: End,
    /// None where the text is cut off before it.
    pub close: Option<Place>,
}

/// What a step of a path begins with.
#[derive(Clone, Copy)]
pub enum StepStart {
    Dot(Place),
    Open(Place),
}
