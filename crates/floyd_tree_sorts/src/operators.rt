ghost use Rattle.std.specs.Prelude.{◌≡◌};
ghost use Rattle.floyd_tree_sorts.specs.Operators.{constant, one, two, three, row};

use crate::operators::RowSort::{ListS, ListVal, ListZ, ProdST, S, T, TreeS, Val, Z};

/// A built-in operator that has its kids and nothing besides.
#[derive(Clone, Copy, PartialEq, Eq, Debug)]
pub enum Operator {
    Vundef,
    Vint,
    Vlong,
    Nullval,
    PtrAdd,
    Vints,
    Vlongs,
    Fst,
    Snd,
    Len,
    Nth,
    Upd,
    Rev,
    Sum,
    Sublist,
    Repeat,
    Node,
    Quot,
    Rem,
    Band,
    Bor,
    Bxor,
    Bnot,
    Shl,
    Shr,
    Eqz,
    Ltz,
    Lez,
    Eqv,
    Add,
    Sub,
    Mul,
    Cons,
    Append,
    Pair,
}

/// A sort as a row writes it. `S` and `T` stand for any sort, and for the same one in the whole row.
#[derive(Clone, Copy, PartialEq, Eq, Debug)]
pub enum RowSort {
    Z,
    Val,
    S,
    T,
    ListZ,
    ListVal,
    ListS,
    TreeS,
    ProdST,
}

/// The sorts that an operator takes.
#[derive(Clone, Copy, PartialEq, Eq, Debug)]
pub enum Arguments {
    Nothing,
    One(RowSort),
    Two(RowSort, RowSort),
    Three(RowSort, RowSort, RowSort),
}

/// The row of an operator: the number that stands for it in fingerprints, the sorts that it takes, and the one that it
/// gives.
#[derive(Clone, Copy, PartialEq, Eq, Debug)]
pub struct Row {
    pub number: u64,
    pub takes: Arguments,
    pub gives: RowSort,
}

fn constant(number: u64, gives: RowSort) -> Row
    ensures { result ≡ constant number gives }
{
    Row {
        number,
        takes: Arguments::Nothing,
        gives,
    }
}

fn one(number: u64, a: RowSort, gives: RowSort) -> Row
    ensures { result ≡ one number a gives }
{
    Row {
        number,
        takes: Arguments::One(a),
        gives,
    }
}

fn two(number: u64, a: RowSort, b: RowSort, gives: RowSort) -> Row
    ensures { result ≡ two number a b gives }
{
    Row {
        number,
        takes: Arguments::Two(a, b),
        gives,
    }
}

fn three(number: u64, a: RowSort, b: RowSort, c: RowSort, gives: RowSort) -> Row
    ensures { result ≡ three number a b c gives }
{
    Row {
        number,
        takes: Arguments::Three(a, b, c),
        gives,
    }
}

impl Operator {
    pub fn row(self) -> Row
        ensures { result ≡ row self }
    {
        match self {
            Operator::Vundef => constant(0, Val),
            Operator::Vint => one(1, Z, Val),
            Operator::Vlong => one(2, Z, Val),
            Operator::Nullval => constant(3, Val),
            Operator::PtrAdd => two(4, Val, Z, Val),
            Operator::Vints => one(5, ListZ, ListVal),
            Operator::Vlongs => one(6, ListZ, ListVal),
            Operator::Fst => one(7, ProdST, S),
            Operator::Snd => one(8, ProdST, T),
            Operator::Len => one(9, ListS, Z),
            Operator::Nth => two(10, Z, ListS, S),
            Operator::Upd => three(11, Z, S, ListS, ListS),
            Operator::Rev => one(12, ListS, ListS),
            Operator::Sum => one(13, ListZ, Z),
            Operator::Sublist => three(14, Z, Z, ListS, ListS),
            Operator::Repeat => two(15, S, Z, ListS),
            Operator::Node => three(16, TreeS, S, TreeS, TreeS),
            Operator::Quot => two(17, Z, Z, Z),
            Operator::Rem => two(18, Z, Z, Z),
            Operator::Band => two(19, Z, Z, Z),
            Operator::Bor => two(20, Z, Z, Z),
            Operator::Bxor => two(21, Z, Z, Z),
            Operator::Bnot => one(22, Z, Z),
            Operator::Shl => two(23, Z, Z, Z),
            Operator::Shr => two(24, Z, Z, Z),
            Operator::Eqz => two(25, Z, Z, Z),
            Operator::Ltz => two(26, Z, Z, Z),
            Operator::Lez => two(27, Z, Z, Z),
            Operator::Eqv => two(28, Val, Val, Z),
            Operator::Add => two(29, Z, Z, Z),
            Operator::Sub => two(30, Z, Z, Z),
            Operator::Mul => two(31, Z, Z, Z),
            Operator::Cons => two(32, S, ListS, ListS),
            Operator::Append => two(33, ListS, ListS, ListS),
            Operator::Pair => two(34, S, T, ProdST),
        }
    }
}
