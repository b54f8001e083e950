ghost use Rattle.std.specs.Prelude.{◌≡◌, ◌≤◌, true, length};
ghost use Rattle.floyd_listlaw.specs.PostfixClauses.{all_within, nodes_in, row_items};
ghost use Rattle.floyd_listlaw.specs.Table.{row};

use crate::heads::{LawForm, LawHead};
use crate::list_law::ListLaw;
use floyd_tree::{Operator, Width};
use floyd_tree_sorts::RowSort;

/// An item of a law in postfix form: a node comes after what it is made of.
#[derive(Clone, Copy, PartialEq, Eq, Debug)]
pub enum Postfix {
    /// The argument at that place, from 0.
    Argument(usize),
    /// A term of the last terms, as many as that.
    Node(LawHead, usize),
    /// A formula of the last terms and of the last formulas, as many as that.
    Claim(LawForm, usize, usize),
}

const A0: Postfix = Postfix::Argument(0);

const A1: Postfix = Postfix::Argument(1);

const A2: Postfix = Postfix::Argument(2);

const A3: Postfix = Postfix::Argument(3);

const ZERO: Postfix = Postfix::Node(LawHead::Literal(0), 0);

const ONE: Postfix = Postfix::Node(LawHead::Literal(1), 0);

const NIL_Z: Postfix = Postfix::Node(LawHead::Nil(RowSort::Z), 0);

const NIL_S: Postfix = Postfix::Node(LawHead::Nil(RowSort::S), 0);

const ADD: Postfix = Postfix::Node(LawHead::Operator(Operator::Add), 2);

const SUB: Postfix = Postfix::Node(LawHead::Operator(Operator::Sub), 2);

const LEN: Postfix = Postfix::Node(LawHead::Operator(Operator::Len), 1);

const REV: Postfix = Postfix::Node(LawHead::Operator(Operator::Rev), 1);

const SUM: Postfix = Postfix::Node(LawHead::Operator(Operator::Sum), 1);

const VINT: Postfix = Postfix::Node(LawHead::Operator(Operator::Vint), 1);

const VINTS: Postfix = Postfix::Node(LawHead::Operator(Operator::Vints), 1);

const NULLVAL: Postfix = Postfix::Node(LawHead::Operator(Operator::Nullval), 0);

const SIGNED_32: Postfix = Postfix::Node(LawHead::Signed(Width::Bits32), 1);

const UNSIGNED_32: Postfix = Postfix::Node(LawHead::Unsigned(Width::Bits32), 1);

const NTH: Postfix = Postfix::Node(LawHead::Operator(Operator::Nth), 2);

const CONS: Postfix = Postfix::Node(LawHead::Operator(Operator::Cons), 2);

const APPEND: Postfix = Postfix::Node(LawHead::Operator(Operator::Append), 2);

const UPD: Postfix = Postfix::Node(LawHead::Operator(Operator::Upd), 3);

const SUBLIST: Postfix = Postfix::Node(LawHead::Operator(Operator::Sublist), 3);

const NEVER: Postfix = Postfix::Claim(LawForm::False, 0, 0);

const IS_PTR: Postfix = Postfix::Claim(LawForm::IsPtr, 1, 0);

const EQUAL: Postfix = Postfix::Claim(LawForm::Equal, 2, 0);

const AT_MOST: Postfix = Postfix::Claim(LawForm::AtMost, 2, 0);

const OR: Postfix = Postfix::Claim(LawForm::Or, 0, 2);

const IMPLIES: Postfix = Postfix::Claim(LawForm::Implies, 0, 2);

impl ListLaw {
    /// The premises in order and then the conclusion, in postfix form.
    pub fn items(self) -> &'static [Postfix]
        ensures items { result.now ≡ row_items (row self) }
        ensures within { all_within (length (row self).arguments) result.now ≡ true }
        ensures nodes { nodes_in result.now ≤ 17 }
    {
        match self {
            ListLaw::SublistNone => &[A0, A0, A1, SUBLIST, NIL_S, EQUAL],
            ListLaw::SublistAll => &[ZERO, A0, LEN, A0, SUBLIST, A0, EQUAL],
            ListLaw::SublistSnoc => &[
                ZERO, A0, AT_MOST, A0, ONE, ADD, A1, LEN, AT_MOST, ZERO, A0, ONE, ADD, A1, SUBLIST,
                ZERO, A0, A1, SUBLIST, A0, A1, NTH, NIL_S, CONS, APPEND, EQUAL,
            ],
            ListLaw::SublistApp => &[
                A0, A1, AT_MOST, A1, A2, AT_MOST, A0, A1, A3, SUBLIST, A1, A2, A3, SUBLIST, APPEND,
                A0, A2, A3, SUBLIST, EQUAL,
            ],
            ListLaw::SublistLen => &[
                ZERO, A0, AT_MOST, A0, A1, AT_MOST, A1, A2, LEN, AT_MOST, A0, A1, A2, SUBLIST, LEN,
                A1, A0, SUB, EQUAL,
            ],
            ListLaw::SublistVints => &[
                A0, A1, A2, VINTS, SUBLIST, A0, A1, A2, SUBLIST, VINTS, EQUAL,
            ],
            ListLaw::VintsApp => &[A0, VINTS, A1, VINTS, APPEND, A0, A1, APPEND, VINTS, EQUAL],
            ListLaw::LenVints => &[A0, VINTS, LEN, A0, LEN, EQUAL],
            ListLaw::SumNil => &[NIL_Z, SUM, ZERO, EQUAL],
            ListLaw::SumApp => &[A0, A1, APPEND, SUM, A0, SUM, A1, SUM, ADD, EQUAL],
            ListLaw::SumSnoc => &[
                ZERO, A0, AT_MOST, A0, ONE, ADD, A1, LEN, AT_MOST, ZERO, A0, ONE, ADD, A1, SUBLIST,
                SUM, ZERO, A0, A1, SUBLIST, SUM, A0, A1, NTH, ADD, EQUAL,
            ],
            ListLaw::LenApp => &[A0, A1, APPEND, LEN, A0, LEN, A1, LEN, ADD, EQUAL],
            ListLaw::LenRev => &[A0, REV, LEN, A0, LEN, EQUAL],
            ListLaw::LenUpd => &[A0, A1, A2, UPD, LEN, A2, LEN, EQUAL],
            ListLaw::LenNonneg => &[ZERO, A0, LEN, AT_MOST],
            ListLaw::AppNil => &[A0, NIL_S, APPEND, A0, EQUAL],
            ListLaw::AppAssoc => &[
                A0, A1, APPEND, A2, APPEND, A0, A1, A2, APPEND, APPEND, EQUAL,
            ],
            ListLaw::RevCons => &[A0, A1, CONS, REV, A1, REV, A0, NIL_S, CONS, APPEND, EQUAL],
            ListLaw::RevApp => &[A0, A1, APPEND, REV, A1, REV, A0, REV, APPEND, EQUAL],
            ListLaw::RevRev => &[A0, REV, REV, A0, EQUAL],
            ListLaw::NthSame => &[
                ZERO, A0, AT_MOST, A0, ONE, ADD, A2, LEN, AT_MOST, A0, A0, A1, A2, UPD, NTH, A1,
                EQUAL,
            ],
            ListLaw::NthOther => &[
                A0, A1, EQUAL, NEVER, IMPLIES, A1, A0, A2, A3, UPD, NTH, A1, A3, NTH, EQUAL,
            ],
            ListLaw::LtOrEq => &[
                A0, A1, AT_MOST, A0, ONE, ADD, A1, AT_MOST, A0, A1, EQUAL, OR,
            ],
            ListLaw::LeTotal => &[A0, A1, AT_MOST, A1, ONE, ADD, A0, AT_MOST, OR],
            ListLaw::VintUnsigned => &[A0, VINT, A0, UNSIGNED_32, VINT, EQUAL],
            ListLaw::VintSigned => &[A0, VINT, A0, SIGNED_32, VINT, EQUAL],
            ListLaw::NullPtr => &[A0, IS_PTR, A0, NULLVAL, EQUAL, NEVER],
        }
    }
}
