ghost use Rattle.std.specs.Prelude.{◌≡◌};
ghost use Rattle.floyd_listlaw.specs.Names.{law_named, named_among, word};
ghost use Rattle.floyd_listlaw.specs.Table.{row};

use floyd_text::Name;
use floyd_tree_sorts::RowSort;
use floyd_tree_sorts::RowSort::{ListS, ListZ, S, Val, Z};

/// A law, by its name.
#[derive(Clone, Copy, PartialEq, Eq, Debug)]
pub enum ListLaw {
    SublistNone,
    SublistAll,
    SublistSnoc,
    SublistApp,
    SublistLen,
    SublistVints,
    VintsApp,
    LenVints,
    SumNil,
    SumApp,
    SumSnoc,
    LenApp,
    LenRev,
    LenUpd,
    LenNonneg,
    AppNil,
    AppAssoc,
    RevCons,
    RevApp,
    RevRev,
    NthSame,
    NthOther,
    LtOrEq,
    LeTotal,
    VintUnsigned,
    VintSigned,
    NullPtr,
}

static ALL_LAWS: [ListLaw; 27] = [
    ListLaw::SublistNone,
    ListLaw::SublistAll,
    ListLaw::SublistSnoc,
    ListLaw::SublistApp,
    ListLaw::SublistLen,
    ListLaw::SublistVints,
    ListLaw::VintsApp,
    ListLaw::LenVints,
    ListLaw::SumNil,
    ListLaw::SumApp,
    ListLaw::SumSnoc,
    ListLaw::LenApp,
    ListLaw::LenRev,
    ListLaw::LenUpd,
    ListLaw::LenNonneg,
    ListLaw::AppNil,
    ListLaw::AppAssoc,
    ListLaw::RevCons,
    ListLaw::RevApp,
    ListLaw::RevRev,
    ListLaw::NthSame,
    ListLaw::NthOther,
    ListLaw::LtOrEq,
    ListLaw::LeTotal,
    ListLaw::VintUnsigned,
    ListLaw::VintSigned,
    ListLaw::NullPtr,
];

/// The law of that name.
pub fn law_named(name: &Name) -> Option<ListLaw>
    ensures { result ≡ law_named name.now }
{
    named_among(&ALL_LAWS, name)
}

fn named_among(laws: &[ListLaw], name: &Name) -> Option<ListLaw>
    ensures { result ≡ named_among laws.now name.now }
{
    'laws: for law in laws {
        if name.as_slice() == law.word().as_bytes() {
            return Some(*law);
        }
    }
    None
}

impl ListLaw {
    fn word(self) -> &'static str
        ensures { result.now ≡ word self }
    {
        match self {
            ListLaw::SublistNone => "sublist_none",
            ListLaw::SublistAll => "sublist_all",
            ListLaw::SublistSnoc => "sublist_snoc",
            ListLaw::SublistApp => "sublist_app",
            ListLaw::SublistLen => "sublist_len",
            ListLaw::SublistVints => "sublist_vints",
            ListLaw::VintsApp => "vints_app",
            ListLaw::LenVints => "len_vints",
            ListLaw::SumNil => "sum_nil",
            ListLaw::SumApp => "sum_app",
            ListLaw::SumSnoc => "sum_snoc",
            ListLaw::LenApp => "len_app",
            ListLaw::LenRev => "len_rev",
            ListLaw::LenUpd => "len_upd",
            ListLaw::LenNonneg => "len_nonneg",
            ListLaw::AppNil => "app_nil",
            ListLaw::AppAssoc => "app_assoc",
            ListLaw::RevCons => "rev_cons",
            ListLaw::RevApp => "rev_app",
            ListLaw::RevRev => "rev_rev",
            ListLaw::NthSame => "nth_same",
            ListLaw::NthOther => "nth_other",
            ListLaw::LtOrEq => "lt_or_eq",
            ListLaw::LeTotal => "le_total",
            ListLaw::VintUnsigned => "vint_unsigned",
            ListLaw::VintSigned => "vint_signed",
            ListLaw::NullPtr => "null_ptr",
        }
    }

    /// The sorts of the arguments.
    pub fn arguments(self) -> &'static [RowSort]
        ensures { result.now ≡ (row self).arguments }
    {
        match self {
            ListLaw::SublistNone | ListLaw::SublistSnoc => &[Z, ListS],
            ListLaw::SublistAll
            | ListLaw::LenRev
            | ListLaw::LenNonneg
            | ListLaw::AppNil
            | ListLaw::RevRev => &[ListS],
            ListLaw::SublistApp => &[Z, Z, Z, ListS],
            ListLaw::SublistLen => &[Z, Z, ListS],
            ListLaw::SublistVints => &[Z, Z, ListZ],
            ListLaw::VintsApp | ListLaw::SumApp => &[ListZ, ListZ],
            ListLaw::LenVints => &[ListZ],
            ListLaw::SumNil => &[],
            ListLaw::SumSnoc => &[Z, ListZ],
            ListLaw::LenApp | ListLaw::RevApp => &[ListS, ListS],
            ListLaw::LenUpd | ListLaw::NthSame => &[Z, S, ListS],
            ListLaw::AppAssoc => &[ListS, ListS, ListS],
            ListLaw::RevCons => &[S, ListS],
            ListLaw::NthOther => &[Z, Z, S, ListS],
            ListLaw::LtOrEq | ListLaw::LeTotal => &[Z, Z],
            ListLaw::VintUnsigned | ListLaw::VintSigned => &[Z],
            ListLaw::NullPtr => &[Val],
        }
    }
}
