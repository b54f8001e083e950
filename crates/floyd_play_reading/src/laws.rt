//! The laws that a command may name.
ghost use Rattle.std.specs.Prelude.{◌≡◌};
ghost use Rattle.floyd_listlaw.specs.Names.{law_named, named_among, word};

use floyd_listlaw::ListLaw;
use floyd_text::Name;

static ALL_LAWS: [ListLaw; 27] = [
    ListLaw::SublistNone,
    ListLaw::SublistAll,
    ListLaw::SublistSnoc,
    ListLaw::SublistApp,
    ListLaw::SublistLen,
    ListLaw::SublistVints,
    ListLaw::VintsApp,
    ListLaw::LenVints,
    ListLaw::SumNil,
    ListLaw::SumApp,
    ListLaw::SumSnoc,
    ListLaw::LenApp,
    ListLaw::LenRev,
    ListLaw::LenUpd,
    ListLaw::LenNonneg,
    ListLaw::AppNil,
    ListLaw::AppAssoc,
    ListLaw::RevCons,
    ListLaw::RevApp,
    ListLaw::RevRev,
    ListLaw::NthSame,
    ListLaw::NthOther,
    ListLaw::LtOrEq,
    ListLaw::LeTotal,
    ListLaw::VintUnsigned,
    ListLaw::VintSigned,
    ListLaw::NullPtr,
];

/// The law of that name.
pub(crate) fn law_named(name: &Name) -> Option<ListLaw>
    ensures { result ≡ law_named name.now }
{
    named_among(&ALL_LAWS, name)
}

fn named_among(laws: &[ListLaw], name: &Name) -> Option<ListLaw>
    ensures { result ≡ named_among laws.now name.now }
{
    'laws: for law in laws {
        if name.as_slice() == word(*law).as_bytes() {
            return Some(*law);
        }
    }
    None
}

fn word(law: ListLaw) -> &'static str
    ensures { result.now ≡ word law }
{
    match law {
        ListLaw::SublistNone => "sublist_none",
        ListLaw::SublistAll => "sublist_all",
        ListLaw::SublistSnoc => "sublist_snoc",
        ListLaw::SublistApp => "sublist_app",
        ListLaw::SublistLen => "sublist_len",
        ListLaw::SublistVints => "sublist_vints",
        ListLaw::VintsApp => "vints_app",
        ListLaw::LenVints => "len_vints",
        ListLaw::SumNil => "sum_nil",
        ListLaw::SumApp => "sum_app",
        ListLaw::SumSnoc => "sum_snoc",
        ListLaw::LenApp => "len_app",
        ListLaw::LenRev => "len_rev",
        ListLaw::LenUpd => "len_upd",
        ListLaw::LenNonneg => "len_nonneg",
        ListLaw::AppNil => "app_nil",
        ListLaw::AppAssoc => "app_assoc",
        ListLaw::RevCons => "rev_cons",
        ListLaw::RevApp => "rev_app",
        ListLaw::RevRev => "rev_rev",
        ListLaw::NthSame => "nth_same",
        ListLaw::NthOther => "nth_other",
        ListLaw::LtOrEq => "lt_or_eq",
        ListLaw::LeTotal => "le_total",
        ListLaw::VintUnsigned => "vint_unsigned",
        ListLaw::VintSigned => "vint_signed",
        ListLaw::NullPtr => "null_ptr",
    }
}
