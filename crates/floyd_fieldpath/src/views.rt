ghost use Rattle.std.specs.Prelude.{◌≡◌, if◌then◌else◌, None, slice_get};
ghost use Rattle.std.specs.Option.{option_copied};
ghost use Rattle.floyd_tree.specs.Plain.{head_of, kids_of};
ghost use Rattle.floyd_fieldpath.specs.Projections.{is_default as is_default_lem, is_ints, is_longs, is_pair, kid_under};

use floyd_tree::{Head, Operator, Term, head, kids};

/// Whether the term is a default of a type.
pub(crate) fn is_default(t: &Term) -> bool
    ensures { result ≡ is_default_lem (head_of t.now) }
{
    is_default_head(head(t))
}

fn is_default_head(head: &Head) -> bool
    ensures { result ≡ is_default_lem head.now }
{
    match head {
        Head::Default(_, _) => true,
        _ => false,
    }
}

fn is_pair(head: &Head) -> bool
    ensures { result ≡ is_pair head.now }
{
    match head {
        Head::Operator(operator) => matches!(operator, Operator::Pair),
        _ => false,
    }
}

fn is_ints(head: &Head) -> bool
    ensures { result ≡ is_ints head.now }
{
    match head {
        Head::Operator(operator) => matches!(operator, Operator::Vints),
        _ => false,
    }
}

fn is_longs(head: &Head) -> bool
    ensures { result ≡ is_longs head.now }
{
    match head {
        Head::Operator(operator) => matches!(operator, Operator::Vlongs),
        _ => false,
    }
}

/// The component of a pair term at that place, from 0.
pub(crate) fn component_in(t: &Term, place: usize) -> Option<&Term>
    ensures { option_copied result ≡ kid_under is_pair place t.now }
{
    if is_pair(head(t)) {
        kids(t).get(place)
    } else {
        None
    }
}

/// The list of numbers that `vints` reads as values.
pub(crate) fn ints_in(t: &Term) -> Option<&Term>
    ensures { option_copied result ≡ kid_under is_ints 0 t.now }
{
    if is_ints(head(t)) {
        kids(t).get(0)
    } else {
        None
    }
}

/// The same of `vlongs`.
pub(crate) fn longs_in(t: &Term) -> Option<&Term>
    ensures { option_copied result ≡ kid_under is_longs 0 t.now }
{
    if is_longs(head(t)) {
        kids(t).get(0)
    } else {
        None
    }
}
