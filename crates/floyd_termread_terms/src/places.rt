//! Where phrases begin.
ghost use Rattle.std.specs.Prelude.{◌≡◌};
ghost use Rattle.std.specs.Option.{option_copied};
ghost use Rattle.floyd_termread_terms.specs.Rows.{first_place as prefixed_place_lem, prefix_place as prefix_place_lem};
ghost use Rattle.floyd_termread_terms.specs.Terms.{nowhere as nowhere_lem, sense_of};

use floyd_cparse_trees::Identifier;
use floyd_termread_brackets::{bracket_place, number_place};
use floyd_termread_groups::Grouped;
use floyd_termread_trees::Prefix;
use floyd_text::Place;

fn nowhere() -> Place
    ensures { result ≡ nowhere_lem }
{
    Place {
        file: 0,
        line: 0,
        column: 0,
    }
}

pub fn prefix_place(prefix: &Prefix) -> Place
    ensures { result ≡ prefix_place_lem prefix.now }
{
    match prefix {
        Prefix::Minus(place) => *place,
        Prefix::Not(place) => *place,
        Prefix::Forall(place, _) => *place,
        Prefix::Exists(place, _) => *place,
    }
}

fn prefixed_place(prefixes: &[Prefix], place: Place) -> Place
    ensures { result ≡ prefixed_place_lem prefixes.now place }
{
    match prefixes {
        [] => place,
        [first, ..] => prefix_place(first),
    }
}

/// The place of the first token.
#[tactic(auto, using(crate::proofs::SenseLemmas::bracket_is, crate::proofs::SenseLemmas::prefixed_is, crate::proofs::SenseLemmas::row_is))]
pub fn first_place(tree: &Grouped) -> Place
    ensures { result ≡ (sense_of tree.now).place }
{
    match tree {
        Grouped::Missing => nowhere(),
        Grouped::Literal { minus, place, .. } => number_place(*minus, *place),
        Grouped::Name(i) => i.place,
        Grouped::Word(_, place) => *place,
        Grouped::Struct(place, _) => *place,
        Grouped::Field(place, _) => *place,
        Grouped::Bracket { opening, place, .. } => bracket_place(opening, *place),
        Grouped::Prefixed { prefixes, operand } => {
            prefixed_place(prefixes.as_slice(), first_place(operand.get()))
        }
        Grouped::Row { first, .. } => first_place(first.get()),
    }
}

/// The name that a phrase is.
#[tactic(auto, using(crate::proofs::SenseLemmas::name_bracket, crate::proofs::SenseLemmas::name_prefixed, crate::proofs::SenseLemmas::name_row))]
pub fn name_of(tree: &Grouped) -> Option<&Identifier>
    ensures { option_copied result ≡ (sense_of tree.now).name }
{
    match tree {
        Grouped::Name(i) => Some(i),
        Grouped::Missing => None,
        Grouped::Literal { .. } => None,
        Grouped::Word(_, _) => None,
        Grouped::Struct(_, _) => None,
        Grouped::Field(_, _) => None,
        Grouped::Bracket { .. } => None,
        Grouped::Prefixed { .. } => None,
        Grouped::Row { .. } => None,
    }
}
