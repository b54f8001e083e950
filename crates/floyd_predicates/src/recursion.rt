ghost use Rattle.std.specs.Prelude.{◌≡◌, ◌++◌, IfOk, OnOk, bytes_eq};
ghost use Rattle.std.specs.List.{list_any};
ghost use Rattle.floyd_predicates.specs.Calls.{call, is_part as is_part_lem, parts_of as parts_of_lem, recurs as recurs_lem};

use floyd_assert_trees::Pattern;
use floyd_text::Name;
use floyd_tree::{Head, Term, head};
use std::alloc::{AllocError, Global};

fn is_among(name: &Name, names: &[Name]) -> bool
    ensures { result ≡ list_any (bytes_eq name.now) names.now }
{
    names.iter().any(|other| name == other)
}

fn is_part(parts: &[Name], head: &Head) -> bool
    ensures { result ≡ is_part_lem parts.now head.now }
{
    match head {
        Head::Variable(x, _) => is_among(x, parts),
        _ => false,
    }
}

/// Whether the first of the terms is one of these variables.
fn recurs(parts: &[Name], terms: &[Term]) -> bool
    ensures { result ≡ recurs_lem parts.now terms.now }
{
    match terms {
        [] => false,
        [first, ..] => is_part(parts, head(first)),
    }
}

/// Adds whether a call is on one of these variables, where it is one of the item itself.
pub fn add_call(
    all: &mut Vec<bool>,
    own: &Name,
    parts: &[Name],
    name: &Name,
    terms: &[Term],
) -> Result<(), AllocError>
    ensures { OnOk result (all.new.items ≡ all.old.items ++ call own.now parts.now name.now terms.now) }
{
    if own == name {
        all.push(recurs(parts, terms))?;
    }
    Ok(())
}

/// The names of the sublist or of the subtrees of a pattern.
pub fn parts_of(alloc: Global, pattern: &Pattern) -> Result<Vec<Name>, AllocError>
    ensures { IfOk result (λ all. all.items ≡ parts_of_lem pattern.now) }
{
    let mut all = Vec::new(alloc);
    match pattern {
        Pattern::Nil => Ok(all),
        Pattern::Cons(_, rest) => {
            all.push(rest.share()?)?;
            Ok(all)
        }
        Pattern::Leaf => Ok(all),
        Pattern::Node(left, _, right) => {
            all.push(left.share()?)?;
            all.push(right.share()?)?;
            Ok(all)
        }
    }
}
