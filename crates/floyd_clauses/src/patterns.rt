ghost use Rattle.std.specs.Prelude.{◌≡◌, ◌∷◌, [], IfOk};
ghost use Rattle.floyd_clauses.specs.Patterns.{is_cons as is_cons_lem, is_leaf as is_leaf_lem, is_nil as is_nil_lem, is_node as is_node_lem, is_of as is_of_lem, named_parts as named_parts_lem};

use floyd_assert_trees::Pattern;
use floyd_text::Name;
use floyd_tree::{Head, Operator, Term};
use std::alloc::{AllocError, Global};

fn is_nil(head: &Head) -> bool
    ensures { result ≡ is_nil_lem head.now }
{
    match head {
        Head::Nil(_) => true,
        _ => false,
    }
}

fn is_cons(head: &Head) -> bool
    ensures { result ≡ is_cons_lem head.now }
{
    match head {
        Head::Operator(Operator::Cons) => true,
        _ => false,
    }
}

fn is_leaf(head: &Head) -> bool
    ensures { result ≡ is_leaf_lem head.now }
{
    match head {
        Head::Leaf(_) => true,
        _ => false,
    }
}

fn is_node(head: &Head) -> bool
    ensures { result ≡ is_node_lem head.now }
{
    match head {
        Head::Operator(Operator::Node) => true,
        _ => false,
    }
}

/// Whether a pattern is of the constructor that stands at the head of a term.
pub fn is_of(pattern: &Pattern, head: &Head) -> bool
    ensures { result ≡ is_of_lem pattern.now head.now }
{
    match pattern {
        Pattern::Nil => is_nil(head),
        Pattern::Cons(_, _) => is_cons(head),
        Pattern::Leaf => is_leaf(head),
        Pattern::Node(_, _, _) => is_node(head),
    }
}

/// Two names with these terms.
fn two_parts(
    alloc: Global,
    item: &Name,
    t: &Term,
    rest: &Name,
    u: &Term,
) -> Result<Vec<(Name, Term)>, AllocError>
    ensures { IfOk result (λ all. all.items ≡ (item.now, t.now) ∷ (rest.now, u.now) ∷ []) }
{
    let mut all = Vec::new(alloc);
    all.push((item.share()?, t.share()?))?;
    all.push((rest.share()?, u.share()?))?;
    Ok(all)
}

/// The arguments of a constructor by the names that the pattern gives them.
pub fn named_parts(
    alloc: Global,
    pattern: &Pattern,
    kids: &[Term],
) -> Result<Vec<(Name, Term)>, AllocError>
    ensures { IfOk result (λ all. all.items ≡ named_parts_lem pattern.now kids.now) }
{
    match pattern {
        Pattern::Nil => Ok(Vec::new(alloc)),
        Pattern::Cons(item, rest) => match kids {
            [t, u, ..] => two_parts(alloc, item, t, rest, u),
            _ => Ok(Vec::new(alloc)),
        },
        Pattern::Leaf => Ok(Vec::new(alloc)),
        Pattern::Node(left, item, right) => match kids {
            [t, u, v, ..] => {
                let mut all = two_parts(alloc, left, t, item, u)?;
                all.push((right.share()?, v.share()?))?;
                Ok(all)
            }
            _ => Ok(Vec::new(alloc)),
        },
    }
}
