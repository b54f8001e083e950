//! Terms, formulas, types and paths.
ghost use Rattle.std.specs.Prelude.{◌≡◌, ◌≤◌, ◌<◌, ◌^◌, IfOk, OnOk, length};
ghost use Rattle.std.specs.Option.{option_copied};
ghost use Rattle.floyd_termread_scope.specs.Scopes.{env, sort_of};
ghost use Rattle.floyd_termread_phrases.specs.Phrases as specs;
ghost use Rattle.floyd_termread_phrases.specs.Reads.{Answers};

use crate::text::Text;
use floyd_termread_grammar::{Passage, read_written};
use floyd_termread_passages::{formula_of, path_of, term_of, type_of};
use floyd_termread_scope::{Scope, Variables};
use floyd_termread_tables::Want;
use floyd_text::Halt;
use floyd_tree::{AType, Formula, Path, Sort, Term};
use std::alloc::Global;

/// Where a phrase begins: the number of its first token, and how many brackets are open before it.
#[derive(Clone, Copy)]
pub struct Spot {
    pub at: u32,
    pub depth: u32,
}

/// The term from a spot on, and the number of the token behind it. Else the first refusal: 302 and 501 where the tokens so
/// far begin no term, 502 at a name that stands for nothing, 503 at what does not fit its place, 802 at what is beyond the
/// limits; at one place the first of these. With a sort that is expected the term is to have it.
pub fn term_at(
    alloc: Global,
    scope: &Scope<'_>,
    bound: &Variables,
    text: Text<'_>,
    spot: Spot,
    expected: Option<&Sort>,
) -> Result<(Term, u32), Halt>
    requires at { spot.at ≤ length text.tokens.now.items }
    requires count { length text.tokens.now.items < 2 ^ 32 }
    ensures exact { Answers (λ x. x) (specs.term text.entry.bytes.now text.entry.tokens.now spot.depth (env scope.now bound.now) (option_copied expected.entry) spot.at) result }
    ensures from { IfOk result (λ x. spot.at ≤ x.1) }
    ensures within { IfOk result (λ x. x.1 ≤ length text.entry.tokens.now.items) }
{
    let Passage { tree, end } = read_written(
        alloc,
        text.bytes,
        text.tokens,
        spot.at,
        spot.depth,
        Want::Term,
    )?;
    term_of(alloc, scope, bound, &tree, end, expected)
}

/// The formula from a spot on, as `term_at` has a term. The variables that are bound are the same behind it, unless it is
/// refused or memory runs out.
pub fn formula_at(
    alloc: Global,
    scope: &Scope<'_>,
    bound: &mut Variables,
    text: Text<'_>,
    spot: Spot,
) -> Result<(Formula, u32), Halt>
    requires at { spot.at ≤ length text.tokens.now.items }
    requires count { length text.tokens.now.items < 2 ^ 32 }
    ensures exact { Answers (λ x. x) (specs.formula text.entry.bytes.now text.entry.tokens.now spot.depth (env scope.now bound.old) spot.at) result }
    ensures from { IfOk result (λ x. spot.at ≤ x.1) }
    ensures within { IfOk result (λ x. x.1 ≤ length text.entry.tokens.now.items) }
    ensures kept { OnOk result (sort_of bound.new ≡ sort_of bound.old) }
{
    let Passage { tree, end } = read_written(
        alloc,
        text.bytes,
        text.tokens,
        spot.at,
        spot.depth,
        Want::Formula,
    )?;
    formula_of(alloc, scope, bound, &tree, end)
}

/// The type from a spot on, as `term_at` has a term. The sizes of its arrays are numbers.
pub fn type_at(
    alloc: Global,
    scope: &Scope<'_>,
    bound: &Variables,
    text: Text<'_>,
    spot: Spot,
) -> Result<(AType, u32), Halt>
    requires at { spot.at ≤ length text.tokens.now.items }
    requires count { length text.tokens.now.items < 2 ^ 32 }
    ensures exact { Answers (λ x. x) (specs.type_name text.entry.bytes.now text.entry.tokens.now spot.depth (env scope.now bound.now) spot.at) result }
    ensures from { IfOk result (λ x. spot.at ≤ x.1) }
    ensures within { IfOk result (λ x. x.1 ≤ length text.entry.tokens.now.items) }
{
    let Passage { tree, end } = read_written(
        alloc,
        text.bytes,
        text.tokens,
        spot.at,
        spot.depth,
        Want::Type,
    )?;
    type_of(alloc, scope, bound, &tree, end)
}

/// The path from a spot on, as `term_at` has a term. Its subscripts are numbers.
pub fn path_at(
    alloc: Global,
    scope: &Scope<'_>,
    bound: &Variables,
    text: Text<'_>,
    spot: Spot,
) -> Result<(Path, u32), Halt>
    requires at { spot.at ≤ length text.tokens.now.items }
    requires count { length text.tokens.now.items < 2 ^ 32 }
    ensures exact { Answers (λ x. x) (specs.path text.entry.bytes.now text.entry.tokens.now spot.depth (env scope.now bound.now) spot.at) result }
    ensures from { IfOk result (λ x. spot.at ≤ x.1) }
    ensures within { IfOk result (λ x. x.1 ≤ length text.entry.tokens.now.items) }
{
    let Passage { tree, end } = read_written(
        alloc,
        text.bytes,
        text.tokens,
        spot.at,
        spot.depth,
        Want::Path,
    )?;
    path_of(alloc, scope, bound, &tree, end)
}
