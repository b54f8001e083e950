//! Readers of one phrase.
ghost use Rattle.std.specs.Prelude.{◌≡◌, ◌≤◌, ◌<◌, ◌^◌, length};
ghost use Rattle.std.specs.Option.{option_copied};
ghost use Rattle.floyd_termread.specs.Brackets.{open_before, outermost};
ghost use Rattle.floyd_termread_assertions.specs.Assertions as assertions;
ghost use Rattle.floyd_termread_phrases.specs.Phrases as specs;
ghost use Rattle.floyd_termread_phrases.specs.Reads.{Answers};

use crate::brackets::spot_at;
use floyd_assert_trees::Assertion;
use floyd_lex::Tokens;
use floyd_termread_assertions::assertion_at;
use floyd_termread_phrases::{Text, formula_at, path_at, term_at, type_at};
use floyd_termread_scope::{Scope, Variables};
use floyd_text::Halt;
use floyd_tree::{AType, Formula, Path, Sort, Term};
use std::alloc::Global;

/// The term from the token of this number on, and the number of the token behind it. Else the first refusal: 302 and 501
/// where the tokens so far begin no term, 502 at a name that stands for nothing, 503 at what does not fit its place, 802 at
/// what is beyond the limits; at one place the first of these. With a sort that is expected the term is to have it.
///
/// The tokens are those that `tokens` gives on these bytes of a specification or a script, or an unbroken part of them. The
/// brackets among them that are open before the term count to its depth.
pub fn read_term(
    alloc: Global,
    scope: &Scope<'_>,
    bytes: &[u8],
    tokens: &Tokens,
    at: u32,
    expected: Option<&Sort>,
) -> Result<(Term, u32), Halt>
    requires at { at ≤ length tokens.now.items }
    requires count { length tokens.now.items < 2 ^ 32 }
    ensures exact { Answers (λ x. x) (specs.term bytes.now tokens.now (open_before tokens.now at) (outermost scope.now) (option_copied expected.entry) at) result }
{
    let bound = Variables::new(alloc);
    term_at(
        alloc,
        scope,
        &bound,
        Text { bytes, tokens },
        spot_at(tokens, at),
        expected,
    )
}

/// The formula from the token of this number on, as `read_term` has a term.
pub fn read_formula(
    alloc: Global,
    scope: &Scope<'_>,
    bytes: &[u8],
    tokens: &Tokens,
    at: u32,
) -> Result<(Formula, u32), Halt>
    requires at { at ≤ length tokens.now.items }
    requires count { length tokens.now.items < 2 ^ 32 }
    ensures exact { Answers (λ x. x) (specs.formula bytes.now tokens.now (open_before tokens.now at) (outermost scope.now) at) result }
{
    let mut bound = Variables::new(alloc);
    formula_at(
        alloc,
        scope,
        &mut bound,
        Text { bytes, tokens },
        spot_at(tokens, at),
    )
}

/// The type from the token of this number on, as `read_term` has a term. The sizes of its arrays are numbers.
pub fn read_type(
    alloc: Global,
    scope: &Scope<'_>,
    bytes: &[u8],
    tokens: &Tokens,
    at: u32,
) -> Result<(AType, u32), Halt>
    requires at { at ≤ length tokens.now.items }
    requires count { length tokens.now.items < 2 ^ 32 }
    ensures exact { Answers (λ x. x) (specs.type_name bytes.now tokens.now (open_before tokens.now at) (outermost scope.now) at) result }
{
    let bound = Variables::new(alloc);
    type_at(
        alloc,
        scope,
        &bound,
        Text { bytes, tokens },
        spot_at(tokens, at),
    )
}

/// The path from the token of this number on, as `read_term` has a term. Its subscripts are numbers.
pub fn read_path(
    alloc: Global,
    scope: &Scope<'_>,
    bytes: &[u8],
    tokens: &Tokens,
    at: u32,
) -> Result<(Path, u32), Halt>
    requires at { at ≤ length tokens.now.items }
    requires count { length tokens.now.items < 2 ^ 32 }
    ensures exact { Answers (λ x. x) (specs.path bytes.now tokens.now (open_before tokens.now at) (outermost scope.now) at) result }
{
    let bound = Variables::new(alloc);
    path_at(
        alloc,
        scope,
        &bound,
        Text { bytes, tokens },
        spot_at(tokens, at),
    )
}

/// The assertion from the token of this number on, as `read_term` has a term: its existentials, PROP, LOCAL, if it is there,
/// and SEP. Two temporaries of one name, and two existentials, are 501 at the later name. A part whose type has no values,
/// or whose path leads to nothing, or in `padding` to no struct, is 503 at that type or path; a wrong number of arguments of
/// a predicate is 503 where their list closes; a default value that is too large is 802 at the word `data_at_`.
pub fn read_assertion(
    alloc: Global,
    scope: &Scope<'_>,
    bytes: &[u8],
    tokens: &Tokens,
    at: u32,
) -> Result<(Assertion, u32), Halt>
    requires at { at ≤ length tokens.now.items }
    requires count { length tokens.now.items < 2 ^ 32 }
    ensures exact { Answers (λ x. x) (assertions.assertion bytes.now tokens.now (open_before tokens.now at) (outermost scope.now) at) result }
{
    let mut bound = Variables::new(alloc);
    assertion_at(
        alloc,
        scope,
        &mut bound,
        Text { bytes, tokens },
        spot_at(tokens, at),
    )
}
