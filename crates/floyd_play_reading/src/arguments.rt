//! The arguments of a command.
ghost use Rattle.std.specs.Prelude.{◌≡◌, ◌≤◌, ◌<◌, ◌^◌, IfOk, length};
ghost use Rattle.floyd_play_reading.specs.Answers.{IsAnswer};
ghost use Rattle.floyd_play_reading.specs.Arguments as reading;
ghost use Rattle.floyd_play_reading.specs.Expected.{goal_env};
ghost use Rattle.floyd_play_reading.specs.Names.{local_names};
ghost use Rattle.floyd_play_reading.specs.ScopeClauses.{env_of};
ghost use Rattle.floyd_termread.specs.Brackets.{outermost};
ghost use Rattle.floyd_termread_scope.specs.Scopes.{sort_of};
ghost use Rattle.floyd_termread_phrases.specs.Reads.{Answers};

use crate::assertions::{assertion_args_at, loop_at, maybe_assertion_at};
use crate::locals::names_of;
use crate::terms::{
    Around, bare_at, hypothesis_and_term_at, named_terms_at, named_twice_at, part_and_term_at,
    unnamed_terms_at,
};
use floyd_assert_trees::{Defs, Names, SpecTable};
use floyd_clight::Local;
use floyd_goal::context_of;
use floyd_goal_trees::{Args, Goal};
use floyd_lex::Punctuator;
use floyd_play_arguments::plain_arguments_at;
use floyd_play_scopes::variables_of;
use floyd_script_trees::{Command, Shape, shape_of};
use floyd_termread_marks::take_mark;
use floyd_termread_phrases::{Spot, Text};
use floyd_termread_scope::{Scope, Variables};
use floyd_text::Halt;
use std::alloc::Global;

/// What names stand for.
fn scope_of<'a>(
    variables: Variables,
    defs: &'a Defs,
    specs: &'a SpecTable,
    locals: &'a Names,
) -> Scope<'a>
    ensures { outermost result ≡ env_of defs.now specs.now (sort_of variables) locals.now }
{
    let specs = &specs.items;
    let locals = Some(locals);
    Scope {
        variables,
        defs,
        specs,
        locals,
    }
}

/// What stands behind the command's word, and the number of the token behind it.
fn shaped_at(
    alloc: Global,
    around: Around<'_>,
    scope: &Scope<'_>,
    text: Text<'_>,
    shape: Shape,
    at: u32,
) -> Result<(Args, u32), Halt>
    requires at { at ≤ length text.tokens.now.items }
    requires count { length text.tokens.now.items < 2 ^ 32 }
    ensures exact { Answers (λ x. x) (reading.shaped text.entry.bytes.now text.entry.tokens.now around.entry.defs.now around.entry.specs.now (outermost scope.now) around.entry.goal.now around.entry.rule shape at) result }
    ensures within { IfOk result (λ x. x.1 ≤ length text.entry.tokens.now.items) }
{
    match shape {
        Shape::MaybeEnclosed => maybe_assertion_at(alloc, scope, text, at),
        Shape::Enclosed => assertion_args_at(alloc, scope, text, at),
        Shape::Loop => loop_at(alloc, scope, text, at),
        Shape::Terms => unnamed_terms_at(alloc, around, scope, text, at),
        Shape::NamedTerms => named_terms_at(alloc, around, scope, text, at),
        Shape::NamedTwice => named_twice_at(alloc, around, scope, text, at),
        Shape::Bare => bare_at(alloc, around, scope, text, at),
        Shape::NumberTerm => part_and_term_at(alloc, scope, text, at),
        Shape::HypothesisTerm => hypothesis_and_term_at(alloc, around, scope, text, at),
        other => plain_arguments_at(alloc, text, other, at),
    }
}

/// The same, where names stand for what they do in the goal.
fn spoken_at(
    alloc: Global,
    around: Around<'_>,
    text: Text<'_>,
    shape: Shape,
    at: u32,
) -> Result<(Args, u32), Halt>
    requires at { at ≤ length text.tokens.now.items }
    requires count { length text.tokens.now.items < 2 ^ 32 }
    ensures exact { Answers (λ x. x) (reading.shaped text.entry.bytes.now text.entry.tokens.now around.entry.defs.now around.entry.specs.now (goal_env around.entry.goal.now around.entry.defs.now around.entry.specs.now (local_names around.entry.local_blocks.now)) around.entry.goal.now around.entry.rule shape at) result }
    ensures within { IfOk result (λ x. x.1 ≤ length text.entry.tokens.now.items) }
{
    let variables = variables_of(alloc, context_of(around.goal).variables.get().as_slice())?;
    let locals = names_of(alloc, around.local_blocks)?;
    let scope = scope_of(variables, around.defs, around.specs, &locals);
    shaped_at(alloc, around, &scope, text, shape, at)
}

/// The same. Where there are no terms, formulas or assertions, the goal's variables are not looked at.
fn behind_word_at(
    alloc: Global,
    around: Around<'_>,
    text: Text<'_>,
    shape: Shape,
    at: u32,
) -> Result<(Args, u32), Halt>
    requires at { at ≤ length text.tokens.now.items }
    requires count { length text.tokens.now.items < 2 ^ 32 }
    ensures exact { Answers (λ x. x) (reading.shaped text.entry.bytes.now text.entry.tokens.now around.entry.defs.now around.entry.specs.now (goal_env around.entry.goal.now around.entry.defs.now around.entry.specs.now (local_names around.entry.local_blocks.now)) around.entry.goal.now around.entry.rule shape at) result }
    ensures within { IfOk result (λ x. x.1 ≤ length text.entry.tokens.now.items) }
{
    match shape {
        Shape::MaybeEnclosed
        | Shape::Enclosed
        | Shape::Loop
        | Shape::Terms
        | Shape::NamedTerms
        | Shape::NamedTwice
        | Shape::Bare
        | Shape::NumberTerm
        | Shape::HypothesisTerm => spoken_at(alloc, around, text, shape, at),
        other => plain_arguments_at(alloc, text, other, at),
    }
}

/// The arguments of a command, read in the context of a goal: variables are those of the context, and `lv` may take the
/// names of these blocks. Else the first refusal, at its token: 302 and 501 where the tokens are no term, formula or
/// assertion, 502 at a name that stands for nothing, 503 at what does not fit its place, 802 at what is beyond the limits;
/// at one place the first of these. A sort is expected where the goal and the tables fix one.
///
/// The command is one of a script that was read, and its tokens are those from its word to its `;`.
pub fn read_arguments(
    alloc: Global,
    goal: &Goal,
    command: &Command,
    defs: &Defs,
    specs: &SpecTable,
    blocks: &[Local],
) -> Result<Args, Halt>
    requires word { 1 ≤ length command.now.tokens.items }
    requires count { length command.now.tokens.items < 2 ^ 32 }
    ensures exact { IsAnswer (reading.AreRead command.now.bytes command.now.tokens defs.now specs.now blocks.now goal.now command.now.rule) result }
{
    let text = Text {
        bytes: command.bytes.get().as_slice(),
        tokens: &command.tokens,
    };
    let around = Around {
        goal,
        defs,
        specs,
        local_blocks: blocks,
        rule: command.rule,
    };
    let (args, end) = behind_word_at(alloc, around, text, shape_of(command.rule), 1)?;
    let (_end, _behind) = take_mark(text, Spot { at: end, depth: 0 }, Punctuator::Semicolon)?;
    Ok(args)
}
