//! Declarations, judged at their names.
ghost use Rattle.std.specs.Prelude.{◌≡◌, ◌≤◌, ◌<◌, ◌+◌, ◌^◌, ◌&&◌, not, IfOk, length};
ghost use Rattle.floyd_specread_declarations.specs.Judging as specs;
ghost use Rattle.floyd_specread_declarations.specs.JudgedClauses as clauses;
ghost use Rattle.floyd_termread.specs.Brackets.{outermost};
ghost use Rattle.floyd_termread_phrases.specs.Reads.{Answers};
ghost use Rattle.floyd_termread_scope.specs.Scopes.{is_among as is_among_lem};
ghost use Rattle.floyd_text.specs.Gives.{Gives};

use crate::declaring::{Written, behind_name_at};
use crate::names::take_function_name;
use crate::standing::{Standing, standing_at, words_of};
use crate::typed::typed_behind_at;
use crate::unlike::{is_unlike, typed_is_unlike};
use floyd_assert_trees::{Names, Table};
use floyd_cparse_trees::Identifier;
use floyd_specread_sources::Prototype;
use floyd_specread_trees::{Declaration, SpecItems};
use floyd_termread_phrases::Text;
use floyd_termread_scope::Scope;
use floyd_text::{Code, Halt, Name, Refusal, Shown};
use std::alloc::{AllocError, Global};

/// What a declaration is read and judged by: what names stand for, the SPEC items that it may name, and of the source the
/// types of the functions and which of them have a body.
#[derive(Clone, Copy)]
pub struct Around<'a> {
    pub scope: &'a Scope<'a>,
    pub items: &'a SpecItems,
    pub functions: &'a Table<Prototype>,
    pub bodies: &'a Names,
}

/// The refusal of a declaration at its name.
fn refused_name(code: Code, name: &Identifier) -> Result<Refusal, AllocError>
    ensures { IfOk result (λ r. r ≡ specs.refused_name code name.now) }
{
    let shown = Shown::Name(name.name.share()?);
    Ok(Refusal::at(code, name.place, shown))
}

fn is_among<T: Drop>(table: &Table<T>, name: &Name) -> bool
    ensures { result ≡ is_among_lem table.now name.now }
{
    table.get(name).is_some()
}

/// Whether the function is as the declaration is written: with a body here, or declared alone.
fn is_as_written(functions: &Table<Prototype>, bodies: &Names, written: Written<'_>) -> bool
    ensures { result ≡ specs.is_as_written functions.now bodies.now written.entry.standing written.entry.name.now.name }
{
    let name = &written.name.name;
    match written.standing {
        Standing::Plain => is_among(bodies, name),
        Standing::Import => is_among(functions, name) && !is_among(bodies, name),
        Standing::Extern => is_among(functions, name) && !is_among(bodies, name),
    }
}

/// Refuses a declaration whose types are unlike the function's, and one whose function is not as it is written.
fn judge_name(around: Around<'_>, written: Written<'_>, unlike: bool) -> Result<(), Halt>
    ensures exact { Gives (λ u. u) result (clauses.name_judged written.entry.name.now unlike (specs.is_as_written around.entry.functions.now around.entry.bodies.now written.entry.standing written.entry.name.now.name)) }
{
    if unlike {
        return Err(Halt::Refused(refused_name(Code::TypeDiffers, written.name)?));
    }
    if is_as_written(around.functions, around.bodies, written) {
        return Ok(());
    }
    Err(Halt::Refused(refused_name(Code::BodyDiffers, written.name)?))
}

/// Whether the types of a declaration that is refused are unlike its function's.
fn refused_is_unlike(
    alloc: Global,
    around: Around<'_>,
    text: Text<'_>,
    at: u32,
    written: Written<'_>,
) -> Result<bool, AllocError>
    requires at { at ≤ length text.tokens.now.items }
    requires count { length text.tokens.now.items < 2 ^ 32 }
    ensures { IfOk result (clauses.RefusedUnlike text.entry.bytes.now text.entry.tokens.now around.entry.functions.now written.entry.standing written.entry.name.now (outermost around.entry.scope.now) around.entry.items.now at) }
{
    let typed = typed_behind_at(alloc, around.scope, around.items, text, at, written);
    typed_is_unlike(around.functions, &written.name.name, &typed)
}

/// The same of what stopped the reading.
fn stopped_is_unlike(
    alloc: Global,
    around: Around<'_>,
    text: Text<'_>,
    at: u32,
    written: Written<'_>,
    halt: &Halt,
) -> Result<bool, AllocError>
    requires at { at ≤ length text.tokens.now.items }
    requires count { length text.tokens.now.items < 2 ^ 32 }
    ensures { IfOk result (clauses.StoppedUnlike text.entry.bytes.now text.entry.tokens.now around.entry.functions.now written.entry.standing written.entry.name.now (outermost around.entry.scope.now) around.entry.items.now at halt.now) }
{
    match halt {
        Halt::Refused(_) => refused_is_unlike(alloc, around, text, at, written),
        Halt::Memory => Err(AllocError),
    }
}

/// Whether the types of what was read are unlike the function's.
fn read_is_unlike(
    alloc: Global,
    around: Around<'_>,
    text: Text<'_>,
    at: u32,
    written: Written<'_>,
    read: &Result<(Declaration, u32), Halt>,
) -> Result<bool, AllocError>
    requires at { at ≤ length text.tokens.now.items }
    requires count { length text.tokens.now.items < 2 ^ 32 }
    ensures { IfOk result (clauses.ReadUnlike text.entry.bytes.now text.entry.tokens.now around.entry.functions.now written.entry.standing written.entry.name.now (outermost around.entry.scope.now) around.entry.items.now at read.now) }
{
    match read {
        Ok((declaration, _)) => {
            let spec = declaration.spec.get();
            let name = &written.name.name;
            Ok(is_unlike(around.functions, name, spec.params.as_slice(), &spec.result))
        }
        Err(halt) => stopped_is_unlike(alloc, around, text, at, written, halt),
    }
}

/// A declaration behind its name, judged there.
fn judged_behind_at(
    alloc: Global,
    around: Around<'_>,
    text: Text<'_>,
    at: u32,
    written: Written<'_>,
) -> Result<(Declaration, u32), Halt>
    requires at { at ≤ length text.tokens.now.items }
    requires count { length text.tokens.now.items < 2 ^ 32 }
    ensures exact { Answers (λ x. x) (specs.judged_behind text.entry.bytes.now text.entry.tokens.now around.entry.functions.now around.entry.bodies.now written.entry.standing written.entry.name.now (outermost around.entry.scope.now) around.entry.items.now at) result }
    ensures within { IfOk result (λ x. x.1 ≤ length text.entry.tokens.now.items) }
{
    let read = behind_name_at(alloc, around.scope, around.items, text, at, written);
    let unlike = read_is_unlike(alloc, around, text, at, written, &read)?;
    judge_name(around, written, unlike)?;
    read
}

/// A declaration, `["IMPORT" | "EXTERN"] name [by] (spec | "SPEC" name) ";"`, from the token behind DECLARE on, where no
/// bracket is open before it, and the number of the token behind it. Else the first refusal: 522 at the name where the types
/// are unlike the function's, also where something between them is refused; 523 there where the function is not as the
/// declaration says; else 302 and 501 where the tokens so far begin no declaration, 502 at a name that stands for nothing,
/// 503 at what does not fit its place, 802 at what is beyond the limits; at one place the first of these.
pub fn declaration_at(
    alloc: Global,
    around: Around<'_>,
    text: Text<'_>,
    at: u32,
) -> Result<(Declaration, u32), Halt>
    requires at { at ≤ length text.tokens.now.items }
    requires count { length text.tokens.now.items < 2 ^ 32 }
    ensures exact { Answers (λ x. x) (specs.declaration text.entry.bytes.now text.entry.tokens.now around.entry.functions.now around.entry.bodies.now (outermost around.entry.scope.now) around.entry.items.now at) result }
    ensures within { IfOk result (λ x. x.1 ≤ length text.entry.tokens.now.items) }
{
    let standing = standing_at(text, at);
    let first = at + words_of(standing);
    let (name, second) = take_function_name(alloc, text, first)?;
    let written = Written {
        standing,
        name: &name,
    };
    judged_behind_at(alloc, around, text, second, written)
}
