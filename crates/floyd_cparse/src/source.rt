ghost use Rattle.std.specs.Prelude.{◌≡◌, IfOk};
ghost use Rattle.floyd_grammar.specs.GivesClauses.{GivesAll};
ghost use Rattle.floyd_grammar.specs.ParseClauses.{whole};
ghost use Rattle.floyd_cparse.specs.Source as specs;
ghost use Rattle.floyd_cparse.specs.UnitClauses.{unit};

use crate::read_units::read_unit;
use floyd_cparse_tokens::{LEFT_OUT, Reader, SHADOWED, UNEXPECTED};
use floyd_cparse_trees::CUnit;
use floyd_grammar::{Fault, Stop};
use floyd_lex::Tokens;
use floyd_text::{Code, Halt, Name, Refusal, Shown, place_of};
use std::alloc::{AllocError, Global};

/// The syntax tree of a source of C, from its bytes and their tokens, or its first refusal: 301 at the first token with
/// which the tokens so far begin nothing that reads, or at the end of the file; there before it 302 where the token
/// stands deeper than 200, then 303 where it names or begins what the profile leaves out, which is shown, and then 304
/// where it is a name of a type that a declarator declares as something else, which is shown.
///
/// The tokens are those that `tokens` gives on these bytes of a source with this number.
pub fn parse(alloc: Global, file: u32, bytes: &[u8], tokens: &Tokens) -> Result<CUnit, Halt>
    ensures exact { specs.Answers (specs.IsRead file bytes.now tokens.now) result }
{
    match read_all(alloc, bytes, tokens) {
        Ok(unit) => Ok(unit),
        Err(Stop::Fault(fault)) => {
            Err(Halt::Refused(refusal_of(alloc, file, bytes, tokens, fault)?))
        }
        Err(Stop::Memory) => Err(Halt::Memory),
    }
}

/// Reads all tokens.
fn read_all(alloc: Global, bytes: &[u8], tokens: &Tokens) -> Result<CUnit, Stop>
    ensures { GivesAll result (whole unit (specs.tokens_of bytes.now tokens.now)) }
{
    let mut reader = Reader::new(bytes, tokens);
    let unit = read_unit(alloc, &mut reader)?;
    reader.finish(unit)
}

/// The refusal of tokens that do not read.
fn refusal_of(
    alloc: Global,
    file: u32,
    bytes: &[u8],
    tokens: &Tokens,
    fault: Fault,
) -> Result<Refusal, AllocError>
    ensures { IfOk result (λ r. r ≡ specs.refusal_of file bytes.now (specs.tokens_of bytes.now tokens.now) fault) }
{
    let at = tokens.len().saturating_sub(fault.left);
    if at == tokens.len() {
        let place = place_of(file, bytes, bytes.len());
        return Ok(Refusal::at(Code::UnexpectedInSource, place, Shown::Nothing));
    }
    let shown = shown_of(alloc, fault.cause, tokens.text(bytes, at))?;
    Ok(Refusal::at(code_of(fault.cause), tokens.place(at), shown))
}

/// The code of a refusal for that cause.
fn code_of(cause: u8) -> Code
    ensures { result ≡ specs.code_of cause }
{
    if cause == UNEXPECTED {
        Code::UnexpectedInSource
    } else if cause == SHADOWED {
        Code::TypedefShadowed
    } else if cause == LEFT_OUT {
        Code::OutOfProfile
    } else {
        Code::TooDeep
    }
}

fn shown_of(alloc: Global, cause: u8, text: &[u8]) -> Result<Shown, AllocError>
    ensures { IfOk result (λ s. s ≡ specs.shown_of cause text.now) }
{
    if cause == SHADOWED || cause == LEFT_OUT {
        Ok(Shown::Name(Name::from_slice(alloc, text)?))
    } else {
        Ok(Shown::Nothing)
    }
}
