//! The proofs of a script, or the refusal of its tokens.
ghost use Rattle.std.specs.Prelude.{◌≡◌, ◌<◌, ◌^◌, length, IfOk};
ghost use Rattle.floyd_script.specs.Reading as specs;
ghost use Rattle.floyd_script_tokens.specs.Sights.{sights_of};

use crate::proofs_of::read_proofs;
use floyd_grammar::{Fault, Stop};
use floyd_lex::Tokens;
use floyd_script_tokens::{Reader, UNEXPECTED, UNKNOWN};
use floyd_script_trees::Script;
use floyd_termread_tokens::Reader as TermReader;
use floyd_text::{Bytes, Code, Halt, Name, Refusal, Shared, Shown, place_of};
use std::alloc::{AllocError, Global};

/// The proofs of a script, with the tokens of their commands. What terms and formulas say is not read here.
///
/// A script that does not read is refused at the first token with which the tokens so far begin no script, or at the end
/// of the file: 302 for a bracket that opens in 200 others, 602 for a name where a command may begin that is none, which
/// is shown, and else 601.
///
/// `file` is the file's number, and the tokens are those that `tokens` gives on these bytes of a script.
pub fn read_script(alloc: Global, file: u32, bytes: &[u8], tokens: &Tokens) -> Result<Script, Halt>
    requires count { length tokens.now.items < 2 ^ 32 }
    ensures exact { specs.Answers (specs.IsRead file bytes.now tokens.now) result }
{
    let shared = Shared::new(alloc, Bytes::from_slice(alloc, bytes)?)?;
    let mut reader = Reader::new(bytes, tokens);
    match read_proofs(alloc, &mut reader, &shared, tokens) {
        Ok(script) => Ok(script),
        Err(Stop::Fault(fault)) => {
            let refusal = refusal_of(alloc, file, bytes, tokens, fault)?;
            Err(Halt::Refused(refusal))
        }
        Err(Stop::Memory) => Err(Halt::Memory),
    }
}

/// The refusal of these tokens.
fn refusal_of(
    alloc: Global,
    file: u32,
    bytes: &[u8],
    tokens: &Tokens,
    fault: Fault,
) -> Result<Refusal, AllocError>
    ensures { IfOk result (λ r. r ≡ specs.refusal_of file bytes.now (sights_of bytes.now tokens.now) fault) }
{
    let at = tokens.len().saturating_sub(fault.left);
    match TermReader::new(bytes, tokens, at).peek() {
        Ok(token) => {
            let shown = shown_of(alloc, fault.cause, token.text())?;
            Ok(Refusal::at(code_of(fault.cause), token.place(), shown))
        }
        Err(_) => {
            let place = place_of(file, bytes, bytes.len());
            Ok(Refusal::at(Code::UnexpectedInScript, place, Shown::Nothing))
        }
    }
}

/// The code of a refusal for that cause.
fn code_of(cause: u8) -> Code
    ensures { result ≡ specs.code_of cause }
{
    if cause == UNEXPECTED {
        Code::UnexpectedInScript
    } else if cause == UNKNOWN {
        Code::UnknownCommand
    } else {
        Code::TooDeep
    }
}

/// A name that is no command is shown.
fn shown_of(alloc: Global, cause: u8, text: &[u8]) -> Result<Shown, AllocError>
    ensures { IfOk result (λ shown. shown ≡ specs.shown_of cause text.now) }
{
    if cause == UNKNOWN {
        Ok(Shown::Name(Name::from_slice(alloc, text)?))
    } else {
        Ok(Shown::Nothing)
    }
}
