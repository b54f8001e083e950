//! The script of a proof of `main`.
ghost use Rattle.std.specs.Prelude.{◌≡◌, [], List, IfOk};
ghost use Rattle.floyd_lex.specs.Token.{Token, tokens_in};
ghost use Rattle.floyd_stub_goal.specs.declared.script.Proof.{Proof};
ghost use Rattle.floyd_check_stub.specs.Forms.{IsScript, ReadsAs, rule_of};
ghost use Rattle.floyd_check_stub.specs.LeftClauses.{left};
ghost use Rattle.floyd_check_stub.specs.ReadingClauses.{command_of, commands_of, main_proof as main_proof_lem, script_of};

use crate::left::{Left, all_of, first_token, placed_token};
use floyd_lex::Tokens;
use floyd_stub_goal::{Command, CommandList, Proof};
use floyd_text::{Name, Place, Rule};
use std::alloc::{AllocError, Global};

fn rule_of(word: &[u8]) -> Option<Rule>
    ensures { result ≡ rule_of word.now }
{
    if word == b"forward".as_slice() {
        Some(Rule::Forward)
    } else if word == b"cancel".as_slice() {
        Some(Rule::Cancel)
    } else {
        None
    }
}

/// The rule of a command, if its `;` follows.
fn command_of(word: &[u8], semicolon: &[u8]) -> Option<Rule>
    ensures { result ≡ command_of word.now semicolon.now }
{
    if semicolon == b";".as_slice() {
        rule_of(word)
    } else {
        None
    }
}

/// The proof of `main` with these commands, if its last word is `QED`.
fn main_proof(
    alloc: Global,
    commands: CommandList,
    word: &[u8],
    end: Place,
) -> Result<Option<Proof>, AllocError>
    ensures { IfOk result (λ p. p ≡ main_proof_lem commands word.now end) }
{
    if word != b"QED".as_slice() {
        return Ok(None);
    }
    Ok(Some(Proof {
        name: Name::from_slice(alloc, "main".as_bytes())?,
        commands,
        end,
    }))
}

/// The proof of which the tokens are its commands and its end.
fn commands_from(alloc: Global, tokens: Left<'_>) -> Result<Option<Proof>, AllocError>
    ensures { IfOk result (λ s. s ≡ commands_of [] (left tokens.entry)) }
{
    let mut commands = CommandList::new(alloc);
    let mut rest = tokens;
    'commands: while let Some(word) = placed_token(rest) {
        let semicolon = match first_token(word.rest) {
            Some(semicolon) => semicolon,
            None => return main_proof(alloc, commands, word.text, word.place),
        };
        match command_of(word.text, semicolon.text) {
            Some(rule) => commands.push(Command {
                rule,
                place: word.place,
            })?,
            None => return Ok(None),
        }
        rest = semicolon.rest;
    }
    Ok(None)
}

fn script_of(alloc: Global, tokens: Left<'_>) -> Result<Option<Proof>, AllocError>
    ensures { IfOk result (λ s. s ≡ script_of (left tokens.entry)) }
{
    let proof = match first_token(tokens) {
        Some(proof) => proof,
        None => return Ok(None),
    };
    let name = match first_token(proof.rest) {
        Some(name) => name,
        None => return Ok(None),
    };
    if proof.text != b"PROOF".as_slice() || name.text != b"main".as_slice() {
        return Ok(None);
    }
    commands_from(alloc, name.rest)
}

/// Reads the tokens of a script, and none where they have another form: `PROOF main`, commands of `forward` and
/// `cancel`, each with its `;`, and `QED`. The form is that of the tactics of the Verifiable C manual. The bytes are
/// those of the tokens' file.
pub fn read_script(
    alloc: Global,
    bytes: &[u8],
    tokens: &Tokens,
) -> Result<Option<Proof>, AllocError>
    ensures { IfOk result (ReadsAs (IsScript (tokens_in bytes.now tokens.now))) }
{
    script_of(alloc, all_of(bytes, tokens))
}

/// Tokens are one script at most.
pub fn one_script()
    ensures { (ts : List Token) (s t : Proof) → IsScript ts s → IsScript ts t → s ≡ t }
{}
