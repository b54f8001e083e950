//! Readers of commands and proofs.
ghost use Rattle.std.specs.Prelude.{◌≡◌, ◌++◌, ◌∷◌, [], IfOk, OnOk};
ghost use Rattle.floyd_grammar.specs.GivesClauses.{Gives};
ghost use Rattle.floyd_grammar.specs.ParseClauses.{leads};
ghost use Rattle.floyd_lex.specs.Token.{part_of};
ghost use Rattle.floyd_script.specs.Scripts as g;
ghost use Rattle.floyd_script.specs.ScriptClauses as r;

use floyd_cparse_trees::Identifier;
use floyd_grammar::Stop;
use floyd_lex::Tokens;
use floyd_script_arguments::read_arguments;
use floyd_script_tokens::{Head, Reader};
use floyd_script_trees::{Command, CommandList, Proof, Script, shape_of};
use floyd_text::{Bytes, Place, Shared};
use sqlite_items::Items;
use std::alloc::{AllocError, Global};

/// The tokens from `from` on, those before `to`, of which there may be none.
fn part_between(
    alloc: Global,
    tokens: &Tokens,
    from: usize,
    to: usize,
) -> Result<Tokens, AllocError>
    ensures { IfOk result (λ part. part ≡ part_of tokens.now from to) }
{
    let count = tokens.len();
    if from > to || from > count {
        return tokens.part(alloc, 0, 0);
    }
    if to > count {
        return tokens.part(alloc, from, count);
    }
    tokens.part(alloc, from, to)
}

/// The command from its word to its `;`.
fn command_of(
    alloc: Global,
    bytes: &Shared<Bytes>,
    tokens: &Tokens,
    head: Head,
    end: usize,
) -> Result<Command, AllocError>
    ensures { IfOk result (λ c. c ≡ g.command_of bytes.now tokens.now head end) }
{
    Ok(Command {
        place: head.place,
        rule: head.rule,
        tokens: part_between(alloc, tokens, head.at, end)?,
        bytes: bytes.share()?,
    })
}

fn take_head(reader: &mut Reader<'_>) -> Result<Head, Stop>
    ensures { Gives result reader.new (r.take_head reader.old) }
{
    let token = reader.peek()?;
    reader.take(token.head())
}

fn take_end(reader: &mut Reader<'_>) -> Result<usize, Stop>
    ensures { Gives result reader.new (r.take_end reader.old) }
{
    let token = reader.peek()?;
    reader.take(token.end())
}

fn take_named(alloc: Global, reader: &mut Reader<'_>) -> Result<Identifier, Stop>
    ensures { Gives result reader.new (r.take_named reader.old) }
{
    let token = reader.peek()?;
    let named = token.named(alloc)?;
    reader.take(named)
}

fn take_qed(reader: &mut Reader<'_>) -> Result<Place, Stop>
    ensures { Gives result reader.new (r.take_qed reader.old) }
{
    let token = reader.peek()?;
    reader.take(token.place_if(token.is_word(b"QED".as_slice())))
}

/// `word arguments ";"`
#[tactic(auto, unfolding(crate::specs::ScriptClauses::command))]
fn read_command(
    alloc: Global,
    reader: &mut Reader<'_>,
    bytes: &Shared<Bytes>,
    tokens: &Tokens,
) -> Result<Command, Stop>
    ensures { Gives result reader.new (r.command bytes.now tokens.now reader.old) }
{
    let head = take_head(reader)?;
    read_arguments(reader, shape_of(head.rule))?;
    let end = take_end(reader)?;
    Ok(command_of(alloc, bytes, tokens, head, end)?)
}

/// There is a next token, which is not `QED`.
fn goes_on(reader: &Reader<'_>) -> bool
    ensures { result ≡ leads r.begins_command reader.now }
{
    reader.leads_other_word(b"QED".as_slice())
}

/// The commands up to a `QED`.
#[tactic(auto, unfolding(crate::specs::ScriptClauses::commands))]
fn read_commands(
    alloc: Global,
    reader: &mut Reader<'_>,
    bytes: &Shared<Bytes>,
    tokens: &Tokens,
) -> Result<CommandList, Stop>
    ensures { Gives result reader.new (r.commands bytes.now tokens.now reader.old) }
{
    let mut all = Items::new(alloc);
    'each: while goes_on(reader) {
        let command = read_command(alloc, reader, bytes, tokens)?;
        all.push(command)?;
    }
    Ok(all)
}

/// `"PROOF" name { command } "QED"`
#[tactic(auto, unfolding(crate::specs::ScriptClauses::proof))]
fn read_proof(
    alloc: Global,
    reader: &mut Reader<'_>,
    bytes: &Shared<Bytes>,
    tokens: &Tokens,
) -> Result<Proof, Stop>
    ensures { Gives result reader.new (r.proof bytes.now tokens.now reader.old) }
{
    reader.take_word(b"PROOF".as_slice())?;
    let named = take_named(alloc, reader)?;
    let commands = read_commands(alloc, reader, bytes, tokens)?;
    let end = take_qed(reader)?;
    Ok(Proof {
        name: named.name.share()?,
        place: named.place,
        commands,
        end,
    })
}

/// All proofs, to the last token.
#[tactic(auto, unfolding(crate::specs::ScriptClauses::script))]
pub fn read_proofs(
    alloc: Global,
    reader: &mut Reader<'_>,
    bytes: &Shared<Bytes>,
    tokens: &Tokens,
) -> Result<Script, Stop>
    ensures gives { Gives result reader.new (r.script bytes.now tokens.now reader.old) }
    ensures all { OnOk result (reader.new ≡ []) }
{
    let mut all = Items::new(alloc);
    'each: while reader.leads_any() {
        let proof = read_proof(alloc, reader, bytes, tokens)?;
        all.push(proof)?;
    }
    Ok(all)
}
