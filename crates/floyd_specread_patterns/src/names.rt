//! Names of a pattern.
ghost use Rattle.std.specs.Prelude.{◌≡◌, ◌≤◌, ◌<◌, ◌+◌, ◌^◌, IfOk, length};
ghost use Rattle.floyd_specread_patterns.specs.NameClauses as clauses;
ghost use Rattle.floyd_specread_patterns.specs.Patterns as specs;
ghost use Rattle.floyd_termread_marks.specs.Marks as marks;
ghost use Rattle.floyd_termread_phrases.specs.Reads.{Answers};
ghost use Rattle.floyd_termread_tokens.specs.Tokens.{free_name};

use floyd_cparse_trees::Identifier;
use floyd_termread_marks::take;
use floyd_termread_phrases::{Spot, Text};
use floyd_termread_tokens::Reader;
use floyd_text::{Halt, Name};
use std::alloc::{AllocError, Global};

/// The names of a pattern before another.
#[derive(Clone, Copy)]
pub(crate) enum Others<'a, 'b> {
    Nothing,
    One(&'a Name),
    Two(&'a Name, &'b Name),
}

impl<'a, 'b> Others<'a, 'b> {
    fn has(self, name: &Name) -> bool
        ensures { result ≡ specs.is_taken (clauses.names_of self.entry) name.now }
    {
        match self {
            Others::Nothing => false,
            Others::One(other) => other == name,
            Others::Two(first, second) => first == name || second == name,
        }
    }
}

/// The name that the next token is and that is no word.
fn free_name_at(alloc: Global, text: Text<'_>, at: u32) -> Result<Option<Identifier>, AllocError>
    requires { at ≤ length text.tokens.now.items }
    ensures { IfOk result (λ x. x ≡ marks.found_in free_name (marks.tokens_at text.entry.bytes.now text.entry.tokens.now at)) }
{
    match Reader::new(text.bytes, text.tokens, at as usize).peek() {
        Ok(token) => token.free_name(alloc),
        Err(_) => Ok(None),
    }
}

/// The name, unless it is one of the others.
fn unless_taken(
    found: Option<Identifier>,
    others: Others<'_, '_>,
) -> Result<Option<Name>, AllocError>
    ensures { IfOk result (λ x. x ≡ specs.unless_taken (clauses.names_of others.entry) found) }
{
    match found {
        Some(found) => {
            if others.has(&found.name) {
                Ok(None)
            } else {
                Ok(Some(found.name.share()?))
            }
        }
        None => Ok(None),
    }
}

/// A name that is none of the others and no word, and the number of the token behind it.
pub(crate) fn new_name_at(
    alloc: Global,
    text: Text<'_>,
    spot: Spot,
    others: Others<'_, '_>,
) -> Result<(Name, u32), Halt>
    requires at { spot.at ≤ length text.tokens.now.items }
    requires count { length text.tokens.now.items < 2 ^ 32 }
    ensures exact { Answers (λ x. x) (specs.fresh text.entry.bytes.now text.entry.tokens.now spot.depth (clauses.names_of others.entry) spot.at) result }
    ensures behind { IfOk result (λ x. x.1 ≡ spot.at + 1) }
    ensures within { IfOk result (λ x. x.1 ≤ length text.entry.tokens.now.items) }
{
    let found = free_name_at(alloc, text, spot.at)?;
    let name = unless_taken(found, others)?;
    take(text, spot, name)
}
