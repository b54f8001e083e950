//! Names under `gv`.
ghost use Rattle.std.specs.Prelude.{◌≡◌, ◌≤◌, ◌<◌, ◌^◌, IfOk, OnOk, length};
ghost use Rattle.floyd_specread_mentions.specs.Mentioned as specs;

use floyd_assert_trees::{Names, Table};
use floyd_cparse_trees::Identifier;
use floyd_specread_sources::put_new;
use floyd_specread_words::is_call;
use floyd_termread_marks::given_name_at;
use floyd_termread_phrases::Text;
use floyd_text::Name;
use std::alloc::{AllocError, Global};

/// The name that the word takes which stands at the token of this number.
fn name_at(
    alloc: Global,
    text: Text<'_>,
    word: &Name,
    at: u32,
) -> Result<Option<Identifier>, AllocError>
    requires at { at < length text.tokens.now.items }
    requires count { length text.tokens.now.items < 2 ^ 32 }
    ensures { IfOk result (λ x. x ≡ specs.name_at text.entry.bytes.now text.entry.tokens.now word.now at) }
{
    if !is_call(text, at, word) {
        return Ok(None);
    }
    given_name_at(alloc, text, at + 2)
}

/// Adds a name, unless it is there.
fn put_name(names: &mut Names, found: Option<Identifier>) -> Result<(), AllocError>
    ensures { OnOk result (names.new ≡ specs.with_name found names.old) }
{
    match found {
        None => Ok(()),
        Some(found) => {
            let name = found.name.share()?;
            put_new(names, name, ())
        }
    }
}

/// The names that the word takes among the tokens.
fn names_of(alloc: Global, text: Text<'_>, word: &Name) -> Result<Names, AllocError>
    requires count { length text.tokens.now.items < 2 ^ 32 }
    ensures { IfOk result (λ names. names ≡ specs.names_among text.entry.bytes.now text.entry.tokens.now word.now (length text.entry.tokens.now.items)) }
{
    let mut names = Table::new(alloc);
    'tokens: for i in 0..text.tokens.len() {
        let found = name_at(alloc, text, word, i as u32)?;
        put_name(&mut names, found)?;
    }
    Ok(names)
}

/// The names that a specification file mentions under `gv`, wherever they stand, in the order in which they stand first.
pub fn mentioned(alloc: Global, text: Text<'_>) -> Result<Names, AllocError>
    requires count { length text.tokens.now.items < 2 ^ 32 }
    ensures { IfOk result (λ names. names ≡ specs.mentioned text.entry.bytes.now text.entry.tokens.now) }
{
    let word = Name::from_slice(alloc, b"gv")?;
    names_of(alloc, text, &word)
}
