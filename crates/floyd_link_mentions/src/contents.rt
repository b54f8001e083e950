//! Names in the contents of variables.
ghost use Rattle.std.specs.Prelude.{◌≡◌, OnOk};
ghost use Rattle.floyd_link_mentions.specs.MentionClauses as clauses;

use floyd_assert_trees::Names;
use floyd_clight::Initial;
use floyd_specread_sources::put_new;
use std::alloc::AllocError;

/// Adds the names in the contents of a variable, or of a part of it.
#[cycle(mention)]
#[tactic(auto, using(crate::proofs::RowLemmas::parts_seq))]
pub fn put_contents(names: &mut Names, contents: &Initial) -> Result<(), AllocError>
    ensures { OnOk result (names.new ≡ clauses.with_contents contents.now names.old) }
{
    match contents {
        Initial::Absent => Ok(()),
        Initial::Int(_, _) => Ok(()),
        Initial::Null => Ok(()),
        Initial::Address(name) => {
            let name = name.share()?;
            put_new(names, name, ())
        }
        Initial::Element(name, _) => {
            let name = name.share()?;
            put_new(names, name, ())
        }
        Initial::Parts(parts) => put_parts(names, parts.as_slice()),
    }
}

#[cycle(mention)]
fn put_parts(names: &mut Names, parts: &[Initial]) -> Result<(), AllocError>
    ensures { OnOk result (names.new ≡ clauses.with_items parts.now names.old) }
{
    'parts: for part in parts {
        put_contents(names, part)?;
    }
    Ok(())
}

/// The same where there are some.
pub fn put_initial(names: &mut Names, contents: &Option<Initial>) -> Result<(), AllocError>
    ensures { OnOk result (names.new ≡ clauses.with_initial contents.now names.old) }
{
    match contents {
        None => Ok(()),
        Some(contents) => put_contents(names, contents),
    }
}
