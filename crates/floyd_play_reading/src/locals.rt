//! The names of local variables.
ghost use Rattle.std.specs.Prelude.{◌≡◌, IfOk, OnOk};
ghost use Rattle.floyd_play_reading.specs.Names as specs;

use floyd_assert_trees::{Names, Table};
use floyd_clight::Local;
use floyd_text::Name;
use std::alloc::{AllocError, Global};

fn add_name(names: &mut Names, name: &Name) -> Result<(), AllocError>
    ensures { OnOk result (names.new ≡ specs.with_name names.old name.now) }
{
    if names.get(name).is_none() {
        names.add(name.share()?, ())?;
    }
    Ok(())
}

/// The names of these blocks, each once.
pub(crate) fn names_of(alloc: Global, blocks: &[Local]) -> Result<Names, AllocError>
    ensures { IfOk result (λ names. names ≡ specs.local_names blocks.now) }
{
    let mut names = Table::new(alloc);
    'each: for block in blocks {
        add_name(&mut names, &block.name)?;
    }
    Ok(names)
}
