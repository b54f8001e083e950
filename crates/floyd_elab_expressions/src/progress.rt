ghost use Rattle.std.specs.Prelude.{◌≡◌, IfOk, OnOk};
ghost use Rattle.floyd_text.specs.Gives.{Gives};
ghost use Rattle.floyd_elab_expressions.specs.Progress.{draw as draw_lem, pull as pull_lem, add_temporary as add_temporary_lem, add_block as add_block_lem, add_name as add_name_lem};

use crate::name_list::NameList;
use crate::names::pulled_name;
use floyd_clight::{Local, LocalList};
use floyd_ctypes::CType;
use floyd_elab_names::Tags;
use floyd_text::{Halt, Name};
use std::alloc::{AllocError, Global};

/// What elaboration keeps while it goes through a function.
pub struct Progress {
    /// The structs of the file.
    pub tags: Tags,
    /// How many numbers of pulled reads were drawn.
    pub drawn: u64,
    /// The name of each declaration so far, the parameters' too.
    pub names: NameList,
    /// The temporaries that are no parameters.
    pub temporaries: LocalList,
    /// The variables with a block.
    pub blocks: LocalList,
}

impl Drop for Progress {
    fn drop(self) {
        let Progress {
            tags,
            drawn: _,
            names,
            temporaries,
            blocks,
        } = self;
        drop(tags);
        drop(names);
        drop(temporaries);
        drop(blocks);
    }
}

impl Progress {
    /// The structs, the temporaries that are no parameters, and the variables with a block.
    pub fn into_parts(self) -> (Tags, LocalList, LocalList)
        ensures { result ≡ (self.tags, self.temporaries, self.blocks) }
    {
        let Progress {
            tags,
            drawn: _,
            names,
            temporaries,
            blocks,
        } = self;
        drop(names);
        (tags, temporaries, blocks)
    }

    /// Draws the next number.
    pub fn draw(&mut self) -> Result<u64, Halt>
        ensures exact { Gives (λ k. (k, self.new)) result (draw_lem self.old) }
    {
        match self.drawn.checked_add(1) {
            Some(k) => {
                self.drawn = k;
                Ok(k)
            }
            None => Err(Halt::Memory),
        }
    }

    pub fn add_temporary(&mut self, name: Name, ctype: CType) -> Result<(), Halt>
        ensures exact { Gives (λ u. (u, self.new)) result (add_temporary_lem name ctype self.old) }
    {
        self.temporaries.push(Local { name, ctype })?;
        Ok(())
    }

    pub fn add_block(&mut self, name: Name, ctype: CType) -> Result<(), Halt>
        ensures exact { Gives (λ u. (u, self.new)) result (add_block_lem name ctype self.old) }
    {
        self.blocks.push(Local { name, ctype })?;
        Ok(())
    }

    pub fn add_name(&mut self, name: &Name) -> Result<(), Halt>
        ensures exact { Gives (λ u. (u, self.new)) result (add_name_lem name.now self.old) }
    {
        self.names.add(name)?;
        Ok(())
    }

    /// A temporary of the next number.
    pub fn pull(&mut self, alloc: Global, ctype: CType) -> Result<Name, Halt>
        ensures exact { Gives (λ x. (x, self.new)) result (pull_lem ctype self.old) }
    {
        let k = self.draw()?;
        let name = pulled_name(alloc, k)?;
        self.add_temporary(name.share()?, ctype)?;
        Ok(name)
    }
}
