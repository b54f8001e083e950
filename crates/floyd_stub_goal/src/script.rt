use floyd_text::{Name, Place, Rule};
use sqlite_items::Items;

/// A command of a script.
#[derive(Clone, Copy, PartialEq, Eq, Debug)]
pub struct Command {
    pub place: Place,
    pub rule: Rule,
}

pub type CommandList = Items<Command>;

/// A proof of a script: its name, its commands, and the place of its `QED`.
#[derive(Debug)]
pub struct Proof {
    pub name: Name,
    pub commands: CommandList,
    pub end: Place,
}

impl Drop for Proof {
    fn drop(self) {
        let Proof {
            name,
            commands,
            end: _,
        } = self;
        drop(name);
        drop(commands);
    }
}
