use floyd_lex::Tokens;
use floyd_text::{Bytes, Name, Place, Rule, Shared};
use sqlite_items::Items;

/// A command of a proof, with its tokens from its word up to and with its `;`, and all bytes of its script, in which
/// their texts stand. Its terms are read against the goal when it is played.
pub struct Command {
    pub place: Place,
    pub rule: Rule,
    pub tokens: Tokens,
    pub bytes: Shared<Bytes>,
}

impl Drop for Command {
    fn drop(self) {
        let Command {
            place: _,
            rule: _,
            tokens,
            bytes,
        } = self;
        drop(tokens);
        drop(bytes);
    }
}

pub type CommandList = Items<Command>;

/// The proof of a function or a lemma.
pub struct Proof {
    pub name: Name,
    /// The place of the name.
    pub place: Place,
    pub commands: CommandList,
    /// The place of its `QED`.
    pub end: Place,
}

impl Drop for Proof {
    fn drop(self) {
        let Proof {
            name,
            place: _,
            commands,
            end: _,
        } = self;
        drop(name);
        drop(commands);
    }
}

/// A script: its proofs, in order.
pub type Script = Items<Proof>;
