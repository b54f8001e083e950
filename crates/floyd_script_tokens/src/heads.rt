//! What the first token of a command and of a phrase says.

use floyd_text::{Place, Rule};

/// A command's word: its place, the command, and the token's number.
#[derive(Clone, Copy)]
pub struct Head {
    pub place: Place,
    pub rule: Rule,
    pub at: usize,
}

/// A token of a phrase: one without meaning here, or a bracket that opens.
#[derive(Clone, Copy)]
pub enum Opening {
    Plain,
    Round,
    Square,
}
