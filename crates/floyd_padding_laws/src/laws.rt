ghost use Rattle.floyd_padding_laws.specs.Laws as laws;

/// A struct whose fields fill it may be taken apart into its fields, and put together from them: its padding has no byte.
pub fn structs_without_padding()
    ensures split { laws.FilledIsSplit }
    ensures joined { laws.FilledIsJoined }
{}
