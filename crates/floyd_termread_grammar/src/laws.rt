ghost use Rattle.floyd_termread_grammar.specs.Reading as specs;

/// The tokens are read in one way at most: as one tree up to one token, or as one that is cut off with one refusal.
pub fn has_one_reading()
    ensures { specs.HasOneReading }
{}
