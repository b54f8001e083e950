ghost use Rattle.floyd_cparse.specs.Source as specs;

/// The tokens of a source read in one way at most: as one tree, or with one refusal.
pub fn has_one_reading()
    ensures { specs.HasOneReading }
{}

/// What tokens that read begin with is a front: tokens that may still read.
pub fn beginnings_are_fronts()
    ensures { specs.BeginningsAreFronts }
{}
