ghost use Rattle.floyd_script.specs.Reading as specs;

/// The tokens of a script read in one way at most.
pub fn has_one_reading()
    ensures { specs.HasOneReading }
{}

/// What tokens that read begin with is a front.
pub fn beginnings_are_fronts()
    ensures { specs.BeginningsAreFronts }
{}
