ghost use Rattle.floyd_clight_machine.specs.Laws as laws;

/// An expression has the same value, and stands for the same place, in every memory that agrees on the places that it
/// loads and on the permissions of the places whose validity it asks for.
pub fn evaluation_depends_on_its_footprint()
    ensures values { laws.ValuesDependOnFootprints }
    ensures places { laws.PlacesDependOnFootprints }
{}

/// What an expression gives, it gives wherever more is found. The same places are loaded for it, and all of them are there.
pub fn evaluation_lasts()
    ensures values { laws.ValuesLast }
    ensures places { laws.PlacesLast }
{}

/// The step is determined once the answer of an external function is given.
pub fn steps_are_determined()
    ensures { laws.StepsAreDetermined }
{}

/// A configuration that stands at none of its ways out steps alike above any frames, and reads and writes the same. At a
/// way out it goes on from there.
pub fn steps_are_alike_above_frames()
    ensures steps { laws.StepsAlikeAboveFrames }
    ensures exits { laws.ExitsGoOn }
{}

/// The local variables of all activations keep their blocks, which are distinct, of the size of their types and Freeable on
/// it, and the blocks of the program's variables and functions keep kind, size and permission: through each step, and
/// through each answer of an external function that keeps what it should.
pub fn bounds_stay()
    ensures steps { laws.StepsKeepBounds }
    ensures answers { laws.AnswersKeepBounds }
    ensures frames { laws.BoundsAboveFrames }
{}
