ghost use Rattle.floyd_safety_laws.specs.Laws as laws;

/// What is safe for one step more is safe for n steps.
pub fn steps_may_be_fewer()
    ensures { laws.StepsMayBeFewer }
{}

/// What is safe is safe with ways out that are met where the first ones are.
pub fn consequence()
    ensures { laws.WaysOutMayBeWeaker }
{}

/// What is safe with some memory is safe with more, all of which is beside it at each way out.
pub fn frame()
    ensures { laws.MemoryMayStandBeside }
{}

/// A part of a function above further frames, and a call above its caller's, go on from their ways out.
pub fn sequence()
    ensures parts { laws.PartsGoOn }
    ensures calls { laws.CallsGoOn }
{}
