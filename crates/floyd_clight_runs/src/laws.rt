ghost use Rattle.floyd_clight_runs.specs.Laws as laws;

/// What an expression gives over a heaplet, it gives over each memory that the heaplet fits, and it loads from places of
/// the heaplet alone.
pub fn heaplets_stand_for_memory()
    ensures { laws.HeapletsStandForMemory }
{}

/// A small program has a start, its external function has a lawful answer, and it is sound.
pub fn premises_are_met()
    ensures start { laws.AStartExists }
    ensures answer { laws.AnAnswerExists }
    ensures sound { laws.ASoundProgramExists }
{}
