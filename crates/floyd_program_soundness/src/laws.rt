ghost use Rattle.floyd_program_soundness.specs.Examples.{IsProved};
ghost use Rattle.floyd_program_soundness.specs.Laws as laws;

/// A linked program is sound where each of its bodies is proved, each import with a specification of its own, and each
/// lemma before a proof that uses it.
pub fn proved_programs_are_sound()
    ensures { laws.ProvedProgramsAreSound }
{}

/// Some program has all that the law asks for: one of `main` alone, which returns 0.
pub fn a_program_is_proved()
    ensures { IsProved }
{}
