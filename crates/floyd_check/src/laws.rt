ghost use Rattle.std.specs.Prelude.{◌≡◌, ℕ, List, Result, Err, IsSome, slice_get};
ghost use Rattle.floyd_text.specs.declared.refusal.Refusal.{Refusal};
ghost use Rattle.floyd_text.specs.Outside.{Files};
ghost use Rattle.floyd_lex.specs.declared.kinds.FileKind.{FileKind};
ghost use Rattle.floyd_lex.specs.Cuts.{IsCut};
ghost use Rattle.floyd_lex.specs.Token.{TokenList};
ghost use Rattle.floyd_stub_soundness.specs.declared.program.MainProgram.{MainProgram};
ghost use Rattle.floyd_check.specs.Loading.{names_in};
ghost use Rattle.floyd_check.specs.Verdict.{IsVerdict};

/// A project has one verdict at most, and so one program that is accepted.
pub fn one_verdict()
    ensures { (held : Files) (name : List ℕ) (v w : Result MainProgram Refusal) → IsVerdict held name v → IsVerdict held name w → v ≡ w }
{}

/// Each project has a verdict, whatever files are held.
pub fn has_verdict()
    ensures { (held : Files) (name : List ℕ) → (v : Result MainProgram Refusal) × IsVerdict held name v }
{}

/// Each file is cut into tokens or refused, whatever its bytes.
pub fn has_cut()
    ensures { (kind : FileKind) (file : ℕ) (bytes : List ℕ) → (answer : Result TokenList Refusal) × IsCut kind file bytes answer }
{}

/// Each refusal of a verdict stands in a file of the project that has a name.
pub fn refusals_have_files()
    ensures { (held : Files) (name : List ℕ) (r : Refusal) → IsVerdict held name (Err r) → IsSome (slice_get (names_in held name) r.place.file) }
{}
