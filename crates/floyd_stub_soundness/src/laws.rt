ghost use Rattle.std.specs.Prelude.{◌≡◌, List};
ghost use Rattle.floyd_clight.specs.declared.syntax.Stmt.{Stmt};
ghost use Rattle.floyd_stub_assert.specs.declared.funspec.Funspec.{Funspec};
ghost use Rattle.floyd_stub_goal.specs.declared.script.Proof.{Proof};
ghost use Rattle.floyd_stub_goal.specs.Starts.{main_start};
ghost use Rattle.floyd_stub_play.specs.Derivation.{played};
ghost use Rattle.floyd_stub_runs.specs.Linked.{linked};
ghost use Rattle.floyd_stub_runs.specs.Sound.{Sound};

/// A main is sound where some proof plays through from its start.
pub fn derived_programs_are_sound()
    ensures { (statements : List Stmt) (spec : Funspec) (proof : Proof) → played proof (main_start statements spec) ≡ Ok tt → Sound (linked statements spec) }
{}
