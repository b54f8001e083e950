ghost use Rattle.floyd_formed_pure.specs.Rows.{KeepsForms};
ghost use Rattle.floyd_pure_simplifying.specs.Simpl.{SimplRow};

/// The simplified goal is well formed.
pub fn simpl_keeps_forms()
    ensures { KeepsForms SimplRow }
{}
