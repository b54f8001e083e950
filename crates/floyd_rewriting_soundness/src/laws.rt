ghost use Rattle.floyd_pure_rewriting.specs.Rewrite.{RewriteRow};
ghost use Rattle.floyd_rewriting_soundness.specs.Small.{IsSoundOnSmall};

/// A goal of any kind holds where the rewritten one does.
pub fn rewrite_is_sound()
    ensures { IsSoundOnSmall RewriteRow }
{}
