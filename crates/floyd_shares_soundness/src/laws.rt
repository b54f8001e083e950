ghost use Rattle.floyd_entail_soundness.specs.Rows.{IsSound, IsSoundWhere};
ghost use Rattle.floyd_shares.specs.JoinShare as join;
ghost use Rattle.floyd_shares.specs.SplitShare as split;
ghost use Rattle.floyd_shares_soundness.specs.Numbers.{IsOfNumber};

/// A goal holds where it does with a part in two shares.
pub fn split_share_is_sound()
    ensures { IsSoundWhere IsOfNumber (λ structs. split.Row) }
{}

/// A goal holds where it does with two shares of a part in one.
pub fn join_share_is_sound()
    ensures { IsSound (λ structs. join.Row) }
{}
