ghost use Rattle.floyd_formed_entail.specs.Rows.{KeepsFormsWhere};
ghost use Rattle.floyd_shares.specs.JoinShare as join;
ghost use Rattle.floyd_shares.specs.SplitShare as split;
ghost use Rattle.floyd_shares_soundness.specs.Numbers.{IsOfNumber};

/// The bounds of the share, and the goal with the part in two shares, are well formed.
pub fn split_share_keeps_forms()
    ensures { KeepsFormsWhere IsOfNumber (λ structs. split.Row) }
{}

/// The bound of the sum, and the goal with the part in one share, are well formed.
pub fn join_share_keeps_forms()
    ensures { KeepsFormsWhere (λ defs goal args. Unit {0}) (λ structs. join.Row) }
{}
