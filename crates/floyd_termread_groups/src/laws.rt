ghost use Rattle.floyd_termread_groups.specs.Order as order;
ghost use Rattle.floyd_termread_groups.specs.Strong as strong;

/// Grouping keeps the order of the text.
pub fn keeps_order()
    ensures { order.KeepsOrder }
{}

/// The grouping of a row is the only tree that has its operands and operators in their order and is grouped by strength.
pub fn is_only_grouping()
    ensures { strong.IsOnlyGrouping }
{}
