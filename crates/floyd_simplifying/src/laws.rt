ghost use Rattle.floyd_simplifying.specs.Laws.{KeepsValue, SimplifyingKeeps};

/// A term has its value as what it is simplified to.
pub fn simplifying_keeps_value()
    ensures { KeepsValue }
{}

/// A formula is true as what it is simplified to exactly where it was.
pub fn simplifying_keeps()
    ensures { SimplifyingKeeps }
{}
