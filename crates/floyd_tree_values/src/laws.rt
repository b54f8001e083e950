ghost use Rattle.floyd_tree_values.specs.Laws as specs;

/// A term has at most one value.
pub fn has_one_value()
    ensures { specs.HasOneValue }
{}

/// A term of a sort has a value of that sort, where the FUNs keep the rules and the environment gives each variable a
/// datum of its sort.
pub fn has_a_value()
    ensures { specs.HasAValue }
{}

/// A type of C has a value sort exactly where it has a size, if no complete struct is without fields.
pub fn has_sort_where_sized()
    ensures { specs.HasSortWhereSized }
{}

/// The operators on bits act at each place of two's complement without end by itself.
pub fn act_on_bits()
    ensures { specs.ActOnBits }
{}

/// A sublist has the items at the places from its first bound on and before its second.
pub fn sublist_is_between()
    ensures { specs.SublistIsBetween }
{}
