ghost use Rattle.floyd_state_laws.specs.Laws as specs;

/// Where an activation stands in the source of a well formed goal, what is seen of its heaplet meets the source.
pub fn runs_meet_their_source()
    ensures { specs.RunsMeetTheirSource }
{}

/// In a well formed assertion the value of each part has the sort of its type.
pub fn parts_are_sorted()
    ensures { specs.PartsAreSorted }
{}

/// What a part `valid` holds of is seen to be valid, or null.
pub fn valid_parts_are_seen()
    ensures { specs.ValidPartsAreSeen }
{}

/// The next statement of a well formed goal has expressions of their types.
pub fn statements_are_typed()
    ensures { specs.StatementsAreTyped }
{}
