ghost use Rattle.floyd_play_conditions.specs.Laws as laws;

/// A well-formed goal and arguments that were read in its context meet what the call of a command asks for, over items that
/// are well formed, where terms that are read have the sorts that are expected of them, those for the existentials of a
/// clause too.
pub fn commands_meet()
    ensures { laws.CommandsMeet }
{}
