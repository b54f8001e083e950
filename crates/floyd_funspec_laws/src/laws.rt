ghost use Rattle.floyd_funspec_laws.specs.Laws as laws;

/// At terms that have values, an instance asks and gives what its specification asks and gives for these values.
pub fn instances_say()
    ensures { laws.InstancesSay }
{}

/// The terms that are taken may stand in a specification that is well formed, wherever its variables do.
pub fn instances_are_made()
    ensures { laws.InstancesAreMade }
{}
