ghost use Rattle.floyd_termread_fronts.specs.Fronts as specs;

/// Where the grammar refuses a token, those before it read, with the end of the text for all that is missing.
pub fn fronts_read()
    ensures { specs.FrontsRead }
{}
