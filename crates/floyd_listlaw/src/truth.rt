ghost use Rattle.floyd_listlaw.specs.Laws as specs;

/// Each law is true: under all data under which its premises are true its conclusion is.
pub fn laws_hold()
    ensures { specs.LawsHold }
{}
