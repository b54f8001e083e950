ghost use Rattle.floyd_arith.specs.Laws as specs;

/// Certificates prove: under all data under which the hypotheses are true, the target of one that is not refused is true.
pub fn certificates_hold()
    ensures { specs.CertificatesHold }
{}
