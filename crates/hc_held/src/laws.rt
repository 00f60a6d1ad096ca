//! What holds of accepted invariants, as the contract of a function that does nothing.
ghost use Rattle.hc_cert.specs.Holding.{VerdictsHold};

/// No request of the scope of an accepted invariant breaks the claim.
pub fn verdicts_hold()
    ensures { VerdictsHold }
{}
