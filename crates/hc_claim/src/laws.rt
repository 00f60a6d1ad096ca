//! What holds of the answers to claims, as the contract of a function that does nothing.
ghost use Rattle.hc_claim.specs.Holding.{AnswersHold};

/// A claim that is proved holds of each request of the scope; one that is refuted is broken by a request of it.
pub fn answers_hold()
    ensures { AnswersHold }
{}
