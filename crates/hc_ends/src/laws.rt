//! What holds of the answers, as the contract of a function that does nothing.
ghost use Rattle.hc_ends.specs.Holding.{AnswersHold};

/// What is proved holds of the chain of each request of the scope; what is refuted is broken by the request that comes
/// with it.
pub fn answers_hold()
    ensures { AnswersHold }
{}
