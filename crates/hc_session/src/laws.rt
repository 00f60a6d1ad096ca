//! What holds of all answers, as the contract of a function that does nothing.
ghost use Rattle.hc_session.specs.Laws.{AnswersRestOnTheirReads};

/// An answer depends on nothing but its reads. Where two worlds show the same at each of them, and the first has a
/// configuration, the other one has it too, and gives the request the same outcome, number of events, trail and reads.
pub fn answers_rest_on_their_reads()
    ensures { AnswersRestOnTheirReads }
{}
