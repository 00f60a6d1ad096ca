//! What holds of the start of a scope, as the contract of a function that does nothing.
ghost use Rattle.hc_abs_start.specs.Starts.{EachBegins};

/// Each request of a scope begins in one of the states that are known.
pub fn each_begins()
    ensures { EachBegins }
{}
