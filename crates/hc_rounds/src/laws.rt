//! What holds of lists that shrink, as the contract of a function that does nothing.
ghost use Rattle.hc_rounds.specs.Shortening.{RoundsShorten};

/// A further round begins with a shorter text.
pub fn rounds_shorten()
    ensures { RoundsShorten }
{}
