//! What holds of all entries, as the contract of a function that does nothing.
ghost use Rattle.hc_config.specs.Broken.{SmallestCounts};

/// An entry is refused for the smallest of the rules that it breaks, and gives something where it breaks none.
pub fn smallest_counts()
    ensures { SmallestCounts }
{}
