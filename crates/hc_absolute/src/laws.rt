//! What holds of each configuration, as the contract of a function that does nothing.
ghost use Rattle.hc_absolute.specs.Absolute.{BuiltAreAbsolute};

/// In each configuration that is built, the document roots and the targets of aliases begin with a slash.
pub fn built_are_absolute()
    ensures { BuiltAreAbsolute }
{}
