//! What holds of all requests, as the contracts of functions that do nothing.
ghost use Rattle.hc_serve.specs.Request.{AnswersAgree};
ghost use Rattle.hc_serve.specs.Segments.{PassesAreSegments};

/// An answer depends on nothing but what it was told to look at.
pub fn answers_agree()
    ensures { AnswersAgree }
{}

/// Passes are segments, one after another.
pub fn passes_are_segments()
    ensures { PassesAreSegments }
{}
