//! What holds of the plans of segments, as the contracts of functions that do nothing.
ghost use Rattle.hc_abs_segments.specs.Agreeing.{DirRoundAgrees, PassAgrees, ServerRoundAgrees};
ghost use Rattle.hc_abs_segments.specs.Counting.{NoneIsLeft, SegmentsCount};

/// From the start of a pass, the plan ends as the segment does.
pub fn pass_agrees()
    ensures { PassAgrees }
{}

/// From a further round of the server's list.
pub fn server_round_agrees()
    ensures { ServerRoundAgrees }
{}

/// From a further round of a directory's list.
pub fn dir_round_agrees()
    ensures { DirRoundAgrees }
{}

/// A segment leads to the next pass, or to a further round of the same one.
pub fn segments_count()
    ensures { SegmentsCount }
{}

/// No pass is left over behind as many as a request may have.
pub fn none_is_left()
    ensures { NoneIsLeft }
{}
