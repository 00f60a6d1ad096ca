//! What holds of the branches from a cut, as the contracts of functions that do nothing.
ghost use Rattle.hc_abs_again.specs.Arriving.{EachHasArrival, SegmentsReach};
ghost use Rattle.hc_abs_again.specs.Bytes.{BranchesSeeBytes};

/// Where a directory's list goes on, the steps of a pass have led.
pub fn segments_reach()
    ensures { SegmentsReach }
{}

/// Each request that is covered at a cut has a branch from there.
pub fn each_has_arrival()
    ensures { EachHasArrival }
{}

/// Where the branches of the server's list have queries of bytes, the sections see one.
pub fn branches_see_bytes()
    ensures { BranchesSeeBytes }
{}
