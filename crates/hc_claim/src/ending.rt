//! How a leaf ends.
ghost use Rattle.std.specs.Prelude.{◌≡◌};
ghost use Rattle.hc_claim.specs.Ending.{ends_limited, ends_out, ends_served, is_bound_left, is_left_outside};
ghost use Rattle.hc_claim.specs.Ending.{is_ruled_outside, serves};
ghost use Rattle.hc_claim.specs.Bad.{is_there};

use hc_abs_leaves::LeafEnd;
use hc_abs_pass::Left;
use hc_abs_rw::Next;
use hc_model::Kind;

/// It is outside.
pub(crate) fn ends_out(end: &LeafEnd) -> bool
    ensures { result ≡ ends_out end.now }
{
    match end {
        LeafEnd::Stopped(left) => is_left_outside(left),
        LeafEnd::Ruled(next) => is_ruled_outside(next),
    }
}

/// The pass ends outside.
pub fn is_left_outside(left: &Left) -> bool
    ensures { result ≡ is_left_outside left.now }
{
    matches!(left, Left::Outside(_))
}

/// A rule answers outside.
pub fn is_ruled_outside(next: &Next) -> bool
    ensures { result ≡ is_ruled_outside next.now }
{
    matches!(next, Next::Outside(_))
}

/// At a limit.
pub(crate) fn ends_limited(end: &LeafEnd) -> bool
    ensures { result ≡ ends_limited end.now }
{
    match end {
        LeafEnd::Stopped(left) => is_bound_left(left),
        LeafEnd::Ruled(_) => false,
    }
}

/// The pass ends at a limit.
pub fn is_bound_left(left: &Left) -> bool
    ensures { result ≡ is_bound_left left.now }
{
    matches!(left, Left::Limit(_))
}

/// With a file or a directory.
pub(crate) fn ends_served(end: &LeafEnd) -> bool
    ensures { result ≡ ends_served end.now }
{
    match end {
        LeafEnd::Stopped(left) => serves(left),
        LeafEnd::Ruled(_) => false,
    }
}

/// The pass ends with a file or a directory.
pub fn serves(left: &Left) -> bool
    ensures { result ≡ serves left.now }
{
    match left {
        Left::Found(kind) => is_there(*kind),
        _ => false,
    }
}

fn is_there(kind: Kind) -> bool
    ensures { result ≡ is_there kind }
{
    !matches!(kind, Kind::Absent)
}
