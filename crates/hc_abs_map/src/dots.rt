//! The tests of a name before its walk: slashes beside each other, and segments of dots.
ghost use Rattle.std.specs.Prelude.{◌≡◌, IfOk};
ghost use Rattle.std.proofs.Common.{rules};
ghost use Rattle.hc_base.specs.Paths.{has_dots, has_double_slash};
ghost use Rattle.hc_dfa.specs.Built.{Accepts};
ghost use Rattle.hc_abs_map.specs.Dots.{behind_dots, ends_dotted, ends_doubled, next_run, next_segment};
ghost use Rattle.hc_abs_map.specs.declared.dots.Segment.TheVariants as segment;

use hc_base::NoMemory;
use hc_dfa::{Dfa, Reading, tested};
use std::alloc::Global;

/// The texts with a segment `.` or `..`.
pub(crate) fn dotted(alloc: Global) -> Result<Dfa, NoMemory>
    ensures { IfOk result (λ made. Accepts made has_dots) }
{
    let made = tested(alloc, &HasDots, Segment::Empty)?;
    Ok(made)
}

/// The texts in which two slashes stand beside each other.
pub(crate) fn doubled(alloc: Global) -> Result<Dfa, NoMemory>
    ensures { IfOk result (λ made. Accepts made has_double_slash) }
{
    let made = tested(alloc, &HasDoubleSlash, Run::Other)?;
    Ok(made)
}

/// What was read of a segment: nothing, one dot or two, or something else; or a segment of dots stands before it.
#[derive(Clone, Copy, PartialEq, Eq, Hash, Drop)]
pub enum Segment {
    Empty,
    One,
    Two,
    Other,
    Dots,
}

#[derive(Clone, Copy)]
struct HasDots;

impl Reading for HasDots {
    type Key = Segment;

    ghost is_key = { λ test segment. Unit {0} };

    ghost reads = { λ test. next_segment };

    ghost holds = { λ test. ends_dotted };

    fn next(&self, segment: Segment, byte: u8) -> Segment {
        match segment {
            Segment::Empty => behind_slash(byte),
            Segment::One => behind_dots(byte, Segment::Two),
            Segment::Two => behind_dots(byte, Segment::Other),
            Segment::Other => {
                if byte == b'/' {
                    Segment::Empty
                } else {
                    Segment::Other
                }
            }
            Segment::Dots => Segment::Dots,
        }
    }

    fn holds(&self, segment: Segment) -> bool {
        match segment {
            Segment::Empty => false,
            Segment::One => true,
            Segment::Two => true,
            Segment::Other => false,
            Segment::Dots => true,
        }
    }

    ghost same = { Prim.search rules };
}

/// Behind the first byte of a segment.
fn behind_slash(byte: u8) -> Segment
    ensures { result ≡ next_segment segment.Empty byte }
{
    if byte == b'/' {
        Segment::Empty
    } else if byte == b'.' {
        Segment::One
    } else {
        Segment::Other
    }
}

/// Behind a byte that follows dots, by what one more of them makes.
fn behind_dots(byte: u8, more: Segment) -> Segment
    ensures { result ≡ behind_dots more byte }
{
    if byte == b'/' {
        Segment::Dots
    } else if byte == b'.' {
        more
    } else {
        Segment::Other
    }
}

/// What was read last: a slash or another byte; or two slashes stand before it.
#[derive(Clone, Copy, PartialEq, Eq, Hash, Drop)]
pub enum Run {
    Other,
    Slash,
    Double,
}

#[derive(Clone, Copy)]
struct HasDoubleSlash;

impl Reading for HasDoubleSlash {
    type Key = Run;

    ghost is_key = { λ test run. Unit {0} };

    ghost reads = { λ test. next_run };

    ghost holds = { λ test. ends_doubled };

    fn next(&self, run: Run, byte: u8) -> Run {
        match run {
            Run::Other => { if byte == b'/' { Run::Slash } else { Run::Other } }
            Run::Slash => {
                if byte == b'/' {
                    Run::Double
                } else {
                    Run::Other
                }
            }
            Run::Double => Run::Double,
        }
    }

    fn holds(&self, run: Run) -> bool {
        match run {
            Run::Other => false,
            Run::Slash => false,
            Run::Double => true,
        }
    }

    ghost same = { Prim.search rules };
}
