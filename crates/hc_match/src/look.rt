//! A look at the byte that comes next, before a way is tried.
ghost use Rattle.std.specs.Prelude.{◌≡◌, ℕ, List, false, IfSome};
ghost use Rattle.hc_pattern.specs.Pattern.{pattern_of};
ghost use Rattle.hc_match.specs.Single.{NoWay};
ghost use Rattle.hc_match.specs.Frames.{IsLead};

use crate::frame::Frame;
use crate::single::{is_byte, is_in_class};
use hc_pattern::Pat;

/// The front of a sequence: where it has no way, the sequence has none.
pub fn lead<'p>(pat: &'p Pat) -> &'p Pat
    ensures { (text : List ℕ) (at : ℕ)
        → NoWay text at (pattern_of result.now) → NoWay text at (pattern_of pat.now) }
{
    let mut lead = pat;
    'fronts: while let Pat::Cat(first, _) = lead {
        if let Pat::Repeat(_, 0, _, _) = &**first {
            break;
        }
        lead = first;
    }
    lead
}

/// The front of what is still to be matched, if a pattern comes next.
#[inline(always)]
pub fn frame_lead<'f>(frame: &'f Frame<'_>) -> Option<&'f Pat>
    ensures { IfSome result (λ lead. (text : List ℕ) → IsLead text lead.now frame.now) }
{
    match frame {
        Frame::Then { pat, .. } => Some(lead(&**pat)),
        Frame::Close { next, .. } => match &**next {
            Frame::Then { pat, .. } => Some(lead(&**pat)),
            _ => None,
        },
        _ => None,
    }
}

/// Whether the pattern may have a way from here, as far as the next byte tells.
#[inline(always)]
pub fn may_begin(text: &[u8], pat: &Pat, at: usize) -> bool
    ensures { result ≡ false → NoWay text.now at (pattern_of pat.now) }
{
    match pat {
        Pat::Byte(byte) => is_byte(text, at, *byte),
        Pat::Class(set) => is_in_class(text, at, set),
        _ => parts_may_begin(text, pat, at),
    }
}

fn parts_may_begin(text: &[u8], pat: &Pat, at: usize) -> bool
    ensures { result ≡ false → NoWay text.now at (pattern_of pat.now) }
{
    match pat {
        Pat::Byte(byte) => is_byte(text, at, *byte),
        Pat::Class(set) => is_in_class(text, at, set),
        Pat::Finish => at == text.len(),
        Pat::Cat(first, second) => match &**first {
            Pat::Repeat(body, least, _, _) if *least == 0 => {
                parts_may_begin(text, body, at) || parts_may_begin(text, second, at)
            }
            _ => parts_may_begin(text, first, at),
        },
        Pat::Alt(first, second) => {
            parts_may_begin(text, first, at) || parts_may_begin(text, second, at)
        }
        Pat::Group(_, body) => parts_may_begin(text, body, at),
        Pat::Repeat(body, least, _, _) => *least == 0 || parts_may_begin(text, body, at),
        Pat::Empty | Pat::Start => true,
    }
}
