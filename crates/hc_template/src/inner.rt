//! The key and the fallback of a look-up.
ghost use Rattle.std.specs.Prelude.{◌≡◌, ◌<◌, length, IfSome, MatchOption};
ghost use Rattle.hc_template.specs.Fronts.{Finds, ended, ends_at, inner_of, part_of};
ghost use Rattle.hc_template.specs.Reading.{inner_behind, with_inner};

use crate::front::{Sign, sign_at};
use crate::pieces::Pieces;
use crate::signs::Signs;
use hc_base::codes::UNSUPPORTED_VARIABLE;
use hc_base::{AtByte, Fault};
use hc_model::Template;
use std::alloc::Global;

/// Where a part of a look-up ends.
#[derive(Clone, Copy)]
pub(crate) enum Ends {
    /// At `|` or `}`.
    Key,
    /// At `}`.
    Fallback,
}

impl Ends {
    fn at(self, byte: u8) -> bool
        ensures { result ≡ ends_at self byte }
    {
        match self {
            Ends::Key => byte == b'|' || byte == b'}',
            Ends::Fallback => byte == b'}',
        }
    }
}

/// A key or a fallback, and what follows it.
#[derive(Drop)]
pub(crate) struct Inner<'t> {
    pub(crate) pieces: Template,
    pub(crate) behind: &'t [u8],
}

/// Reads a key or a fallback. Refused with `UNSUPPORTED_VARIABLE` where a name may not stand in it, where
/// it holds a look-up, and where nothing ends it; `NoMemory` where memory is refused.
pub(crate) fn read_inner<'t>(
    alloc: Global,
    ends: Ends,
    signs: Signs,
    text: &'t [u8],
) -> Result<Inner<'t>, Fault<AtByte>>
    ensures { Finds inner_of result (inner_behind (ends_at ends) signs 0 text.now) }
{
    let mut pieces = Pieces::new(alloc);
    let mut rest = text;
    let mut left = signs;
    while let Some(sign) = inner_sign(ends, left, rest) {
        pieces.add(left.names, sign.front)?;
        rest = sign.behind;
        left = sign.signs;
    }
    if rest.is_empty() {
        return Err(Fault::Refused(AtByte::rule(UNSUPPORTED_VARIABLE)));
    }
    Ok(Inner {
        pieces: pieces.into_template()?,
        behind: rest,
    })
}

// The next sign of a key or a fallback; `None` at its end and at that of the text.
fn inner_sign(ends: Ends, signs: Signs, text: &[u8]) -> Option<Sign<'_>>
    ensures value { MatchOption result
        (inner_behind (ends_at ends) signs 0 text.now ≡ ended text.now)
        (λ sign. inner_behind (ends_at ends) signs 0 text.now
        ≡ with_inner (part_of signs.names sign.front) (inner_behind (ends_at ends) sign.signs 0 sign.behind.now)) }
    ensures shorter { IfSome result (λ sign. length sign.behind.now < length text.now) }
{
    match text {
        [byte, rest @ ..] if !ends.at(*byte) => Some(sign_at(signs, *byte, rest)),
        _ => None,
    }
}
