ghost use Rattle.std.specs.Prelude.{◌≡◌};
ghost use Rattle.hc_base.specs.Rules.{refusal_at};
ghost use Rattle.hc_base.specs.Spans.{spanned};

use crate::{AtByte, NoMemory, Text};
use std::alloc::Global;

/// A piece of a text, from the byte `start` up to and without the byte `end`.
#[derive(Clone, Copy, Debug, PartialEq, Eq)]
pub struct Span {
    pub start: u32,
    pub end: u32,
}

/// What stands at a span of a text; nothing where there is no span.
pub fn spanned(text: &[u8], span: Option<Span>) -> &[u8]
    ensures { result.now ≡ spanned text.now span }
{
    let Some(span) = span else {
        return &[];
    };
    let (_, behind) = text.split_at(text.len().min(span.start as usize));
    let count = span.end.saturating_sub(span.start) as usize;
    behind.split_at(behind.len().min(count)).0
}

/// A line of a file. Lines count from 1; line 0 is the file as a whole.
#[derive(Drop)]
pub struct Place {
    pub file: Text,
    pub line: u32,
}

/// Why something is not accepted: where it stands, the number of the rule that it breaks (a table
/// in docs/RULES.md), the byte in a pattern or 0, and the field of a command or the empty text.
#[derive(Drop)]
pub struct Refusal {
    pub place: Place,
    pub code: u8,
    pub at: u32,
    pub field: Text,
}

impl Clone for Place {
    ghost is_clone = { λ place copy. copy ≡ place };

    fn clone(&self) -> Result<Place, NoMemory> {
        Ok(Place {
            file: self.file.clone()?,
            line: self.line,
        })
    }
}

impl Clone for Refusal {
    ghost is_clone = { λ refusal copy. copy ≡ refusal };

    fn clone(&self) -> Result<Refusal, NoMemory> {
        Ok(Refusal {
            place: self.place.clone()?,
            code: self.code,
            at: self.at,
            field: self.field.clone()?,
        })
    }
}

impl Refusal {
    /// A rule that is broken at a place. It names no field.
    pub fn at(alloc: Global, place: Place, broken: AtByte) -> Refusal
        ensures { result ≡ refusal_at place broken }
    {
        Refusal {
            place,
            code: broken.code,
            at: broken.at,
            field: Text::new(alloc),
        }
    }
}
