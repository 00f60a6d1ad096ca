ghost use Rattle.std.specs.Prelude.{◌≡◌};
ghost use Rattle.hc_sent.specs.Ways.{may_escape, may_stay};

use hc_dfa::Dfa;

/// The most bytes of a target.
pub const LONGEST_TARGET: usize = 8_190;

/// How a part of a location is written.
#[derive(Clone, Copy)]
pub enum Writing {
    /// As it is.
    AsIs,
    /// With `%` and two digits for each byte that doesn't stand for itself.
    Escaped,
    /// Behind `?`, either way; nothing where it is empty.
    Query,
    /// Behind `?`, as it is; nothing where it is empty.
    QueryAsIs,
}

impl Writing {
    /// Whether bytes may be escaped.
    pub(crate) fn may_escape(self) -> bool
        ensures { result ≡ may_escape self }
    {
        matches!(self, Writing::Escaped | Writing::Query)
    }

    /// Whether bytes may stay as they are.
    pub(crate) fn may_stay(self) -> bool
        ensures { result ≡ may_stay self }
    {
        !matches!(self, Writing::Escaped)
    }
}

/// A part of a location: one text of a set.
#[derive(Drop)]
pub struct Part {
    pub set: Dfa,
    pub writing: Writing,
}
