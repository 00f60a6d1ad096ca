use hc_base::Text;

/// What a summary of a session counts of a reply.
#[derive(Clone, Copy, PartialEq, Eq)]
pub enum Said {
    /// A file is served.
    File,
    /// Nothing is there.
    Missing,
    /// The request is forbidden.
    Denied,
    /// Anything else.
    Other,
}

/// The line of a reply, with its LF, and what a summary counts of it.
#[derive(Drop)]
pub struct Stepped {
    pub line: Text,
    pub said: Said,
}
