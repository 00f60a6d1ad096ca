use hc_base::{Place, Span};

/// A line of a file, with the bytes of the file's text in which it is written. Line 0 is the file as
/// a whole, and has an empty span.
#[derive(Clone, Drop)]
pub struct Spot {
    pub place: Place,
    pub span: Span,
}
