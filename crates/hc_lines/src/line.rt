use hc_base::{AtLine, CowStr, Fault, Span};

/// Where a configuration text stands, which decides how long its lines may be.
#[derive(Clone, Copy, Debug, PartialEq, Eq)]
pub enum FileKind {
    /// The main file, or a file that it includes.
    Config,
    /// An `.htaccess` file.
    Htaccess,
}

/// A logical line that says something: neither blank nor a comment.
#[derive(Drop)]
pub struct Line<'t> {
    /// The number of its first physical line, counted from 1.
    pub number: u32,
    /// The bytes of the text from its first to its last byte that is neither a blank nor of a join.
    pub span: Span,
    /// Those bytes with the joins taken out.
    pub text: CowStr<'t>,
}

/// A line that is too long (7), or has a control byte (31).
pub type LineFault = Fault<AtLine>;
