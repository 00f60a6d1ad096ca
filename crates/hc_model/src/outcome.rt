use hc_base::{Refusal, Text};

/// What a request receives.
#[derive(Clone, Drop)]
pub enum Outcome {
    /// A file, with the path information behind its name.
    File { path: Text, info: Text },
    /// A directory. Its path keeps a final slash of the request.
    Directory { path: Text },
    NotFound,
    /// A redirect, with a status from 300 to 399.
    Redirect { status: u16, location: Text },
    /// Another status.
    Status(u16),
    /// A limit was reached.
    Limit(LimitKind),
    /// A `.htaccess` in force breaks a rule.
    HtRefused(Refusal),
    /// The request is outside what is said here.
    Outside(Reason),
}

/// Which limit was reached.
#[derive(Clone, Copy, PartialEq, Eq)]
pub enum LimitKind {
    /// The rounds of a list of rules (Apache manual, "RewriteRule Flags", N).
    Rounds,
    /// The internal redirects (core, LimitInternalRecursion).
    Redirects,
}

/// Why nothing is said of a request. Our own choice.
#[derive(Clone, Copy, PartialEq, Eq)]
pub enum Reason {
    /// The path of the target has a byte that is not covered.
    PathByte,
    /// A rewritten text, a query or the value of a variable is too long.
    LongText,
    /// A text that becomes a path has a segment `.` or `..`.
    DotSegment,
    /// A relative text is redirected without RewriteBase.
    RelativeRedirect,
    /// A relative text replaces a file name that does not come from the document root.
    RelativeUnderAlias,
    /// A text begins with a scheme that is not covered, or a rule redirects and another follows.
    Scheme,
    /// There is no document root.
    NoRoot,
}
