/// The name of a flag of a `RewriteRule` (mod_rewrite, "RewriteRule Flags").
#[derive(Clone, Copy, PartialEq, Eq)]
pub enum FlagName {
    /// `L`: no rule behind this one is tried in this round.
    Last,
    /// `END`: like `L`, and no rule of a directory is tried any more.
    End,
    /// `N`: the rules are tried once more from the first.
    Next,
    /// `C`: where this rule does not match, its chain is skipped.
    Chain,
    /// `S`: some rules are skipped.
    Skip,
    /// `F`: the answer is 403.
    Forbidden,
    /// `G`: the answer is 410.
    Gone,
    /// `R`: the answer is a redirect or another status.
    Redirect,
    /// `QSA`: the query from before is appended.
    AppendQuery,
    /// `QSD`: the query from before is dropped.
    DiscardQuery,
    /// `NC`: the pattern is matched without case.
    NoCase,
    /// `NE`: a redirect is not escaped.
    NoEscape,
    /// `PT`: the text is mapped as a URL path.
    PassThrough,
    /// `DPI`: the path information is dropped.
    DiscardPath,
    /// `E`: a variable is set.
    Environment,
    /// `T`: the type of the content; without effect here.
    Type,
    /// `H`: the handler of the content; without effect here.
    Handler,
    /// `CO`: a cookie; without effect here.
    Cookie,
    /// `NS`: not for a subrequest; without effect here, since there are none.
    NoSubrequest,
    /// A flag that is known and not supported.
    Unsupported,
}
