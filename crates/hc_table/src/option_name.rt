/// An option (core, Options).
#[derive(Clone, Copy, PartialEq, Eq)]
pub enum OptionName {
    Indexes,
    Includes,
    IncludesNoExec,
    FollowSymLinks,
    SymLinksIfOwnerMatch,
    ExecCgi,
    MultiViews,
}

/// A word of Options.
#[derive(Clone, Copy, PartialEq, Eq)]
pub enum OptionWord {
    /// `None`.
    Nothing,
    /// `All`: all options but MultiViews.
    All,
    One(OptionName),
}
