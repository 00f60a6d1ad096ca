/// A directive: one of its own for each that an answer of hc rests on, and one for all the others.
#[derive(Clone, Copy, PartialEq, Eq)]
pub enum Directive {
    // core
    ServerRoot,
    DocumentRoot,
    ServerName,
    ServerAlias,
    Define,
    Include,
    IncludeOptional,
    Options,
    AllowOverride,
    LimitInternalRecursion,
    UseCanonicalName,
    AccessFileName,
    // mod_alias
    Alias,
    ScriptAlias,
    AliasMatch,
    Redirect,
    RedirectMatch,
    RedirectPermanent,
    RedirectTemp,
    // mod_authz_core
    Require,
    AuthMerging,
    // mod_rewrite
    RewriteEngine,
    RewriteBase,
    RewriteCond,
    RewriteRule,
    RewriteOptions,
    RewriteMap,
    // mod_userdir
    UserDir,
    // mod_so
    /// It changes no answer, but which modules are present rests on it.
    LoadModule,
    /// Every directive that changes no answer of hc; our own choice.
    Inert,
}

/// A container, which is the name of a section.
#[derive(Clone, Copy, PartialEq, Eq)]
pub enum SectionName {
    // core
    VirtualHost,
    Directory,
    DirectoryMatch,
    Location,
    LocationMatch,
    Files,
    FilesMatch,
    If,
    ElseIf,
    Else,
    IfDefine,
    IfModule,
    // mod_authz_core
    RequireAll,
    RequireAny,
    RequireNone,
}

/// What a name of the table stands for.
#[derive(Clone, Copy, PartialEq, Eq)]
pub enum Meaning {
    Directive(Directive),
    Section(SectionName),
}

/// What `AllowOverride` has to allow where a directive stands in an `.htaccess` file (core,
/// AllowOverride; the manual's "Override").
#[derive(Clone, Copy, PartialEq, Eq)]
pub enum Class {
    AuthConfig,
    FileInfo,
    Indexes,
    Limit,
    Options,
}

/// How the words of a directive are written (Apache manual, "Configuration Files"; mod_rewrite).
#[derive(Clone, Copy, PartialEq, Eq)]
pub enum Wording {
    /// As in most directives.
    Configuration,
    /// As in `RewriteRule` and `RewriteCond`, which keep each backslash.
    Rewriting,
}
