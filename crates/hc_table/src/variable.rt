/// A variable of `RewriteRule` and `RewriteCond` (mod_rewrite, RewriteCond).
#[derive(Clone, Copy, PartialEq, Eq)]
pub enum Variable {
    HttpHost,
    HttpUserAgent,
    HttpReferer,
    HttpCookie,
    HttpAccept,
    RequestMethod,
    RequestScheme,
    RequestUri,
    RequestFilename,
    ScriptFilename,
    PathInfo,
    QueryString,
    RemoteAddr,
    ServerAddr,
    ServerPort,
    ServerName,
    DocumentRoot,
    Https,
    TheRequest,
}

/// What stands before the name of one of many variables.
#[derive(Clone, Copy, PartialEq, Eq)]
pub enum Front {
    /// `HTTP:`, before the name of a header of the request.
    Header,
    /// `ENV:`, before the name of a variable of the environment.
    Environment,
}
