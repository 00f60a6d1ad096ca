ghost use Rattle.std.specs.Prelude.{◌≡◌, map};
ghost use Rattle.hc_table.specs.Directives.{directive_rows, meaning_of};
ghost use Rattle.hc_table.specs.Flags.{flag_rows};
ghost use Rattle.hc_table.specs.Options.{class_rows, option_rows};
ghost use Rattle.hc_table.specs.Table.{find_in, row_of};
ghost use Rattle.hc_table.specs.Variables.{front_rows, variable_rows};

use crate::context::Contexts;
use crate::directive::{Class, Directive, Meaning, SectionName as Section, Wording};
use crate::flag::FlagName;
use crate::option_name::{OptionName, OptionWord};
use crate::table::{DirectiveKind, Row, find_in};
use crate::variable::{Front, Variable};

// Rows: what a name stands for, and each name that does.
macro_rules! rows {
    ($($kind:expr => $($name:literal)+;)*) => {
        &[$($(Row { name: $name, kind: $kind },)+)*]
    };
}

// The same of directives and sections: a meaning, contexts, a class and a wording.
macro_rules! directive_rows {
    ($($of:ident $meaning:ident, $contexts:ident, $class:expr, $wording:ident => $($name:literal)+;)*) => {
        &[$($(Row {
            name: $name,
            kind: DirectiveKind {
                meaning: Meaning::$of($of::$meaning),
                contexts: Contexts::$contexts,
                class: $class,
                wording: Wording::$wording,
            },
        },)+)*]
    };
}

#[tactic(auto, unfolding(crate::specs::Directives::directive_rows))]
fn directive_rows() -> &'static [Row<DirectiveKind>]
    ensures { map row_of result.now ≡ directive_rows }
{
    static ROWS: &[Row<DirectiveKind>] = directive_rows! {
        Directive ServerRoot, MainServer, None, Configuration => "ServerRoot";
        Directive DocumentRoot, Servers, None, Configuration => "DocumentRoot";
        Directive ServerName, Servers, None, Configuration => "ServerName";
        Directive ServerAlias, VirtualHost, None, Configuration => "ServerAlias";
        Directive Define, AllButHtaccess, None, Configuration => "Define";
        Directive Include, AllButHtaccess, None, Configuration => "Include";
        Directive IncludeOptional, AllButHtaccess, None, Configuration => "IncludeOptional";
        Directive Alias, Servers, None, Configuration => "Alias";
        Directive ScriptAlias, Servers, None, Configuration => "ScriptAlias";
        Directive AliasMatch, Servers, None, Configuration => "AliasMatch";
        Directive Redirect, ServersAndDirectories, Some(Class::FileInfo), Configuration => "Redirect";
        Directive RedirectMatch, ServersAndDirectories, Some(Class::FileInfo), Configuration => "RedirectMatch";
        Directive RedirectPermanent, ServersAndDirectories, Some(Class::FileInfo), Configuration => "RedirectPermanent";
        Directive RedirectTemp, ServersAndDirectories, Some(Class::FileInfo), Configuration => "RedirectTemp";
        Directive Options, Everywhere, Some(Class::Options), Configuration => "Options";
        Directive AllowOverride, Directory, None, Configuration => "AllowOverride";
        Directive Require, AllButServers, Some(Class::AuthConfig), Configuration => "Require";
        Directive AuthMerging, AllButServers, Some(Class::AuthConfig), Configuration => "AuthMerging";
        Directive RewriteEngine, ServersAndDirectories, Some(Class::FileInfo), Configuration => "RewriteEngine";
        Directive RewriteBase, Directories, Some(Class::FileInfo), Configuration => "RewriteBase";
        Directive RewriteCond, ServersAndDirectories, Some(Class::FileInfo), Rewriting => "RewriteCond";
        Directive RewriteRule, ServersAndDirectories, Some(Class::FileInfo), Rewriting => "RewriteRule";
        Directive RewriteOptions, ServersAndDirectories, Some(Class::FileInfo), Configuration => "RewriteOptions";
        Directive LimitInternalRecursion, Servers, None, Configuration => "LimitInternalRecursion";
        Directive RewriteMap, Servers, None, Configuration => "RewriteMap";
        Directive UseCanonicalName, AllButHtaccess, None, Configuration => "UseCanonicalName";
        Directive UserDir, Servers, None, Configuration => "UserDir";
        Directive AccessFileName, Servers, None, Configuration => "AccessFileName";
        Directive LoadModule, Servers, None, Configuration => "LoadModule";

        Section VirtualHost, MainServer, None, Configuration => "VirtualHost";
        Section Directory, Servers, None, Configuration => "Directory";
        Section DirectoryMatch, Servers, None, Configuration => "DirectoryMatch";
        Section Location, Servers, None, Configuration => "Location";
        Section LocationMatch, Servers, None, Configuration => "LocationMatch";
        Section Files, AroundFiles, None, Configuration => "Files";
        Section FilesMatch, AroundFiles, None, Configuration => "FilesMatch";
        Section If, AllButIf, None, Configuration => "If";
        Section ElseIf, AllButIf, None, Configuration => "ElseIf";
        Section Else, AllButIf, None, Configuration => "Else";
        Section RequireAll, AllButServers, Some(Class::AuthConfig), Configuration => "RequireAll";
        Section RequireAny, AllButServers, Some(Class::AuthConfig), Configuration => "RequireAny";
        Section RequireNone, AllButServers, Some(Class::AuthConfig), Configuration => "RequireNone";
        Section IfDefine, Everywhere, None, Configuration => "IfDefine";
        Section IfModule, Everywhere, None, Configuration => "IfModule";

        Directive Inert, Servers, None, Configuration =>
            "Listen" "User" "Group" "ServerAdmin" "ServerTokens" "DefaultRuntimeDir"
            "RequestReadTimeout" "Timeout" "KeepAlive" "MaxKeepAliveRequests" "KeepAliveTimeout"
            "PidFile" "Mutex" "ErrorLog" "CustomLog" "LogFormat" "TypesConfig" "MIMEMagicFile"
            "TraceEnable" "StartServers" "MinSpareServers" "MaxSpareServers" "MinSpareThreads"
            "MaxSpareThreads" "ThreadsPerChild" "ThreadLimit" "ServerLimit" "MaxRequestWorkers"
            "MaxConnectionsPerChild" "ExtendedStatus" "Protocols" "SSLEngine"
            "SSLCertificateFile" "SSLCertificateKeyFile" "SSLCertificateChainFile"
            "SSLCACertificateFile" "SSLProtocol" "SSLHonorCipherOrder" "SSLSessionCache"
            "SSLSessionCacheTimeout" "SSLSessionTickets" "SSLPassPhraseDialog" "SSLRandomSeed"
            "SSLCryptoDevice" "SSLUseStapling" "SSLStaplingCache";
        Directive Inert, Everywhere, Some(Class::FileInfo), Configuration =>
            "AddType" "AddHandler" "AddCharset" "AddLanguage" "AddEncoding" "AddDefaultCharset"
            "AddOutputFilter" "AddOutputFilterByType" "SetHandler" "SetOutputFilter"
            "SetInputFilter" "ForceType" "RemoveHandler" "RemoveType" "ErrorDocument" "Header"
            "RequestHeader" "SetEnv" "UnsetEnv" "PassEnv" "SetEnvIf" "SetEnvIfNoCase"
            "BrowserMatch" "BrowserMatchNoCase" "FileETag" "DefaultLanguage" "LanguagePriority"
            "ForceLanguagePriority" "EnableSendfile" "EnableMMAP" "AcceptPathInfo";
        Directive Inert, Everywhere, Some(Class::Indexes), Configuration =>
            "DirectoryIndex" "DirectorySlash" "IndexOptions" "IndexIgnore" "AddIcon"
            "AddIconByType" "AddIconByEncoding" "DefaultIcon" "AddAlt" "AddDescription"
            "HeaderName" "ReadmeName" "IndexOrderDefault" "IndexStyleSheet" "ExpiresActive"
            "ExpiresByType" "ExpiresDefault";
        Directive Inert, Everywhere, Some(Class::Options), Configuration =>
            "SSLOptions" "php_value" "php_flag";
        Directive Inert, Everywhere, Some(Class::AuthConfig), Configuration => "SSLCipherSuite";
        Directive Inert, Everywhere, None, Configuration => "ServerSignature";
        Directive Inert, AllButHtaccess, None, Configuration => "HostnameLookups" "LogLevel";
    };
    ROWS
}

/// What the directive or the container of this name is.
pub fn directive_named(name: &[u8]) -> Option<DirectiveKind>
    ensures { result ≡ find_in directive_rows name.now }
{
    find_in(directive_rows(), name)
}

/// What this name stands for.
pub fn meaning_of(name: &[u8]) -> Option<Meaning>
    ensures { result ≡ meaning_of name.now }
{
    match directive_named(name) {
        Some(kind) => Some(kind.meaning),
        None => None,
    }
}

#[tactic(auto, unfolding(crate::specs::Flags::flag_rows))]
fn flag_rows() -> &'static [Row<FlagName>]
    ensures { map row_of result.now ≡ flag_rows }
{
    static ROWS: &[Row<FlagName>] = rows! {
        FlagName::Last => "L" "last";
        FlagName::End => "END";
        FlagName::Next => "N" "next";
        FlagName::Chain => "C" "chain";
        FlagName::Skip => "S" "skip";
        FlagName::Forbidden => "F" "forbidden";
        FlagName::Gone => "G" "gone";
        FlagName::Redirect => "R" "redirect";
        FlagName::AppendQuery => "QSA" "qsappend";
        FlagName::DiscardQuery => "QSD" "qsdiscard";
        FlagName::NoCase => "NC" "nocase";
        FlagName::NoEscape => "NE" "noescape";
        FlagName::PassThrough => "PT" "passthrough";
        FlagName::DiscardPath => "DPI" "discardpath";
        FlagName::Environment => "E" "env";
        FlagName::Type => "T" "type";
        FlagName::Handler => "H" "handler";
        FlagName::Cookie => "CO" "cookie";
        FlagName::NoSubrequest => "NS" "nosubreq";
        FlagName::Unsupported =>
            "P" "proxy" "B" "BNP" "BCTLS" "BNE" "QSL"
            "UnsafeAllow3F" "UnsafePrefixStat";
    };
    ROWS
}

/// The flag of a `RewriteRule` of this name.
pub fn flag_named(name: &[u8]) -> Option<FlagName>
    ensures { result ≡ find_in flag_rows name.now }
{
    find_in(flag_rows(), name)
}

#[tactic(auto, unfolding(crate::specs::Variables::variable_rows))]
fn variable_rows() -> &'static [Row<Variable>]
    ensures { map row_of result.now ≡ variable_rows }
{
    static ROWS: &[Row<Variable>] = rows! {
        Variable::HttpHost => "HTTP_HOST";
        Variable::HttpUserAgent => "HTTP_USER_AGENT";
        Variable::HttpReferer => "HTTP_REFERER";
        Variable::HttpCookie => "HTTP_COOKIE";
        Variable::HttpAccept => "HTTP_ACCEPT";
        Variable::RequestMethod => "REQUEST_METHOD";
        Variable::RequestScheme => "REQUEST_SCHEME";
        Variable::RequestUri => "REQUEST_URI";
        Variable::RequestFilename => "REQUEST_FILENAME";
        Variable::ScriptFilename => "SCRIPT_FILENAME";
        Variable::PathInfo => "PATH_INFO";
        Variable::QueryString => "QUERY_STRING";
        Variable::RemoteAddr => "REMOTE_ADDR";
        Variable::ServerAddr => "SERVER_ADDR";
        Variable::ServerPort => "SERVER_PORT";
        Variable::ServerName => "SERVER_NAME";
        Variable::DocumentRoot => "DOCUMENT_ROOT";
        Variable::Https => "HTTPS";
        Variable::TheRequest => "THE_REQUEST";
    };
    ROWS
}

/// The variable of this name.
pub fn variable_named(name: &[u8]) -> Option<Variable>
    ensures { result ≡ find_in variable_rows name.now }
{
    find_in(variable_rows(), name)
}

#[tactic(auto, unfolding(crate::specs::Variables::front_rows))]
fn front_rows() -> &'static [Row<Front>]
    ensures { map row_of result.now ≡ front_rows }
{
    static ROWS: &[Row<Front>] = rows! {
        Front::Header => "HTTP:";
        Front::Environment => "ENV:";
    };
    ROWS
}

/// What this front, which ends in a colon, says of the name behind it.
pub fn front_named(name: &[u8]) -> Option<Front>
    ensures { result ≡ find_in front_rows name.now }
{
    find_in(front_rows(), name)
}

#[tactic(auto, unfolding(crate::specs::Options::option_rows))]
fn option_rows() -> &'static [Row<OptionWord>]
    ensures { map row_of result.now ≡ option_rows }
{
    static ROWS: &[Row<OptionWord>] = rows! {
        OptionWord::Nothing => "None";
        OptionWord::All => "All";
        OptionWord::One(OptionName::Indexes) => "Indexes";
        OptionWord::One(OptionName::Includes) => "Includes";
        OptionWord::One(OptionName::IncludesNoExec) => "IncludesNOEXEC";
        OptionWord::One(OptionName::FollowSymLinks) => "FollowSymLinks";
        OptionWord::One(OptionName::SymLinksIfOwnerMatch) => "SymLinksIfOwnerMatch";
        OptionWord::One(OptionName::ExecCgi) => "ExecCGI";
        OptionWord::One(OptionName::MultiViews) => "MultiViews";
    };
    ROWS
}

/// The word of Options of this name.
pub fn option_named(name: &[u8]) -> Option<OptionWord>
    ensures { result ≡ find_in option_rows name.now }
{
    find_in(option_rows(), name)
}

#[tactic(auto, unfolding(crate::specs::Options::class_rows))]
fn class_rows() -> &'static [Row<Class>]
    ensures { map row_of result.now ≡ class_rows }
{
    static ROWS: &[Row<Class>] = rows! {
        Class::AuthConfig => "AuthConfig";
        Class::FileInfo => "FileInfo";
        Class::Indexes => "Indexes";
        Class::Limit => "Limit";
        Class::Options => "Options";
    };
    ROWS
}

/// The class of AllowOverride of this name.
pub fn class_named(name: &[u8]) -> Option<Class>
    ensures { result ≡ find_in class_rows name.now }
{
    find_in(class_rows(), name)
}
