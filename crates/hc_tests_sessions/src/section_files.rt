//! Main files with virtual hosts and sections that are refused.

use crate::main_files::hold_refused;
use hc_base::NoMemory;

// Main files as they stand in JSON, and the rule that each breaks.
static REFUSED: &[&str] = &[
    // virtual hosts and their names
    r"DocumentRoot /srv\n<VirtualHost>\n</VirtualHost>\n -> 3 2",
    r"DocumentRoot /srv\n<VirtualHost 10.0.0.1>\n</VirtualHost>\n -> 28 2",
    r"DocumentRoot /srv\n<VirtualHost 10.0.0.1:>\n</VirtualHost>\n -> 28 2",
    r"DocumentRoot /srv\n<VirtualHost 10.0.0.1:0>\n</VirtualHost>\n -> 28 2",
    r"DocumentRoot /srv\n<VirtualHost 10.0.0.1:65536>\n</VirtualHost>\n -> 28 2",
    r"DocumentRoot /srv\n<VirtualHost 10.0.0.1:*>\n</VirtualHost>\n -> 28 2",
    r"DocumentRoot /srv\n<VirtualHost [::1]:80>\n</VirtualHost>\n -> 28 2",
    r"DocumentRoot /srv\n<VirtualHost a.example:80>\n</VirtualHost>\n -> 28 2",
    r"DocumentRoot /srv\n<VirtualHost :80>\n</VirtualHost>\n -> 28 2",
    r"DocumentRoot /srv\n<VirtualHost *>\n</VirtualHost>\n -> 28 2",
    r"DocumentRoot /srv\n<VirtualHost *:80 10.0.0.256:80>\n</VirtualHost>\n -> 28 2",
    r"<VirtualHost *:80>\n<VirtualHost *:81>\n</VirtualHost>\n</VirtualHost>\n -> 2 2",
    r"<VirtualHost *:80>\nServerRoot /etc\n</VirtualHost>\n -> 2 2",
    r"<VirtualHost *:80>\nServerAlias\n</VirtualHost>\n -> 3 2",
    r"ServerAlias a.example\n -> 2 1",
    r"ServerName\n -> 3 1",
    r"ServerName a.example b.example\n -> 3 1",
    r"<VirtualHost *:80>\n</VirtualHost>\n -> 27 0",
    r"<VirtualHost *:80>\nDocumentRoot /srv\n</VirtualHost>\n<VirtualHost *:81>\n</VirtualHost>\n -> 27 0",
    // sections: where they may stand, and what may stand in them
    r"<Directory /srv>\n</Directory>\n -> 27 0",
    r"<Directory /a>\n<Directory /b>\n</Directory>\n</Directory>\n -> 2 2",
    r"<Directory /a>\n<Location /b>\n</Location>\n</Directory>\n -> 2 2",
    r"<Directory /a>\n<VirtualHost *:80>\n</VirtualHost>\n</Directory>\n -> 2 2",
    r"<Location /a>\n<Files b>\n</Files>\n</Location>\n -> 2 2",
    r"<Files a>\n<FilesMatch b>\n</FilesMatch>\n</Files>\n -> 2 2",
    r"<Directory /a>\nDocumentRoot /srv\n</Directory>\n -> 2 2",
    r"<Directory /a>\nServerName a.example\n</Directory>\n -> 2 2",
    r"<Directory /a>\nAlias /a /b\n</Directory>\n -> 2 2",
    r"<Directory ~ a>\nRedirect /a /b\n</Directory>\n -> 2 2",
    r"<DirectoryMatch a>\nRedirectMatch a /b\n</DirectoryMatch>\n -> 2 2",
    r"<Location /a>\nRedirectTemp /a /b\n</Location>\n -> 2 2",
    r"<LocationMatch a>\nRedirectPermanent /a /b\n</LocationMatch>\n -> 2 2",
    r"<FilesMatch a>\nRedirect /a /b\n</FilesMatch>\n -> 2 2",
    r"<Directory /a>\n<Files a>\nRedirect /a /b\n</Files>\n</Directory>\n -> 2 3",
    r"<Directory /a>\n<IfDefine !X>\nAlias /a /b\n</IfDefine>\n</Directory>\n -> 2 3",
    r"<Directory /a>\n</Directory>\nAllowOverride All\n -> 2 3",
    // their words
    r"<Directory>\n</Directory>\n -> 3 1",
    r"<Directory /a /b>\n</Directory>\n -> 3 1",
    r"<Files ~ a b>\n</Files>\n -> 3 1",
    // the sign alone
    r"<Directory ~>\n</Directory>\n -> 3 1",
    r#"<Files \"~\">\n</Files>\n -> 3 1"#,
    r"<Location ~>\n</Location>\n -> 3 1",
    r"<Location a ~>\n</Location>\n -> 3 1",
    r"<DirectoryMatch ~ a>\n</DirectoryMatch>\n -> 3 1",
    r"<LocationMatch>\n</LocationMatch>\n -> 3 1",
    r#"<Files \"a>\n</Files>\n -> 6 1"#,
    r#"<Files ~ \"(\">\n</Files>\n -> 14 1"#,
    r#"<Location \"/[b-a]\">\n</Location>\n -> 14 1:2"#,
    r"<Directory /a/[b-a]>\n</Directory>\n -> 14 1:4",
    r"<Directory ~ a**>\n</Directory>\n -> 14 1:2",
    r"<DirectoryMatch (a*)*>\n</DirectoryMatch>\n -> 16 1:4",
    r"<FilesMatch ^\\q>\n</FilesMatch>\n -> 13 1:1",
    r"<LocationMatch (a{255}){17}>\n</LocationMatch>\n -> 15 1",
    // options and overrides
    r"Options\n -> 3 1",
    r"Options Foo\n -> 3 1",
    r"Options +Foo\n -> 3 1",
    r"Options -\n -> 3 1",
    r"Options Indexes +ExecCGI Foo\n -> 3 1",
    r"Options Indexes +ExecCGI\n -> 25 1",
    r"Options -Indexes None\n -> 25 1",
    r"<Location /a>\nOptions None +All\n</Location>\n -> 25 2",
    r"AllowOverride All\n -> 2 1",
    r"<VirtualHost *:80>\nAllowOverride All\n</VirtualHost>\n -> 2 2",
    r"<Directory ~ a>\nAllowOverride All\n</Directory>\n -> 2 2",
    r"<DirectoryMatch a>\nAllowOverride\n</DirectoryMatch>\n -> 2 2",
    r"<Location /a>\nAllowOverride All\n</Location>\n -> 2 2",
    r"<Directory /a>\nAllowOverride\n</Directory>\n -> 3 2",
    r"<Directory /a>\nAllowOverride Foo\n</Directory>\n -> 3 2",
    r"<Directory /a>\nAllowOverride All None\n</Directory>\n -> 3 2",
    r"<Directory /a>\nAllowOverride FileInfo None\n</Directory>\n -> 3 2",
];

#[test]
fn sections_are_refused(rt: HostRuntime) -> Result<(), NoMemory> {
    hold_refused(&rt, rt.alloc(), REFUSED)
}
