//! Claims that a Require stands before files.

use crate::dialogue::hold_each;
use hc_base::NoMemory;

// Aliases, sections and names.
static SECTIONS: &[&str] = &[
    // a directory is guarded by its section, not by that of a URL path
    r##"main DocumentRoot /srv\nRewriteEngine On\nRewriteRule ^/open/(.*)$ /secret/$1 [L]\n<Directory \"/srv/secret\">\n
  Require ip 10.0.0.0/8\n</Directory>\n
file /srv/secret/k
decide guarded ^/srv/secret/ MAIN:5 -> proved
"##,
    r##"main DocumentRoot /srv\nRewriteEngine On\nRewriteRule ^/open/(.*)$ /secret/$1 [L]\n<Location \"/secret\">\n
  Require ip 10.0.0.0/8\n</Location>\n
file /srv/secret/k
decide guarded ^/srv/secret/ MAIN:5 -> refuted /open/: directory /srv/secret/
decide guarded ^/srv/secret/k$ MAIN:5 path=^/(open|secret)/k$ -> refuted /open/k: /srv/secret/k
decide guarded ^/srv/secret/k$ MAIN:5 path=^/secret/ -> proved
"##,
    // a text that is mapped again leads to other files
    r##"main DocumentRoot /srv\nRewriteEngine On\nRewriteRule ^/(a|d)$ /b/$1 [PT]\nAlias /b /srv/c\n<Directory \"/x\">\n
  Require all granted\n</Directory>\n
file /srv/c/a
decide guarded ^/srv/c/a$ MAIN:6 path=^/[ad]$ -> refuted /a: /srv/c/a
"##,
];

#[test]
fn files_are_guarded(rt: HostRuntime) -> Result<(), NoMemory> {
    hold_each(&rt, rt.alloc(), SECTIONS)
}

// A Require of a `.htaccess`.
static OVERRIDES: &[&str] = &[
    // a Require of a `.htaccess`, and one below that replaces it
    r##"main DocumentRoot /srv\n<Directory /srv>\nAllowOverride All\n</Directory>\n
/srv/.htaccess Require all granted\n
file /srv/d/k
decide guarded ^/srv/d /srv/.htaccess:1 -> proved
"##,
    r##"main DocumentRoot /srv\n<Directory /srv>\nAllowOverride All\n</Directory>\n
/srv/.htaccess Require all granted\n
/srv/d/.htaccess Require method GET\n
file /srv/d/k
decide guarded ^/srv/d/k$ /srv/.htaccess:1 -> refuted /d/k: /srv/d/k
"##,
    r##"main DocumentRoot /srv\n<Directory /srv>\nAllowOverride All\n</Directory>\n
/srv/.htaccess Require all granted\n
/srv/d/.htaccess AuthMerging And\nRequire method GET\n
file /srv/d/k
decide guarded ^/srv/d/k$ /srv/.htaccess:1 -> proved
"##,
    r##"main DocumentRoot /srv\n<Directory /srv>\nAllowOverride All\n</Directory>\n
/srv/.htaccess Require all granted\n
/srv/d/.htaccess Require method POST\n
file /srv/d/k
decide guarded ^/srv/d/k$ /srv/.htaccess:1 -> proved
"##,
];

#[test]
fn files_are_guarded_by_overrides(rt: HostRuntime) -> Result<(), NoMemory> {
    hold_each(&rt, rt.alloc(), OVERRIDES)
}

// A Require that some methods pass, and passes.
static METHODS: &[&str] = &[
    r##"main DocumentRoot /srv\n<Directory /srv>\nAllowOverride All\n</Directory>\n
/srv/.htaccess Require all granted\n
/srv/d/.htaccess Require method POST\n
file /srv/d/k
decide guarded ^/srv/d/k$ /srv/.htaccess:1 methods=GET,POST -> undecided 
decide guarded ^/srv/d/k$ /srv/.htaccess:1 methods=POST,GET -> refuted /d/k method=POST: /srv/d/k
"##,
    // only the last pass counts
    r##"main DocumentRoot /srv\n<Directory /srv/a>\nRequire all granted\nRewriteEngine On\nRewriteRule ^k$ /b/k\n
  </Directory>\n
file /srv/a/k /srv/b/k
decide guarded ^/srv/b/k$ MAIN:3 path=^/a/ -> refuted /a/k: /srv/b/k
"##,
    r##"main DocumentRoot /srv\n<Directory /srv/b>\nRequire all granted\n</Directory>\n<Directory /srv/a>\n
  RewriteEngine On\nRewriteRule ^k$ /b/k\n</Directory>\n
file /srv/a/k /srv/b/k
decide guarded ^/srv/b/k$ MAIN:3 -> proved
"##,
];

#[test]
fn files_are_guarded_for_methods(rt: HostRuntime) -> Result<(), NoMemory> {
    hold_each(&rt, rt.alloc(), METHODS)
}

// A Require in a section whose expression asks for the client.
static ONE_CLIENT: &[&str] = &[
    r##"main DocumentRoot /srv\n<If \"%{REMOTE_ADDR} -ipmatch '10.0.0.0/8'\">\nRequire all granted\n</If>\n
file /srv/f
decide guarded ^/srv/f$ MAIN:3 client=10.0.0.7 -> proved
"##,
];

#[test]
fn files_are_guarded_for_one_client(rt: HostRuntime) -> Result<(), NoMemory> {
    hold_each(&rt, rt.alloc(), ONE_CLIENT)
}

// The same, for clients of which the least is another one.
static OTHER_CLIENTS: &[&str] = &[
    r##"main DocumentRoot /srv\n<If \"%{REMOTE_ADDR} -ipmatch '10.0.0.0/8'\">\nRequire all granted\n</If>\n
file /srv/f
decide guarded ^/srv/f$ MAIN:3 client=8.0.0.0/6 -> refuted /f client=8.0.0.0: /srv/f
"##,
];

#[test]
fn files_are_not_guarded_for_other_clients(rt: HostRuntime) -> Result<(), NoMemory> {
    hold_each(&rt, rt.alloc(), OTHER_CLIENTS)
}

// The same, for clients of which the least is in it.
static SOME_CLIENTS: &[&str] = &[
    r##"main DocumentRoot /srv\n<If \"%{REMOTE_ADDR} -ipmatch '10.0.0.0/8'\">\nRequire all granted\n</If>\n
file /srv/f
decide guarded ^/srv/f$ MAIN:3 client=10.0.0.0/7 -> undecided 
"##,
];

#[test]
fn files_may_be_guarded_for_some_clients(rt: HostRuntime) -> Result<(), NoMemory> {
    hold_each(&rt, rt.alloc(), SOME_CLIENTS)
}

// A Require that some clients pass.
static CLIENTS: &[&str] = &[
    r##"main DocumentRoot /srv\n<Directory /srv>\nRequire ip 10.0.0.0/8\n</Directory>\n
file /srv/f
decide guarded ^/srv/f$ MAIN:3 client=10.0.0.0/7 -> proved
"##,
];

#[test]
fn files_are_guarded_by_networks(rt: HostRuntime) -> Result<(), NoMemory> {
    hold_each(&rt, rt.alloc(), CLIENTS)
}
