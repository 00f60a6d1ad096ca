//! Claims over the steps of a request: flags, variables, queries, clients and sections.

use crate::dialogue::hold_each;
use hc_base::NoMemory;

// END, path information and files.
static FILES: &[&str] = &[
    // no rules of a directory behind END
    r##"main DocumentRoot /srv\n<Directory /srv>\nAllowOverride All\n</Directory>\n
/srv/.htaccess RewriteEngine On\nRewriteRule ^a$ b [END]\nRewriteRule ^b$ - [F]\n
file /srv/b
decide shadowed /srv/.htaccess:3 path=^/a$ -> proved
decide shadowed /srv/.htaccess:3 path=^/[ab]$ -> refuted /b: 403
"##,
    r##"main DocumentRoot /srv\n<Directory /srv>\nAllowOverride All\n</Directory>\n
/srv/.htaccess RewriteEngine On\nRewriteRule ^a$ b [L]\nRewriteRule ^b$ - [F]\n
file /srv/b
decide shadowed /srv/.htaccess:3 path=^/a$ -> refuted /a: 403
"##,
    // behind a file name
    r##"main DocumentRoot /srv\n<Directory /srv>\nAllowOverride All\n</Directory>\n
/srv/.htaccess RewriteEngine On\nRewriteCond %{PATH_INFO} ^/i$\nRewriteRule ^ - [F]\n
file /srv/k
decide shadowed /srv/.htaccess:3 path=^/k(/i)?$ -> refuted /k/i: 403
decide shadowed /srv/.htaccess:3 path=^/k(/j)?$ -> proved
"##,
    // files that are there
    r##"main DocumentRoot /srv\n<Directory /srv>\nAllowOverride All\n</Directory>\n
/srv/.htaccess RewriteEngine On\nRewriteCond %{REQUEST_FILENAME} -f\nRewriteRule ^ - [F]\n
file /srv/k
decide shadowed /srv/.htaccess:3 path=^/[jkz]$ -> refuted /k: 403
decide shadowed /srv/.htaccess:3 path=^/[jz]$ -> proved
"##,
    r##"main DocumentRoot /srv\nRewriteEngine On\nRewriteCond %{DOCUMENT_ROOT}%{REQUEST_URI} -f\nRewriteRule ^ - [F]\n
file /srv/k
decide shadowed MAIN:4 -> refuted /k: 403
"##,
];

#[test]
fn steps_to_files_are_claimed(rt: HostRuntime) -> Result<(), NoMemory> {
    hold_each(&rt, rt.alloc(), FILES)
}

// Variables and queries.
static TEXTS: &[&str] = &[
    // variables
    r##"main DocumentRoot /srv\nRewriteEngine On\nRewriteRule ^/a$ - [E=V:1]\nRewriteCond %{ENV:V} =1\n
  RewriteRule ^/[ab]$ - [F]\n
decide shadowed MAIN:5 path=^/[ab]$ -> refuted /a: 403
decide shadowed MAIN:5 path=^/[^a] -> proved
"##,
    r##"main DocumentRoot /srv\n<Directory /srv>\nAllowOverride All\n</Directory>\n
/srv/.htaccess RewriteEngine On\nRewriteRule ^a$ b [E=V:1,L]\nRewriteCond %{ENV:REDIRECT_V} =1\n
  RewriteRule ^b$ - [F]\n
file /srv/b
decide shadowed /srv/.htaccess:4 path=^/a$ -> refuted /a: 403
decide shadowed /srv/.htaccess:4 path=^/b$ -> proved
"##,
    // a request has the query that it began with
    r##"main DocumentRoot /srv\nRewriteEngine On\nRewriteRule ^/a$ /b?x=1 [QSA]\nRewriteCond %{QUERY_STRING} ^x=1&y$\n
  RewriteRule ^/b$ - [F]\n
decide shadowed MAIN:5 path=^/a$ query=^y$ -> refuted /a?y: 403
decide shadowed MAIN:5 path=^/a$ query=^y?$ -> undecided rule:MAIN:3:true cond:MAIN:4:true rule:MAIN:5:true
"##,
    r##"main DocumentRoot /srv\nRewriteEngine On\nRewriteCond %{QUERY_STRING} ^a=(.)$\nRewriteRule ^/x$ /y-%1?\n
  RewriteRule ^/y-3$ - [F]\n
decide shadowed MAIN:5 path=^/x$ query=^a=3$ -> refuted /x?a=3: 403
decide shadowed MAIN:5 path=^/x$ -> undecided cond:MAIN:3:true rule:MAIN:4:true rule:MAIN:5:true
"##,
];

#[test]
fn steps_with_texts_are_claimed(rt: HostRuntime) -> Result<(), NoMemory> {
    hold_each(&rt, rt.alloc(), TEXTS)
}

// Chains, redirects and limits.
static ENDS: &[&str] = &[
    // chained rules
    r##"main DocumentRoot /srv\nRewriteEngine On\nRewriteRule ^/a$ /b [C]\nRewriteRule ^/b$ - [F]\n
decide shadowed MAIN:4 path=^/b$ -> proved
decide shadowed MAIN:4 -> refuted /a: 403
"##,
    // what is redirected has no file name
    r##"main DocumentRoot /srv\nRedirect 302 /x http://b.example/\n<Directory /srv>\nRewriteEngine On\n
  RewriteRule ^ - [F]\n</Directory>\n
file /srv/k
decide shadowed MAIN:5 path=^/x(/|$) -> proved
decide shadowed MAIN:5 path=^/x -> refuted /x!: 403
"##,
];

#[test]
fn ends_are_claimed(rt: HostRuntime) -> Result<(), NoMemory> {
    hold_each(&rt, rt.alloc(), ENDS)
}

// Clients and names.
static CLIENTS: &[&str] = &[
    r##"main DocumentRoot /srv\n<Directory /srv>\nRequire ip 2001:db8::/32\nRewriteEngine On\nRewriteRule ^f$ - [G]\n
  </Directory>\n
file /srv/k
decide shadowed MAIN:5 path=^/f$ client=2001:db8:1::/48 -> refuted /f client=2001:db8:1:0:0:0:0:0: 410
decide shadowed MAIN:5 path=^/f$ client=10.0.0.0/8 -> proved
"##,
    r##"main DocumentRoot /srv\n<Directory /srv>\nRequire ip 10.0.0.0/9 10.128.0.0/9\nRewriteEngine On\n
  RewriteRule ^f$ - [G]\n</Directory>\n
file /srv/k
decide shadowed MAIN:5 path=^/f$ client=10.0.0.0/8 -> refuted /f client=10.0.0.0: 410
"##,
    r##"main DocumentRoot /srv\n<Directory /srv>\nRequire method POST\nRewriteEngine On\nRewriteRule ^f$ - [G]\n
  </Directory>\n
file /srv/k
decide shadowed MAIN:5 path=^/f$ -> proved
"##,
    r##"main DocumentRoot /srv\n<Directory /srv>\n<RequireAll>\nRequire all granted\nRequire not ip 10.0.0.0/8\n
  </RequireAll>\nRewriteEngine On\nRewriteRule ^f$ - [G]\n</Directory>\n
file /srv/k
decide shadowed MAIN:8 path=^/f$ client=10.0.0.0/8 -> proved
decide shadowed MAIN:8 path=^/f$ client=10.0.0.0/7 -> undecided rule:MAIN:8:true
decide shadowed MAIN:8 path=^/f$ client=11.0.0.0/8 -> refuted /f client=11.0.0.0: 410
"##,
    // sections of names
    r##"main DocumentRoot /srv\n<Files k>\nRequire all granted\n</Files>\n
file /srv/k /srv/l
decide guarded ^/srv/k$ MAIN:3 -> proved
decide guarded ^/srv/[kl]$ MAIN:3 -> refuted /l: /srv/l
"##,
];

#[test]
fn steps_of_clients_are_claimed(rt: HostRuntime) -> Result<(), NoMemory> {
    hold_each(&rt, rt.alloc(), CLIENTS)
}
