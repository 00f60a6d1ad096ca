//! Claims that no request reaches a limit.

use crate::dialogue::hold_each;
use hc_base::NoMemory;

// A rule that matched, and one that did not: as many branches as the limit are too many.
static LIMITS: &[&str] = &[
    r##"cells 1
main DocumentRoot /srv\nRewriteEngine On\nRewriteRule ^/x$ - [F]\n
decide stops -> too_many 1
"##,
    r##"cells 2
main DocumentRoot /srv\nRewriteEngine On\nRewriteRule ^/x$ - [F]\n
decide stops -> too_many 2
"##,
    r##"cells 3
main DocumentRoot /srv\nRewriteEngine On\nRewriteRule ^/x$ - [F]\n
decide stops -> proved
"##,
    // a bad leaf doesn't show where there are too many
    r##"cells 2
main DocumentRoot /srv\nRewriteEngine On\nRewriteRule ^/x$ - [F]\n
decide shadowed MAIN:3 -> too_many 2
"##,
    r##"cells 3
main DocumentRoot /srv\nRewriteEngine On\nRewriteRule ^/x$ - [F]\n
decide shadowed MAIN:3 -> refuted /x: 403
"##,
    // each request ends there
    r##"cells 2
main DocumentRoot /srv\nRewriteEngine On\nRewriteRule ^ - [F]\n
decide stops -> proved
"##,
    r##"cells 1
main DocumentRoot /srv\nRewriteEngine On\nRewriteRule ^ - [F]\n
decide stops -> too_many 1
"##,
    r##"main DocumentRoot /srv\nRewriteEngine On\nRewriteRule ^/x$ - [F]\n
decide stops -> proved
"##,
];

#[test]
fn trees_have_limits(rt: HostRuntime) -> Result<(), NoMemory> {
    hold_each(&rt, rt.alloc(), LIMITS)
}

// Some passes lead to others.
static PASSES: &[&str] = &[
    // only the first pass is rewritten
    r##"main DocumentRoot /srv\n<Directory /srv>\nAllowOverride All\n</Directory>\n
/srv/.htaccess RewriteEngine On\nRewriteCond %{ENV:REDIRECT_STATUS} ^$\nRewriteRule ^(.*)$ /app/$1\n
decide stops -> proved
"##,
    // a configuration's own number of passes
    r##"main DocumentRoot /srv\nLimitInternalRecursion 3\n<Directory /srv>\nAllowOverride All\n</Directory>\n
/srv/.htaccess RewriteEngine On\nRewriteRule ^a$ b [L]\nRewriteRule ^b$ c [L]\nRewriteRule ^c$ d [L]\n
file /srv/d
decide stops path=^/a$ -> proved
"##,
    r##"main DocumentRoot /srv\nLimitInternalRecursion 2\n<Directory /srv>\nAllowOverride All\n</Directory>\n
/srv/.htaccess RewriteEngine On\nRewriteRule ^a$ b [L]\nRewriteRule ^b$ c [L]\nRewriteRule ^c$ d [L]\n
file /srv/d
decide stops path=^/a$ -> refuted /a: limit redirects
decide stops path=^/[^a]*$ -> proved
"##,
];

#[test]
fn passes_stop(rt: HostRuntime) -> Result<(), NoMemory> {
    hold_each(&rt, rt.alloc(), PASSES)
}

// Rounds, and requests that are outside.
static ROUNDS: &[&str] = &[
    // no path of the scope is one
    r##"cells 1
main DocumentRoot /srv\nRewriteEngine On\nRewriteRule ^ - [N=2]\n
decide stops path=^x$ -> proved
"##,
    r##"main DocumentRoot /srv\n
decide stops path=^/a/../b$ -> proved
"##,
    // rounds of a list
    r##"main DocumentRoot /srv\nRewriteEngine On\nRewriteRule ^ - [N=2]\n
decide stops -> refuted /: limit rounds
"##,
    r##"main DocumentRoot /srv\nRewriteEngine On\nRewriteRule ^(/.*)x$ $1 [N=3]\n
decide stops path=^/x+$ -> refuted /xxx: limit rounds
"##,
    r##"main DocumentRoot /srv\nRewriteEngine On\nRewriteRule ^(/[a-y]*)x$ $1 [N=3]\n
decide stops -> undecided rule:MAIN:3:true rule:MAIN:3:true rule:MAIN:3:true
"##,
    r##"main DocumentRoot /srv\nRewriteEngine On\nRewriteRule ^/x$ /y [N=2]\n
decide stops -> proved
"##,
    r##"main DocumentRoot /srv\n<Directory /srv>\nRewriteEngine On\nRewriteRule ^x$ y [N=2]\nRewriteRule ^y$ x [N=2]\n
  </Directory>\n
file /srv/k
decide stops path=^/[kx]$ -> refuted /x: limit rounds
"##,
    // a `.htaccess` that is refused ends the request
    r##"main DocumentRoot /srv\n<Directory /srv>\nAllowOverride All\n</Directory>\n
/srv/.htaccess Nonsense\n
decide stops -> proved
"##,
    // what nothing is said of breaks each claim
    r##"main DocumentRoot /srv\nRewriteEngine On\nRewriteRule ^/x$ ftp://b.example/\n
decide stops -> refuted /x: outside scheme
"##,
    r##"main DocumentRoot /srv\nRewriteEngine On\nRewriteRule ^/(.*)$ /../$1\n
decide stops -> refuted /: outside dot segment
"##,
    r##"main DocumentRoot /srv\nRewriteEngine On\nRewriteRule ^/(x|y)$ /$1-$1\nRewriteRule ^/x-y$ ftp://b.example/\n
decide stops path=^/[xy]$ -> undecided rule:MAIN:3:true rule:MAIN:4:true
"##,
    r##"main DocumentRoot /srv\nRewriteEngine On\nRewriteRule ^(/.*)x$ $1 [N=3]\n
decide stops -> refuted /.x: outside dot segment
"##,
    // a text that is too long is of no scope
    r##"main DocumentRoot /srv\nRewriteEngine On\nRewriteRule ^(/p*)$ $1q\n
decide stops -> proved
"##,
];

#[test]
fn rounds_stop(rt: HostRuntime) -> Result<(), NoMemory> {
    hold_each(&rt, rt.alloc(), ROUNDS)
}
