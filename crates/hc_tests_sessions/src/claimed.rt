//! Claims about sites as they are.

use crate::dialogue::hold_each;
use hc_base::NoMemory;

// The rules that WordPress writes.
static BLOG: &[&str] = &[
    r##"main DocumentRoot \"/var/www/html\"\n<Directory \"/\">\nRequire all denied\n</Directory>\n
  <Directory /var/www/html>\nOptions FollowSymLinks\nAllowOverride All\nRequire all granted\n</Directory>\n
/var/www/html/.htaccess # BEGIN WordPress\n<IfModule mod_rewrite.c>\nRewriteEngine On\n
  RewriteRule .* - [E=HTTP_AUTHORIZATION:%{HTTP:Authorization}]\nRewriteBase /\nRewriteRule ^index\\.php$ - [L]\n
  RewriteCond %{REQUEST_FILENAME} !-f\nRewriteCond %{REQUEST_FILENAME} !-d\nRewriteRule . /index.php [L]\n
  </IfModule>\n# END WordPress\n
file /var/www/html/index.php /var/www/html/a.css /var/www/html/wp-admin/admin.php
decide stops -> proved
decide shadowed /var/www/html/.htaccess:6 -> refuted /index.php: /var/www/html/index.php
decide shadowed /var/www/html/.htaccess:5 -> refused 48 NoSuchPlace
stats 0 0
"##,
    r##"cells 1
main DocumentRoot /srv\n
decide stops -> too_many 1
"##,
];

#[test]
fn a_blog_stops(rt: HostRuntime) -> Result<(), NoMemory> {
    hold_each(&rt, rt.alloc(), BLOG)
}

// Requests that go on for ever, and some that don't.
static STOPS: &[&str] = &[
    r##"main DocumentRoot /srv\n<Directory /srv>\nAllowOverride All\n</Directory>\n
/srv/.htaccess RewriteEngine On\nRewriteRule ^(.*)$ /app/$1\n
{"do":"decide","claim":{"kind":"stops"},"scope":{"path":{"literal":"/"}}}
{"refuted":{"outcome":{"limit":"redirects"},"request":{"client":"0.0.0.0","headers":{},"host":"localhost",
  "method":"GET","port":80,"scheme":"http","server":"192.0.2.1","target":"/"}}}
"##,
    // no path begins without a slash
    r##"main DocumentRoot /srv\nRewriteEngine On\nRewriteRule ^ / [N=2]\n
decide stops path=^a$ -> proved
"##,
];

#[test]
fn requests_stop(rt: HostRuntime) -> Result<(), NoMemory> {
    hold_each(&rt, rt.alloc(), STOPS)
}

// Files behind a Require.
static GUARDED: &[&str] = &[
    r##"main DocumentRoot /srv\nRewriteEngine On\nRewriteRule ^/open/(.*)$ /secret/$1 [L]\n
  <Directory \"/srv/secret\">\nRequire ip 10.0.0.0/8\n</Directory>\n
file /srv/secret/k
decide guarded ^/srv/secret/ MAIN:5 -> proved
{"do":"edit","from":4,"path":"MAIN","text":"<Location \"/secret\">\n","to":4} -> done edit
{"do":"edit","from":6,"path":"MAIN","text":"</Location>\n","to":6} -> done edit
decide guarded ^/srv/secret/ MAIN:5 -> refuted /open/: directory /srv/secret/
"##,
    // two texts that may be anything are compared
    r##"main DocumentRoot /srv\n<If \"%{QUERY_STRING} == %{REQUEST_URI}\">\nRequire all granted\n</If>\n
file /srv/f
decide guarded ^/srv/f$ MAIN:3 path=^/f$ -> refuted /f: /srv/f
"##,
];

#[test]
fn files_stand_behind_a_require(rt: HostRuntime) -> Result<(), NoMemory> {
    hold_each(&rt, rt.alloc(), GUARDED)
}

// Rules that never match, and one of which that isn't known.
static SHADOWED: &[&str] = &[
    r##"main DocumentRoot /srv\nRewriteEngine On\nRewriteRule ^/(x|y)$ /$1-$1\nRewriteRule ^/x-y$ - [F]\n
decide shadowed MAIN:4 path=^/[xy]$ -> undecided rule:MAIN:3:true rule:MAIN:4:true
decide shadowed MAIN:4 path=^/x$ -> proved
decide shadowed MAIN:4 path=^/y$ -> proved
"##,
    r##"main ServerRoot /e\nDocumentRoot /srv\nRewriteEngine On\nInclude rules\n
/e/rules RewriteRule ^/a$ - [F]\nRewriteRule ^/(a|b)$ - [G]\nRewriteRule ^/b$ - [F]\n
decide shadowed /e/rules:2 -> refuted /b: 410
decide shadowed /e/rules:3 -> proved
"##,
];

#[test]
fn rules_never_match(rt: HostRuntime) -> Result<(), NoMemory> {
    hold_each(&rt, rt.alloc(), SHADOWED)
}
