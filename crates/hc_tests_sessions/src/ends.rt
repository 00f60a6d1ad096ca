//! Claims that all chains of redirects to own servers end.

use crate::dialogue::{hold, hold_each};
use hc_base::NoMemory;

static ENDS: &[&str] = &[
    // two redirects, and three that go round
    r##"main DocumentRoot /srv\nRedirect permanent /a http://localhost/b\nRedirect /b http://localhost/c\n
file /srv/c/x
decide ends http localhost 80 -> proved
{"do":"edit","path":"MAIN","from":4,"to":3,"text":"Redirect /c http://localhost/a\n"} -> done edit
decide ends http localhost 80 -> refuted /a: 302 http://localhost/a
decide ends http www.localhost 80 -> proved
decide ends http localhost 8080, https localhost 443 -> proved
decide ends http localhost 80: path=^/[xyz] -> proved
stats 0 0
"##,
    // what stands behind `#` is no path, and a rule escapes it
    r##"main DocumentRoot /srv\nRedirect /a http://localhost/b#f\n
decide ends http localhost 80 -> undecided
"##,
    r##"main DocumentRoot /srv\nRewriteEngine On\nRewriteRule ^/a$ /b#c [R,L]\n
decide ends http localhost 80 -> refuted /a: outside path byte
"##,
    // 303 is followed by GET
    r##"main DocumentRoot /srv\nRewriteEngine On\nRewriteCond %{REQUEST_METHOD} POST\n
  RewriteRule ^/thanks$ http://localhost/thanks [R,L]\nRewriteRule ^/form$ http://localhost/thanks [R=303,L]\n
decide ends http localhost 80: path=^/form$ methods=POST -> proved
decide ends http localhost 80: path=^/thanks$ methods=POST -> refuted /thanks method=POST: 302 http://localhost/thanks
decide ends http localhost 80: path=^/thanks$ -> proved
"##,
    // the first server that fits counts, in any case and with a port that is the scheme's own
    r##"main DocumentRoot /srv\nRedirect /a HTTP://LocalHost:80/b\nRewriteEngine On\nRewriteCond %{HTTP_HOST} ^LOCAL\n
  RewriteRule ^/b$ http://localhost/b [R,L]\n
decide ends http LOCALHOST 80, http localhost 80 -> refuted /a: 302 http://localhost/b
decide ends http localhost 80, http LOCALHOST 80 -> proved
decide ends http localhost 81, https localhost 80 -> proved
"##,
    // a location that ends with its query
    r##"main DocumentRoot /srv\nRedirectMatch ^/m$ http://localhost?q\nRewriteEngine On\n
  RewriteCond %{QUERY_STRING} ^q$\nRewriteRule ^/$ http://localhost?q [R,L]\n
decide ends http localhost 80: path=^/m$ -> refuted /m: 302 http://localhost?q
decide ends http localhost 80: path=^/$ query=^p$ -> proved
"##,
    // from HTTP to HTTPS and from one host to another, by the same paths
    r##"main DocumentRoot /srv\nRewriteEngine On\nRewriteCond %{HTTPS} off\nRewriteRule ^ https://%{HTTP_HOST}%{REQUEST_URI} [R=301,L]\n
  <VirtualHost *:443>\nServerName example.org\nDocumentRoot /org\n</VirtualHost>\n
  <VirtualHost *:443>\nServerName www.example.org\nRedirect permanent / https://example.org/\n</VirtualHost>\n
decide ends https example.org 443, https www.example.org 443: host=www.example.org -> proved
"##,
    // rules of a directory
    r##"main DocumentRoot /srv\n<Directory /srv>\nAllowOverride All\nOptions FollowSymLinks\n</Directory>\n
/srv/.htaccess RewriteEngine On\nRewriteRule ^a$ http://localhost/b [R,L]\n
decide ends http localhost 80 -> proved
/srv/.htaccess RewriteEngine On\nRewriteRule ^a$ http://localhost/a [R,L]\n
decide ends http localhost 80: path=^/[ab]$ -> refuted /a: 302 http://localhost/a
"##,
    // a limit of a request ends its chain
    r##"main DocumentRoot /srv\nRewriteEngine On\nRewriteRule ^/a$ /a [N=2]\n
decide stops -> refuted /a: limit rounds
decide ends http localhost 80 -> proved
"##,
];

#[test]
fn chains_end(rt: HostRuntime) -> Result<(), NoMemory> {
    hold_each(&rt, rt.alloc(), ENDS)
}

// Twenty redirects are followed, and no more.
static STEPS: &str =
    r##"main DocumentRoot /srv\nRewriteEngine On\nRewriteRule ^/x(x*)$ http://localhost/$1 [R,L]\n
decide ends http localhost 80: path=^/x{20}$ -> proved
decide ends http localhost 80: path=^/x{21}$ -> refuted /<<21 x>>: 302 http://localhost/
"##;

#[test]
fn a_chain_has_its_length(rt: HostRuntime) -> Result<(), NoMemory> {
    hold(&rt, rt.alloc(), STEPS)
}

// As many ends as the limit are too many.
static LIMITS: &[&str] = &[
    r##"cells 2
main DocumentRoot /srv\nRedirect /a http://localhost/b\n
decide ends http localhost 80: path=^/a$ -> too_many 2
"##,
    r##"main DocumentRoot /srv\nRewriteEngine On\nRewriteRule ^ - [F]\n
decide ends http localhost 80 -> proved
"##,
    r##"cells 1
main DocumentRoot /srv\nRewriteEngine On\nRewriteRule ^ - [F]\n
decide ends http localhost 80 -> too_many 1
"##,
];

#[test]
fn ends_have_a_limit(rt: HostRuntime) -> Result<(), NoMemory> {
    hold_each(&rt, rt.alloc(), LIMITS)
}

// The claim comes before the scope, sets before the configuration, and this before patterns.
static FORMS: &[&str] = &[
    r#"{"do":"decide","claim":{"kind":"ends"},"scope":{}} -> bad claim"#,
    r#"{"do":"decide","claim":{"kind":"ends","hosts":[]},"scope":1} -> bad claim"#,
    r#"{"do":"decide","claim":{"kind":"ends","hosts":[7]},"scope":{}} -> bad claim"#,
    r#"{"do":"decide","claim":{"kind":"ends","hosts":[{"host":"a","port":80,"scheme":"http"}],"x":1},"scope":{}}
   -> bad claim"#,
    r#"decide ends <<16 http a 80, >>http a 80 -> bad claim"#,
    r#"{"do":"decide","claim":{"kind":"ends","hosts":[{"host":"a","port":80,"scheme":"http"}]}} -> bad scope"#,
    r#"{"do":"decide","claim":{"kind":"ends","hosts":[]},"scope":{},"trail":true} -> bad trail"#,
    r#"{"do":"verify","claim":{"kind":"ends","hosts":[{"host":"a","port":80,"scheme":"http"}]},"scope":{},"cells":[]}
   -> bad claim"#,
    r#"decide ends http a 80: path=(a -> refused 8 IncludeMissing MAIN"#,
    r##"{"do":"decide","claim":{"kind":"ends","hosts":[{"host":"a","port":80,"scheme":"http"}]},"scope":{"path":1}}
{"refused":{"at":0,"code":44,"field":"scope","file":"","line":0,"name":"SetSyntax"}}
main DocumentRoot /srv\n
decide ends http a 80: path=a(b
{"refused":{"at":1,"code":14,"field":"scope","file":"","line":0,"name":"PatternSyntax"}}
decide ends <<15 http a 80, >>http a 80 -> proved
"##,
];

#[test]
fn the_claim_has_its_form(rt: HostRuntime) -> Result<(), NoMemory> {
    hold_each(&rt, rt.alloc(), FORMS)
}
