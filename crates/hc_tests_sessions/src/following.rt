//! Chains of redirects to own servers: where a request ends, and what of it is kept and counted.

use crate::dialogue::{hold, hold_each};
use hc_base::NoMemory;

static CHAIN: &str = r##"main DocumentRoot /srv\nRedirect permanent /a http://localhost/b\n
  Redirect /b http://localhost/c\n
file /srv/c/x
follow http localhost 80: /a/x -> followed 2 ended: /srv/c/x
stats 3 3
follow http localhost 80: /a/x -> followed 2 ended: /srv/c/x
stats 6 3
ask /b/x -> 302 http://localhost/c/x
ask /c/x -> /srv/c/x
stats 8 3
follow http localhost 80: /c/x -> followed 0 ended: /srv/c/x
follow http localhost 80: /a/y -> followed 2 ended: not found
stats 12 6
follow http www.example 80: /a/x -> followed 0 away: 301 http://localhost/b/x
follow https localhost 443, http localhost 8080: /a/x -> followed 0 away: 301 http://localhost/b/x
stats 14 6
{"do":"edit","path":"MAIN","from":4,"to":3,"text":"Redirect /c http://localhost/a\n"} -> done edit
follow http localhost 80: /a -> followed 20 too many: 302 http://localhost/a
stats 35 9
follow http localhost 80: /x -> followed 0 ended: not found
follow http localhost 80: /b/f?q -> followed 20 too many: 301 http://localhost/b/f?q
stats 57 13
{"do":"edit","path":"MAIN","from":1,"to":1,"text":"Nonsense\n"} -> done edit
follow http localhost 80: /a -> refused 1 UnsupportedDirective MAIN:1
stats 57 13
"##;

#[test]
fn each_request_of_a_chain_is_an_ask(rt: HostRuntime) -> Result<(), NoMemory> {
    hold(&rt, rt.alloc(), CHAIN)
}

static FOLLOWED: &[&str] = &[
    // from HTTP to HTTPS, and from one host to another
    r##"main RewriteEngine On\nRewriteCond %{HTTPS} off\nRewriteRule ^ https://%{HTTP_HOST}%{REQUEST_URI} [R=301,L]\n
  DocumentRoot /srv\n<VirtualHost *:443>\nServerName example.org\nDocumentRoot /org\n</VirtualHost>\n
  <VirtualHost *:443>\nServerName www.example.org\nRedirect permanent / https://example.org/\n</VirtualHost>\n
file /org/f /srv/f
follow https example.org 443, https www.example.org 443: /f?q host=www.example.org
   -> followed 2 ended: /org/f
follow https www.example.org 443: /f host=www.example.org -> followed 1 away: 301 https://example.org/f
follow https example.org 443: /f host=www.example.org -> followed 0 away: 301 https://www.example.org/f
"##,
    // the method, the port, another case of the host, a default port that is written, and what stands behind `#`
    r##"main DocumentRoot /srv\nRedirect seeother /form /thanks\nRedirect temp /moved /form\n
  Redirect /p http://localhost:8080/q\nRedirectMatch ^/c$ HTTP://LocalHost:80/f\n
  RedirectMatch ^/h$ http://localhost/f#part\nRedirectMatch ^/e$ http://localhost\n
  RedirectMatch ^/m$ http://localhost?q\n<Location /thanks>\nRequire method GET\n</Location>\n
file /srv/thanks /srv/f /srv/q
follow http localhost 80: /moved method=POST -> followed 2 ended: /srv/thanks
follow http localhost 80: /form method=POST -> followed 1 ended: /srv/thanks
follow http localhost 80: /p -> followed 0 away: 302 http://localhost:8080/q
follow http localhost 80, http localhost 8080: /p -> followed 1 ended: /srv/q
follow http localhost 80: /c -> followed 1 ended: /srv/f
follow http LOCALHOST 80: /h -> followed 1 ended: /srv/f
follow http localhost 80: /e -> followed 1 ended: directory /srv/
follow http localhost 80: /m -> followed 1 ended: directory /srv/
"##,
    // a target that is too long, and a way that ends outside
    r##"main DocumentRoot /srv\nRedirectMatch ^/m$ http://localhost/<<8190 a>>\n
  Redirect /o http://localhost/a%20b\n
follow http localhost 80: /m -> followed 0 bad target: 302 http://localhost/<<8190 a>>
follow http localhost 80: /o -> followed 1 ended: outside path byte
"##,
    // rules of a directory
    r##"main DocumentRoot /srv\n<Directory /srv>\nAllowOverride All\nOptions FollowSymLinks\n</Directory>\n
/srv/.htaccess RewriteEngine On\nRewriteRule ^old/(.*)$ http://localhost/new/$1 [R=301,L]\n
  RewriteRule ^new/(.*)$ kept/$1 [L]\n
file /srv/kept/f
follow http localhost 80: /old/f -> followed 1 ended: /srv/kept/f
stats 2 2
follow http localhost 80: /new/f -> followed 0 ended: /srv/kept/f
stats 3 2
/srv/kept/.htaccess Require all denied\n
follow http localhost 80: /old/f -> followed 1 ended: 403
stats 5 3
"##,
    // the first origin that fits counts: its host is that of the next request
    r##"main DocumentRoot /srv\nRedirect /a http://localhost/b\nRewriteEngine On\n
  RewriteCond %{HTTP_HOST} ^LOCAL\nRewriteRule ^/b$ /upper\n
file /srv/b /srv/upper
follow http LOCALHOST 80, http localhost 80: /a -> followed 1 ended: /srv/upper
follow http localhost 80, http LOCALHOST 80: /a -> followed 1 ended: /srv/b
"##,
];

#[test]
fn redirects_to_own_servers_are_followed(rt: HostRuntime) -> Result<(), NoMemory> {
    hold_each(&rt, rt.alloc(), FOLLOWED)
}

// Twenty redirects are followed, and no more.
static STEPS: &str =
    r##"main DocumentRoot /srv\nRewriteEngine On\nRewriteRule ^/x(x*)$ http://localhost/$1 [R,L]\n
follow http localhost 80: /<<20 x>> -> followed 20 ended: not found
follow http localhost 80: /<<21 x>> -> followed 20 too many: 302 http://localhost/
stats 42 22
"##;

#[test]
fn a_chain_has_its_length(rt: HostRuntime) -> Result<(), NoMemory> {
    hold(&rt, rt.alloc(), STEPS)
}

static FORMS: &[&str] = &[
    r#"{"do":"follow"} -> bad target"#,
    r#"{"do":"follow","trail":true} -> bad trail"#,
    r#"{"do":"follow","target":"/"} -> bad hosts"#,
    r#"{"do":"follow","target":"/","headers":[]} -> bad headers"#,
    r#"{"do":"follow","target":"/","hosts":{}} -> bad hosts"#,
    r#"{"do":"follow","target":"/","hosts":[]} -> bad hosts"#,
    r#"{"do":"follow","target":"/","hosts":[7]} -> bad hosts"#,
    r#"{"do":"follow","target":"/","hosts":[{"host":"a","port":80}]} -> bad hosts"#,
    r#"{"do":"follow","target":"/","hosts":[{"host":"a","scheme":"http"}]} -> bad hosts"#,
    r#"{"do":"follow","target":"/","hosts":[{"port":80,"scheme":"http"}]} -> bad hosts"#,
    r#"{"do":"follow","target":"/","hosts":[{"host":"a","port":80,"scheme":"http","x":1}]} -> bad hosts"#,
    r#"{"do":"follow","target":"/","hosts":[{"host":"_","port":80,"scheme":"http"}]} -> bad hosts"#,
    r#"{"do":"follow","target":"/","hosts":[{"host":"a","port":65536,"scheme":"http"}]} -> bad hosts"#,
    r#"{"do":"follow","target":"/","hosts":[{"host":"a","port":80,"scheme":"HTTP"}]} -> bad hosts"#,
    r#"{"do":"follow","target":"/","hosts":[{"host":"a","port":0,"scheme":"https"}, null]} -> bad hosts"#,
    r#"follow https  0: / -> refused 8 IncludeMissing MAIN:0"#,
    r#"follow <<15 http a 80, >>http a 80: / -> refused 8 IncludeMissing MAIN:0"#,
    r#"follow <<16 http a 80, >>http a 80: / -> bad hosts"#,
];

#[test]
fn own_servers_have_their_form(rt: HostRuntime) -> Result<(), NoMemory> {
    hold_each(&rt, rt.alloc(), FORMS)
}
