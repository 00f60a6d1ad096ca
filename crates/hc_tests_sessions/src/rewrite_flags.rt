//! The flags of rules, the forms of substitutions and the tests of conditions, as dialogues.

use crate::dialogue::hold_each;
use hc_base::NoMemory;

static FLAGS: &[&str] = &[
    // statuses, and redirects with a status
    r##"main DocumentRoot /srv\nRewriteEngine On\nRewriteRule ^/f$ /x [F]\nRewriteRule ^/g$ - [gone]\n
  RewriteRule ^/h$ - [R=404,L]\nRewriteRule ^/i$ /x [G,forbidden]\nRewriteRule ^/j$ /x [R=200,L]\n
  RewriteRule ^/l$ /x [R=permanent,L]\nRewriteRule ^/m$ /x [redirect=SeeOther,last]\n
  RewriteRule ^/n$ /x [R=temp,END]\n
  RewriteRule ^/o$ /x [R=308,L]\nRewriteRule ^/p$ /x [R=599,L]\nRewriteRule ^/k$ - [R,L]\nRewriteRule ^/q$ /x [R]\n
ask /f -> 403
ask /g -> 410
ask /h -> 404
ask /i -> 403
ask /j -> 200
ask /l -> 301 http://localhost/x
ask /m -> 303 http://localhost/x
ask /n -> 302 http://localhost/x
ask /o -> 308 http://localhost/x
ask /p -> 599
ask /k -> not found
ask /q?a port=8080 -> 302 http://localhost:8080/x?a
"##,
    // the query
    r##"main DocumentRoot /srv\nRewriteEngine On\nRewriteRule ^/a$ /y [QSA,R,L]\n
  RewriteRule ^/b$ /y?b=2 [qsappend,R,L]\nRewriteRule ^/c$ /y? [QSA,R,L]\nRewriteRule ^/d$ /y? [R,L]\n
  RewriteRule ^/e$ /y [QSD,R,L]\nRewriteRule ^/f$ /y?b=2 [QSA,qsdiscard,R,L]\nRewriteRule ^/g$ - [QSD]\n
  RewriteRule ^/g$ /y [R,L]\nRewriteRule ^/h$ /y?a?b [R,L]\nRewriteRule ^/i$ /j?z\n
  RewriteRule ^/j$ /y%{QUERY_STRING} [R,L]\n
ask /a?a=1 -> 302 http://localhost/y?a=1
ask /b?a=1 -> 302 http://localhost/y?b=2&a=1
ask /b -> 302 http://localhost/y?b=2
ask /c?a=1 -> 302 http://localhost/y?a=1
ask /c -> 302 http://localhost/y
ask /d?a=1 -> 302 http://localhost/y
ask /e?a=1 -> 302 http://localhost/y
ask /f?a=1 -> 302 http://localhost/y?b=2
ask /g?a=1 -> 302 http://localhost/y?a=1
ask /h -> 302 http://localhost/y?a%3fb
ask /i?a=1 -> 302 http://localhost/yz?z
"##,
    // variables: before the substitution, one after another, taken away, and with case
    r##"main DocumentRoot /srv\nRewriteEngine On\nRewriteRule ^/e(.)$ - [E=v:$1,E=w:%{ENV:v}-%{ENV:v}]\n
  RewriteRule ^/e.$ /z%{ENV:w}%{ENV:W}%{env:v} [R,L]\nRewriteRule ^/s(.)$ /z%{ENV:v} [env=v:$1,R,L]\n
  RewriteRule ^/t$ - [E=v:1]\nRewriteRule ^/t$ - [E=!v]\nRewriteRule ^/t$ /z[%{ENV:v}] [R,L]\n
  RewriteRule ^/u$ - [E=v:1,E=v:2:3]\nRewriteRule ^/u$ /%{ENV:v} [R,L]\nRewriteRule ^/w$ - [E=v:1,E=v]\n
  RewriteRule ^/w$ /z%{ENV:v} [R,L]\n
ask /ea -> 302 http://localhost/za-aa
ask /sa -> 302 http://localhost/za
ask /t -> 302 http://localhost/z%5b%5d
ask /u -> 302 http://localhost/2:3
ask /w -> 302 http://localhost/z
"##,
    // set twice by one rule and by two, taken away and set again, and taken away where none was set
    r##"main DocumentRoot /srv\nRewriteEngine On\nRewriteRule ^/ - [E=v:1,E=w:2,E=v:3]\n
  RewriteRule ^/a$ - [E=!v,E=v:4]\nRewriteRule ^/b$ - [E=!w]\nRewriteRule ^/b$ - [E=w:5,E=!x]\n
  RewriteRule ^/ /%{ENV:v}-%{ENV:w}-%{ENV:x} [R,L]\n
ask / -> 302 http://localhost/3-2-
ask /a -> 302 http://localhost/4-2-
ask /b -> 302 http://localhost/3-5-
"##,
    // escaping, L, END, NC and flags without effect
    r##"main DocumentRoot /srv\nRewriteEngine On\nRewriteRule ^/a$ /m#a?\\%20#%{HTTP_USER_AGENT} [NE,R,L]\n
  RewriteRule ^/b$ /m#a?%{HTTP_USER_AGENT} [R,L]\nRewriteRule ^/c$ /d [L]\nRewriteRule ^/d$ /e\n
  RewriteRule ^/f$ /g [END]\n
  RewriteRule ^/g$ /h\nRewriteRule ^/I$ /j [nocase,NS,T=a/b,H=c,CO=d:e,DPI,type,handler,cookie]\n
  RewriteRule !^/ /never\n
  RewriteRule ^/k$ /l%1\\$0$x%y [noescape,R]\n
file /srv/d /srv/e /srv/g /srv/j
{"do":"ask","headers":{"User-Agent":"u v"},"target":"/a"} -> 302 http://localhost/m#a?%20#u v
{"do":"ask","headers":{"User-Agent":"u v"},"target":"/b"} -> 302 http://localhost/m%23a?u%20v
ask /c -> /srv/d
ask /d -> /srv/e
ask /f -> /srv/g
ask /i -> /srv/j
ask /k -> 302 http://localhost/l$0$x%y
"##,
    // the server's own URLs, those of others, and other schemes
    r##"main DocumentRoot /srv\nRewriteEngine On\nRewriteRule ^/a$ http://localhost/b [L]\n
  RewriteRule ^/b$ http://localhost/b [R,L]\n
  RewriteRule ^/c$ HTTP://LOCALHOST:080/d [L]\nRewriteRule ^/e$ http://localhost [L]\n
  RewriteRule ^/f$ http://localhost:81/x [L]\n
  RewriteRule ^/g$ https://localhost/x [L]\nRewriteRule ^/h$ ftp://localhost/x\nRewriteRule ^/i$ x+y.z-1://q\n
  RewriteRule ^/j$ %{REQUEST_SCHEME}://other/x\nRewriteRule ^/k$ x [R,L]\nRewriteRule ^/l$ http://localhost.x/y [L]\n
  RewriteRule ^/m$ 1x://y\nRewriteRule ^/n$ %{REQUEST_SCHEME}://other/x\n
file /srv/b /srv/d
ask /a -> /srv/b
ask /b -> 302 http://localhost/b
ask /c -> /srv/d
ask /e -> directory /srv/
ask /f -> 302 http://localhost:81/x
ask /g -> 302 https://localhost/x
ask /h -> outside scheme
ask /i -> outside scheme
ask /j -> outside scheme
ask /k -> outside relative redirect
ask /l -> 302 http://localhost.x/y
ask /m -> 400
ask /n -> 302 http://other/x
ask /a port=8080 -> 302 http://localhost/b
"##,
    // a name with a slash is no authority
    r##"main DocumentRoot /srv\nServerName a/b\nRewriteEngine On\nRewriteRule ^/a$ http://a/b/f [L]\n
  RewriteRule ^/b$ http://a/b [L]\nRewriteRule ^/c$ http://a/f [L]\n
file /srv/f
ask /a host= -> 302 http://a/b/f
ask /b host= -> 302 http://a/b
ask /c host= -> 302 http://a/f
ask /c host=a -> /srv/f
ask /a host=A -> not found
"##,
    // each variable
    r##"main DocumentRoot /srv\nRewriteEngine On\nRewriteRule ^/v$ /%{REQUEST_METHOD},%{request_scheme},%{HTTPS},
  %{HTTP_HOST},%{SERVER_NAME},%{SERVER_PORT},%{SERVER_ADDR},%{REMOTE_ADDR},%{HTTP_USER_AGENT},%{HTTP_REFERER},
  %{HTTP_COOKIE},%{HTTP_ACCEPT},%{HTTP:x-y},%{http:HOST},%{REQUEST_URI},%{REQUEST_FILENAME},%{SCRIPT_FILENAME},
  %{PATH_INFO},%{QUERY_STRING},%{DOCUMENT_ROOT},%{ENV:x},%{THE_REQUEST} [NE,R,L]\n
{"do":"ask","client":"10.0.0.1","headers":{"User-Agent":"u a","Referer":"r","Cookie":"c","Accept":"a","X-Y":"z"},
  "port":81,"target":"/v?q=1"} -> 302 http://localhost:81/GET,http,off,localhost:81,localhost,81,192.0.2.1,10.0.0.1,
  u a,r,c,a,z,localhost:81,/v,/v,/v,,q=1,/srv,,GET /v?q=1 HTTP/1.1
"##,
    // the tests of conditions
    r##"main DocumentRoot /srv\nRewriteEngine On\nRewriteCond /srv//f -f\nRewriteCond /srv/f !-d\n
  RewriteCond /srv/d/ -d\n
  RewriteCond / -d\nRewriteCond /srv/f/ !-f\nRewriteCond /srv/../srv/f !-f\nRewriteCond srv/f !-f\n
  RewriteCond /none !-d\n
  RewriteCond %{HTTP_HOST} =localhost\nRewriteCond %{HTTP_HOST} =LOCALHOST [NC]\n
  RewriteCond %{HTTP_HOST} !=LOCALHOST [NV]\n
  RewriteCond \"%{QUERY_STRING}\" =\"\"\nRewriteCond %{HTTP_HOST} ^LOCAL [nocase,novary]\nRewriteRule ^/a$ /f\n
  RewriteCond x ^y$\nRewriteCond x ^x$ [OR]\nRewriteCond x ^z$\nRewriteRule ^/b$ /f\nRewriteCond $1 ^(.)c$\n
  RewriteCond %1 ^b(x?)$\nRewriteRule ^/(.*)$ /f-%0-%1-$1\n
file /srv/f /srv/d/f /srv/f-b--bc
ask /a -> /srv/f
ask /a?q -> not found
ask /b -> not found
ask /bc -> /srv/f-b--bc
"##,
];

#[test]
fn flags_have_their_effect(rt: HostRuntime) -> Result<(), NoMemory> {
    hold_each(&rt, rt.alloc(), FLAGS)
}
