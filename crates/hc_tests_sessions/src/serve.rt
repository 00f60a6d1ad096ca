//! What requests receive, as dialogues: targets, aliases and redirects.

use crate::dialogue::hold_each;
use hc_base::NoMemory;

// A main file, the files that are there, and what targets receive.
static SERVED: &[&str] = &[
    r##"main DocumentRoot /srv\nAliasMatch ^/(a|ab)(c|bcd)? /srv/m-$1-$2\nAliasMatch ^/L(x+?)(x*) /srv/l-$1-$2\n
file /srv/m-a-bcd /srv/m-a- /srv/l-x-xx
ask /abcd -> /srv/m-a-bcd
ask /abc -> /srv/m-a-
ask /Lxxx -> /srv/l-x-xx
"##,
    r##"main DocumentRoot /srv\n
file /srv/a/b/d /srv/a+b /srv/x
ask /a/./b//c/../d -> /srv/a/b/d
ask /x/%2e%2e/a/b/d -> /srv/a/b/d
ask /a%2Fb -> 404
ask /a%zz -> 400
ask /.. -> 400
ask /a%20b -> outside path byte
ask /a+b -> /srv/a+b
ask /x/y?q -> /srv/x /y
ask /x? -> /srv/x
ask / -> directory /srv/
"##,
    r##"main DocumentRoot /srv\nAlias /one /srv/x\nRedirect permanent /one http://o.example/two\nRedirect gone /old\n
  Redirect /s/ /t/\nRedirectMatch 303 ^/m/(.*)$ /n?k=$1\nRedirectMatch 451 b$\nRedirectPermanent /p /q%20\n
  RedirectTemp /e /f\n
file /srv/x
ask /one/foo.txt?q=1 -> 301 http://o.example/two/foo.txt?q=1
ask /oneother -> not found
ask /old/z -> 410
ask /s -> not found
ask /s/1 -> 302 http://localhost/t/1
ask /m/x?q -> 303 http://localhost/n?k=x
ask /ab -> 451
ask /p/%5e? -> 301 http://localhost/q%20/%5e
ask /e?a=b -> 302 http://localhost/f?a=b
"##,
    r##"main DocumentRoot /srv\nAlias /a/ /one//\nAlias /a /two\nScriptAlias /cgi /bin/\nAlias /d /x/../y\n
  AliasMatch ^/g(x)?(y)$ /g$1-$2$3\nAlias / /rest/\n
file /one/f /two /bin/c /g-y /rest/z
ask /a/f -> /one/f
ask /a -> /two
ask /cgi/c -> /bin/c
ask /d -> outside dot segment
ask /gy -> /g-y
ask /z -> /rest/z
"##,
    // words of digits before a redirect's path
    r##"main DocumentRoot /srv\nRedirectMatch \"\" /y\n
check -> hosts 0
main DocumentRoot /srv\nRedirectMatch 302 ^/x /y\n
ask /x -> 302 http://localhost/y
main DocumentRoot /srv\nRedirectMatch 404 ^/z\n
ask /z -> 404
main DocumentRoot /srv\nRedirectMatch 3a /b\n
ask /q/3a -> 302 http://localhost/b
"##,
    // lines that are joined, and quotes
    r##"main # a comment \\\n  Alias /x /never\ndocumentroot \"/srv\"\nALIAS /i\\\nmage /ftp/pub\nKeepAlive On\n
/ftp/pub/a
ask /image/a -> /ftp/pub/a
ask /x/a -> not found
"##,
];

#[test]
fn requests_receive_these(rt: HostRuntime) -> Result<(), NoMemory> {
    hold_each(&rt, rt.alloc(), SERVED)
}
