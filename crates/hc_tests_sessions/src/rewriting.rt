//! Rules of a server, as dialogues: RewriteRule, RewriteCond, RewriteOptions and RewriteMap.

use crate::dialogue::{hold, hold_each};
use hc_base::NoMemory;
use std::alloc::Global;

// Conditions, chains, rounds and what a request goes on with.
static RULES: &[&str] = &[
    // to another scheme, with the name and the path of the request
    r##"main DocumentRoot /srv\nRewriteEngine On\nRewriteCond %{HTTPS} off\n
  RewriteRule ^ https://%{HTTP_HOST}%{REQUEST_URI} [R=301,L]\n
ask /caf%C3%A9?q=x%20y host=www.example -> 301 https://www.example/caf%c3%a9?q=x%20y
ask /caf%C3%A9?q=x%20y host=www.example scheme=https -> not found
"##,
    // groups of OR; a negated pattern leaves the groups of the one before
    r##"main DocumentRoot /srv\nRewriteEngine On\nRewriteCond %{QUERY_STRING} ^a=(.)$ [OR]\n
  RewriteCond %{QUERY_STRING} ^b=(.)$\nRewriteCond %{REQUEST_METHOD} !^(POST)$\nRewriteRule ^/x$ /y-%1?\n
file /srv/x /srv/y-3 /srv/y-7
ask /x?b=7 -> /srv/y-7
ask /x?a=3 -> /srv/y-3
ask /x?b=7 method=POST -> /srv/x
"##,
    // a member of a group that is skipped sets no groups, and those of another rule are gone
    r##"main DocumentRoot /srv\nRewriteEngine On\nRewriteCond a=1 ^a=(.)$ [OR]\nRewriteCond b=2 ^b=(.)$ [ornext]\n
  RewriteCond c=3 ^c=(.)$\nRewriteRule ^/x$ /y%1\nRewriteRule ^/y1$ /z%1\nRewriteCond %{QUERY_STRING} !^q(.)$\n
  RewriteRule ^/u(.)$ /v-%1-$1\n
file /srv/z /srv/v--s
ask /x -> /srv/z
ask /us?z -> /srv/v--s
"##,
    // C and S
    r##"main DocumentRoot /srv\nRewriteEngine On\nRewriteRule ^/a /b [C]\nRewriteRule ^/b /c [chain]\n
  RewriteRule ^/zz /d\nRewriteRule ^/c /e [S=2]\nRewriteRule ^/e /f\nRewriteRule ^/e /g\nRewriteRule ^/e$ /h\n
  RewriteRule ^/q /r [skip=9]\n
file /srv/b /srv/f /srv/h /srv/r
ask /a -> /srv/h
ask /b -> /srv/b
ask /c -> /srv/h
ask /e -> /srv/f
ask /q -> /srv/r
"##,
    // N, its bound, and rounds without end
    r##"main DocumentRoot /srv\nRewriteEngine On\nRewriteRule ^(/.*)x$ $1 [N]\n
file /srv/f
ask /fxxx -> /srv/f
main DocumentRoot /srv\nRewriteEngine On\nRewriteRule ^/a$ /b [next]\nRewriteRule ^/b$ /a [N]\n
ask /a -> limit rounds
main DocumentRoot /srv\nRewriteEngine On\nRewriteRule ^(/.*)x$ $1 [N=3]\n
ask /fxx -> /srv/f
ask /fxxx -> limit rounds
main DocumentRoot /srv\nRewriteEngine On\nRewriteRule ^ - [N=032000]\n
ask /a -> limit rounds
"##,
    // a host's rules with those of the main server behind them, before them, and without them
    r##"main DocumentRoot /srv\nRewriteEngine On\nRewriteRule ^/b$ /c\n<VirtualHost *:80>\nRewriteEngine On\n
  RewriteOptions Inherit\nRewriteRule ^/a$ /b\n</VirtualHost>\n
file /srv/b /srv/c
ask /a -> /srv/c
ask /b -> /srv/c
ask /b port=81 -> /srv/c
main DocumentRoot /srv\nRewriteEngine On\nRewriteRule ^/b$ /c\n<VirtualHost *:80>\nRewriteEngine On\n
  RewriteOptions InheritBefore\nRewriteRule ^/a$ /b\n</VirtualHost>\n
ask /a -> /srv/b
ask /b -> /srv/c
main DocumentRoot /srv\nRewriteEngine On\nRewriteRule ^/b$ /c\n<VirtualHost *:80>\nRewriteEngine On\n
  RewriteRule ^/a$ /b\n</VirtualHost>\n
ask /a -> /srv/b
ask /b -> /srv/b
main DocumentRoot /srv\nRewriteEngine On\nRewriteRule ^/b$ /c\n<VirtualHost *:80>\nRewriteOptions Inherit\n
  RewriteRule ^/a$ /b\n</VirtualHost>\n
ask /a -> not found
"##,
    // a text whose first component is there is a file name, another one stands below the root
    r##"main DocumentRoot /srv\nAlias /w /x\nRewriteEngine On\nRewriteRule ^/n(.*)$ /srv/f$1\n
  RewriteRule ^/m$ /w [PT]\n
  RewriteRule ^/o$ //srv//f\nRewriteRule ^/k$ /w\nRewriteRule ^/r$ f\nRewriteRule ^/s$ ///\nRewriteRule ^/e$ \"\"\n
  RewriteRule ^/d$ /w/../x\nRewriteRule ^/p$ /w/./ [passthrough]\nRewriteRule ^/t$ - [PT]\n
file /srv/f /x /srv/w /srv/t
ask /n/g -> /srv/f /g
ask /m -> /x
ask /o -> /srv/f
ask /k -> /srv/w
ask /r -> 400
ask /s -> directory /srv/
ask /e -> 400
ask /d -> outside dot segment
ask /p -> outside dot segment
ask /t -> /srv/t
"##,
    // maps: the first of a name counts, the host's own come first, and an unknown one has no value
    r##"main DocumentRoot /srv\nRewriteEngine On\nRewriteMap m txt:/etc/m\nRewriteMap low int:tolower\n
  RewriteRule ^/p/([a-z]+)$ /x/${m:$1|none}\nRewriteRule ^/x/(one|two|none)$ - [L]\nRewriteRule ^/x/ - [F]\n
  RewriteRule ^/l/(.*)$ /x/${low:$1}\nRewriteRule ^/u/(.*)$ /x/${nomap:$1|o\\}$1}\n
  RewriteMap dir txt:/srv/x\nRewriteRule ^/y/(.*)$ /x/${dir:$1|none}\n
/etc/m # names\nab one\r\n  cd\ttwo three\n\nab other\n  # zz four\nee\n
file /srv/x/one /srv/x/none /srv/x/o}e
ask /u/e -> /srv/x/o}e
ask /p/ab -> /srv/x/one
ask /p/zz -> /srv/x/none
ask /p/cd -> not found
ask /p/ee -> 403
ask /l/ONE -> /srv/x/one
/etc/m ab one\nzz one
ask /p/zz -> /srv/x/one
ask /y/ab -> /srv/x/none
"##,
];

#[test]
fn rules_are_run(rt: HostRuntime) -> Result<(), NoMemory> {
    hold_each(&rt, rt.alloc(), RULES)
}

// Rules that each set another variable, and one that looks at the first and the last of them.
fn many_variables(alloc: Global, count: usize) -> Result<String, NoMemory> {
    let mut text = String::new(alloc);
    text.push_str(r"main DocumentRoot /srv\nRewriteEngine On\n")?;
    for number in 0..count {
        let rule = format!(in alloc; "RewriteRule ^ - [E=v{number}:{number}]\\n")?;
        text.push_str(&rule)?;
    }
    text.push_str(r"RewriteCond %{ENV:v0}-%{ENV:v1999} ^0-1999$\nRewriteRule ^/a$ /f\n")?;
    Ok(text)
}

#[test]
fn many_variables_are_set(rt: HostRuntime) -> Result<(), NoMemory> {
    let main = many_variables(rt.alloc(), 2_000)?;
    let dialogue = format!(in rt.alloc(); "{main}\nfile /srv/f\nask /a -> /srv/f\n")?;
    hold(&rt, rt.alloc(), &dialogue)
}

// The longest texts, and ones that are longer by one.
static LONG: &[&str] = &[
    r##"main DocumentRoot /srv\nRewriteEngine On\nRewriteRule ^(/p*)$ $1q\n
file /srv/d/f
ask /<<8188 p>> -> not found
ask /<<8189 p>> -> outside long text
"##,
    r##"main DocumentRoot /srv\nRewriteEngine On\nRewriteRule ^/(p*)$ /x?$1$1\n
file /srv/d/f
ask /<<4095 p>> -> not found
ask /<<4096 p>> -> outside long text
"##,
    r##"main DocumentRoot /srv\nRewriteEngine On\nRewriteRule ^/(p*)$ - [E=v:$1$1]\n
file /srv/d/f
ask /<<4095 p>> -> not found
main DocumentRoot /srv\nRewriteEngine On\nRewriteRule ^/(p*)$ - [E=v:$1$1,F]\n
ask /<<4096 p>> -> outside long text
"##,
    r##"main DocumentRoot /srv\nRewriteEngine On\n
  RewriteRule ^(/y*)x(.*)$ $1y$2 [N]\nRewriteRule ^(.*)y$ $1 [N]\n
file /srv/d/f
ask /<<4999 x>> -> directory /srv/
ask /<<5000 x>> -> limit rounds
"##,
];

#[test]
fn a_long_text_is_outside(rt: HostRuntime) -> Result<(), NoMemory> {
    hold_each(&rt, rt.alloc(), LONG)
}
