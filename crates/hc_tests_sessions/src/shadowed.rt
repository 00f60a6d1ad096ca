//! Claims that a rule matches no request.

use crate::dialogue::hold_each;
use hc_base::NoMemory;

// Rules of a server.
static SERVER: &[&str] = &[
    // what both groups of a text are isn't known together
    r##"main DocumentRoot /srv\nRewriteEngine On\nRewriteRule ^/(x|y)$ /$1-$1\nRewriteRule ^/x-y$ - [F]\n
decide shadowed MAIN:4 path=^/[xy]$ -> undecided rule:MAIN:3:true rule:MAIN:4:true
"##,
    r##"main DocumentRoot /srv\nRewriteEngine On\nRewriteRule ^/(x|y)$ /$1-$1\nRewriteRule ^/x-x$ - [F]\n
decide shadowed MAIN:4 path=^/[xy]$ -> refuted /x: 403
"##,
    // an earlier rule takes all that it could match
    r##"main DocumentRoot /srv\nRewriteEngine On\nRewriteRule ^/a /b [L]\nRewriteRule ^/ab$ /c\n
decide shadowed MAIN:4 -> proved
"##,
    r##"main DocumentRoot /srv\nRewriteEngine On\nRewriteRule ^/a /b [L]\nRewriteRule b$ /c\n
decide shadowed MAIN:4 -> refuted /b: not found
"##,
    r##"main DocumentRoot /srv\nRewriteRule ^ - [F]\n
decide shadowed MAIN:2 -> proved
"##,
    r##"main DocumentRoot /srv\nRewriteEngine On\nRewriteRule ^ - [S=1]\nRewriteRule ^ - [F]\n
decide shadowed MAIN:4 -> proved
"##,
    // what nothing is said of breaks each claim
    r##"main DocumentRoot /srv\nRewriteEngine On\nRewriteRule ^/x$ ftp://b.example/ [L]\nRewriteRule ^/x$ - [F]\n
decide shadowed MAIN:4 -> refuted /x: outside scheme
decide shadowed MAIN:4 path=^/[^x] -> proved
"##,
];

#[test]
fn rules_are_shadowed(rt: HostRuntime) -> Result<(), NoMemory> {
    hold_each(&rt, rt.alloc(), SERVER)
}

// Rules of directories.
static OVERRIDES: &[&str] = &[
    r##"main DocumentRoot /srv\n<Directory /srv>\nAllowOverride All\n</Directory>\n
/srv/.htaccess RewriteEngine On\nRewriteRule ^a$ b [L]\nRewriteRule ^b$ - [F]\n
file /srv/b
decide shadowed /srv/.htaccess:2 path=^/[ab]$ -> refuted /a: 403
decide shadowed /srv/.htaccess:2 -> undecided rule:/srv/.htaccess:2:true rule:/srv/.htaccess:2:false 
  rule:/srv/.htaccess:3:true
"##,
    r##"main DocumentRoot /srv\n<Directory /srv>\nAllowOverride All\n</Directory>\n
/srv/.htaccess RewriteEngine On\nRewriteRule ^a$ - [L]\nRewriteRule ^a$ - [F]\n
file /srv/b
decide shadowed /srv/.htaccess:3 path=^/[ab]$ -> proved
decide shadowed /srv/.htaccess:3 -> undecided rule:/srv/.htaccess:2:false rule:/srv/.htaccess:3:true
"##,
];

#[test]
fn rules_of_directories_are_shadowed(rt: HostRuntime) -> Result<(), NoMemory> {
    hold_each(&rt, rt.alloc(), OVERRIDES)
}

// Rules of directories below, and a `.htaccess` that is refused.
static BELOW: &[&str] = &[
    // the rules of a directory below are run in its place
    r##"main DocumentRoot /srv\n<Directory /srv>\nAllowOverride All\n</Directory>\n
/srv/.htaccess RewriteEngine On\nRewriteRule ^d/ - [F]\n
/srv/d/.htaccess RewriteRule ^z$ - [G]\n
file /srv/d/e/k
decide shadowed /srv/.htaccess:2 -> proved
decide shadowed /srv/d/.htaccess:1 path=^/d/[yz]$ -> refuted /d/z: 410
decide shadowed /srv/d/.htaccess:1 -> undecided rule:/srv/d/.htaccess:1:true
"##,
    // a `.htaccess` that is refused on the way
    r##"main DocumentRoot /srv\n<Directory /srv>\nAllowOverride All\n</Directory>\n
/srv/.htaccess Nonsense\n
/srv/d/.htaccess RewriteEngine On\nRewriteRule ^ - [F]\n
decide shadowed /srv/d/.htaccess:2 -> proved
"##,
    r##"main DocumentRoot /srv\nRewriteEngine On\nRewriteRule ^/d/a$ /d/b\n<Directory /srv>\nAllowOverride All\n
  </Directory>\n
/srv/d/.htaccess Nonsense\n
decide shadowed MAIN:3 -> refuted /d/a: ht_refused 1 UnsupportedDirective /srv/d/.htaccess:1
"##,
];

#[test]
fn rules_below_are_shadowed(rt: HostRuntime) -> Result<(), NoMemory> {
    hold_each(&rt, rt.alloc(), BELOW)
}

// Claims.
static MAPS: &[&str] = &[
    r##"main DocumentRoot /srv\nRewriteEngine On\nRewriteMap m txt:/etc/m\nRewriteMap low int:tolower\n
  RewriteRule ^/p/([a-z]+)$ /x/${m:$1|none}\nRewriteRule ^/x/(one|two|none)$ - [L]\nRewriteRule ^/x/ - [F]\n
/etc/m # names\nab one\ncd two\n
file /srv/x/one /srv/x/none
decide shadowed MAIN:7 path=^/p/[a-z]+$ -> proved
"##,
    r##"main DocumentRoot /srv\nRewriteEngine On\nRewriteMap m txt:/etc/m\nRewriteMap low int:tolower\n
  RewriteRule ^/p/([a-z]+)$ /x/${m:$1|none}\nRewriteRule ^/x/(one|two|none)$ - [L]\nRewriteRule ^/x/ - [F]\n
/etc/m # names\nab one\ncd two\nee four\n
file /srv/x/one /srv/x/none
decide shadowed MAIN:7 path=^/p/[a-z]+$ -> undecided rule:MAIN:5:true rule:MAIN:6:false rule:MAIN:7:true
decide shadowed MAIN:7 path=^/p/ee$ -> refuted /p/ee: 403
"##,
    r##"main DocumentRoot /srv\nRewriteEngine On\nRewriteMap m txt:/etc/m\nRewriteMap low int:tolower\n
  RewriteRule ^/p/([A-Z]+)$ /x/${low:$1}\nRewriteRule ^/x/(one|two|none)$ - [L]\nRewriteRule ^/x/ - [F]\n
/etc/m # names\nab one\ncd two\n
file /srv/x/one /srv/x/none
decide shadowed MAIN:6 path=^/p/ONE$ -> refuted /p/ONE: /srv/x/one
"##,
];

#[test]
fn rules_behind_maps_are_shadowed(rt: HostRuntime) -> Result<(), NoMemory> {
    hold_each(&rt, rt.alloc(), MAPS)
}

// A rule under a condition on the request.
static CONDITIONS: &[&str] = &[
    r##"main DocumentRoot /srv\nRewriteEngine On\nRewriteCond %{REQUEST_METHOD} =POST\nRewriteRule ^/f$ - [F]\n
decide shadowed MAIN:4 -> proved
decide shadowed MAIN:4 methods=GET,POST -> refuted /f method=POST: 403
"##,
    r##"main DocumentRoot /srv\nRewriteEngine On\nRewriteRule ^/f$ - [F]\n
decide shadowed MAIN:3 methods=PUT,GET -> refuted /f method=PUT: 403
"##,
    r##"main DocumentRoot /srv\nRewriteEngine On\nRewriteCond %{REQUEST_METHOD} !^(PUT|GET)$\nRewriteRule ^/f$ - [F]\n
decide shadowed MAIN:4 methods=PUT,GET -> proved
"##,
    r##"main DocumentRoot /srv\nRewriteEngine On\nRewriteCond %{HTTP:X} ^go$\nRewriteRule ^/f$ - [F]\n
decide shadowed MAIN:4 -> refuted /f headers={"x":"go"}: 403
"##,
    r##"main DocumentRoot /srv\nRewriteEngine On\nRewriteCond %{HTTP_USER_AGENT} bot\nRewriteRule ^/f$ - [F]\n
decide shadowed MAIN:4 -> refuted /f headers={"user-agent":"bot"}: 403
"##,
    r##"main DocumentRoot /srv\nRewriteEngine On\nRewriteCond %{HTTP:X} !^go$\nRewriteRule ^/f$ - [F]\n
decide shadowed MAIN:4 -> refuted /f: 403
"##,
    r##"main DocumentRoot /srv\nRewriteEngine On\nRewriteCond %{HTTP:X} ^a\nRewriteCond %{HTTP:x} ^b\n
  RewriteRule ^/f$ - [F]\n
decide shadowed MAIN:5 -> proved
"##,
    // a value of a header has none of these bytes
    r##"main DocumentRoot /srv\nRewriteEngine On\nRewriteCond %{HTTP:X} \\x80\nRewriteRule ^/f$ - [F]\n
decide shadowed MAIN:4 -> proved
"##,
    r##"main DocumentRoot /srv\nRewriteEngine On\nRewriteCond %{QUERY_STRING} ^a=1$\nRewriteRule ^/f$ - [F]\n
decide shadowed MAIN:4 -> refuted /f?a=1: 403
decide shadowed MAIN:4 query=^b*$ -> proved
"##,
    r##"main DocumentRoot /srv\nRewriteEngine On\nRewriteCond %{THE_REQUEST} \"^POST\"\nRewriteRule ^/f$ - [F]\n
decide shadowed MAIN:4 -> undecided cond:MAIN:3:true rule:MAIN:4:true
"##,
    r##"main DocumentRoot /srv\nRewriteEngine On\nRewriteCond %{HTTP_HOST} =localhost\nRewriteRule ^/f$ - [F]\n
decide shadowed MAIN:4 -> refuted /f: 403
decide shadowed MAIN:4 host=b.example -> proved
"##,
    r##"main DocumentRoot /srv\nRewriteEngine On\nRewriteCond %{REMOTE_ADDR} ^11\\.\nRewriteRule ^/f$ - [F]\n
decide shadowed MAIN:4 client=10.0.0.0/7 -> undecided cond:MAIN:3:true rule:MAIN:4:true
decide shadowed MAIN:4 client=11.0.0.0/8 -> refuted /f client=11.0.0.0: 403
decide shadowed MAIN:4 client=10.0.0.7 -> proved
"##,
];

#[test]
fn rules_under_conditions_are_shadowed(rt: HostRuntime) -> Result<(), NoMemory> {
    hold_each(&rt, rt.alloc(), CONDITIONS)
}

// Rules of a directory behind a Require.
static BEHIND: &[&str] = &[
    r##"main DocumentRoot /srv\n<Directory /srv>\nRequire ip 11.0.0.0/8\nRewriteEngine On\nRewriteRule ^f$ - [G]\n
  </Directory>\n
file /srv/k
decide shadowed MAIN:5 path=^/f$ client=10.0.0.0/7 -> undecided rule:MAIN:5:true
decide shadowed MAIN:5 path=^/f$ client=10.0.0.0/8 -> proved
decide shadowed MAIN:5 path=^/f$ client=11.0.0.0/8 -> refuted /f client=11.0.0.0: 410
"##,
    r##"main DocumentRoot /srv\n<Directory /srv>\nRequire ip 10.0.0.0/8\nRewriteEngine On\nRewriteRule ^f$ - [G]\n
  </Directory>\n
file /srv/k
decide shadowed MAIN:5 path=^/f$ client=10.0.0.0/7 -> refuted /f client=10.0.0.0: 410
"##,
    r##"main DocumentRoot /srv\n<Directory /srv>\nRequire all denied\nRewriteEngine On\nRewriteRule ^f$ - [G]\n
  </Directory>\n
file /srv/k
decide shadowed MAIN:5 -> proved
"##,
];

#[test]
fn rules_behind_a_require_are_shadowed(rt: HostRuntime) -> Result<(), NoMemory> {
    hold_each(&rt, rt.alloc(), BEHIND)
}

// Claims.
static SERVERS: &[&str] = &[
    r##"main DocumentRoot /srv\n<VirtualHost *:80>\nServerName a.example\nRewriteEngine On\nRewriteRule ^/f$ - [F]\n
  </VirtualHost>\n<VirtualHost *:80>\nServerName b.example\nRewriteEngine On\nRewriteRule ^/f$ - [G]\n
  </VirtualHost>\n
decide shadowed MAIN:5 host=b.example -> proved
decide shadowed MAIN:10 host=B.example -> refuted /f host=B.example: 410
decide shadowed MAIN:5 host=c.example -> refuted /f host=c.example: 403
"##,
];

#[test]
fn rules_of_other_servers_are_shadowed(rt: HostRuntime) -> Result<(), NoMemory> {
    hold_each(&rt, rt.alloc(), SERVERS)
}
